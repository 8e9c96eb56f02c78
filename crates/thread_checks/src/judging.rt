//! What the judge takes and refuses, by orders of events that were worked out from the rules.

use crate::judge::judge;
use crate::lines::Line;
use crate::sources::{File, Source};
use crate::steps::Step;
use ask_history::Mark::{self, Done};
use pc_terms::NoMemory;
use std::alloc::Global;
use std::process::Abort;
use std::test::Fail;

/// Scripts, an order of events, and the journal index of the first that may not stand there.
#[derive(Clone, Copy)]
struct Case {
    name: &'static str,
    scripts: &'static [&'static [Line]],
    steps: &'static [Step],
    stray: Option<usize>,
}

pub fn rows(alloc: Global, scripts: &[&[Line]]) -> Result<Vec<Vec<Line>>, NoMemory> {
    let mut rows = Vec::new(alloc);
    for script in scripts {
        rows.push(script.to_vec(alloc)?)?;
    }
    Ok(rows)
}

fn agree(rt: &(impl Abort + AllocGlobal), cases: &[Case]) -> Result<(), Fail> {
    for case in cases {
        let scripts = rows(rt.alloc(), case.scripts)?;
        let mut text = String::new(rt.alloc());
        let stray = judge(rt.alloc(), &scripts, case.steps, &mut text)?;
        assert_eq!(rt; stray, case.stray, "{}", case.name);
    }
    Ok(())
}

// A client that waits for its reload and for its ask.
const PATIENT: &[&[Line]] = &[&[
    Line::Reload(Source::Number),
    Line::Wait(1),
    Line::Type(File::A, 19),
    Line::Wait(2),
]];

// The same client without waits, and one that asks beside it.
const HASTY: &[&[Line]] = &[
    &[Line::Reload(Source::Number), Line::Type(File::A, 19)],
    &[Line::Type(File::A, 19)],
];

// It takes its first ask back, and then asks again.
const FICKLE: &[&[Line]] = &[&[
    Line::Type(File::A, 0),
    Line::Cancel(1),
    Line::Type(File::A, 0),
]];

// The first shuts the session down once its ask is answered, and the second asks meanwhile.
const CLOSING: &[&[Line]] = &[
    &[
        Line::Structure(File::A),
        Line::Wait(1),
        Line::Close,
        Line::Structure(File::A),
    ],
    &[Line::Structure(File::B), Line::Structure(File::B)],
];

const LEGAL: Case = Case {
    name: "",
    scripts: PATIENT,
    steps: &[],
    stray: None,
};

const FIRST_STRAY: Case = Case {
    stray: Some(0),
    ..LEGAL
};

const SECOND_STRAY: Case = Case {
    stray: Some(1),
    ..LEGAL
};

const THIRD_STRAY: Case = Case {
    stray: Some(2),
    ..LEGAL
};

const FOURTH_STRAY: Case = Case {
    stray: Some(3),
    ..LEGAL
};

static TICKETS: [Case; 8] = [
    Case {
        name: "calls one after the other",
        steps: &[
            Step::Accept(0),
            Step::Settle(0, Done),
            Step::Accept(0),
            Step::Settle(1, Done),
            Step::Close,
        ],
        ..LEGAL
    },
    Case {
        name: "asks settled in another order than they came",
        scripts: HASTY,
        steps: &[
            Step::Accept(0),
            Step::Accept(1),
            Step::Accept(0),
            Step::Settle(0, Done),
            Step::Settle(2, Mark::NoMemory),
            Step::Settle(1, Done),
            Step::Close,
        ],
        ..LEGAL
    },
    Case {
        name: "an ask settled before an earlier reload",
        scripts: HASTY,
        steps: &[Step::Accept(0), Step::Accept(1), Step::Settle(1, Done)],
        ..THIRD_STRAY
    },
    Case {
        name: "a call settled again",
        steps: &[
            Step::Accept(0),
            Step::Settle(0, Done),
            Step::Settle(0, Done),
        ],
        ..THIRD_STRAY
    },
    Case {
        name: "a call settled that was not accepted",
        steps: &[Step::Accept(0), Step::Settle(1, Done)],
        ..SECOND_STRAY
    },
    Case {
        name: "a call of a client that is none",
        steps: &[Step::Accept(1)],
        ..FIRST_STRAY
    },
    Case {
        name: "a call more than the script has",
        scripts: HASTY,
        steps: &[Step::Accept(1), Step::Accept(1)],
        ..SECOND_STRAY
    },
    Case {
        name: "a call left open",
        scripts: CLOSING,
        steps: &[Step::Accept(1), Step::Accept(0), Step::Settle(1, Done)],
        ..FOURTH_STRAY
    },
];

#[test]
fn each_call_is_settled_once_and_after_earlier_mutations(rt: HostRuntime) -> Result<(), Fail> {
    agree(&rt, &TICKETS)
}

static SCRIPTS: [Case; 8] = [
    Case {
        name: "a call above which a wait is not over",
        steps: &[Step::Accept(0), Step::Accept(0)],
        ..SECOND_STRAY
    },
    Case {
        name: "a cancel in time",
        scripts: FICKLE,
        steps: &[
            Step::Accept(0),
            Step::Cancel(0),
            Step::Accept(0),
            Step::Settle(1, Done),
            Step::Settle(0, Done),
            Step::Close,
        ],
        ..LEGAL
    },
    Case {
        name: "a cancel that comes late makes no event",
        scripts: FICKLE,
        steps: &[
            Step::Accept(0),
            Step::Settle(0, Done),
            Step::Accept(0),
            Step::Settle(1, Done),
            Step::Close,
        ],
        ..LEGAL
    },
    Case {
        name: "a call above which a cancel is neither in time nor late",
        scripts: FICKLE,
        steps: &[Step::Accept(0), Step::Accept(0)],
        ..SECOND_STRAY
    },
    Case {
        name: "a second cancel",
        scripts: FICKLE,
        steps: &[Step::Accept(0), Step::Cancel(0), Step::Cancel(0)],
        ..THIRD_STRAY
    },
    Case {
        name: "a cancel after the settling",
        scripts: FICKLE,
        steps: &[Step::Accept(0), Step::Settle(0, Done), Step::Cancel(0)],
        ..THIRD_STRAY
    },
    Case {
        name: "a cancel that no script has",
        scripts: HASTY,
        steps: &[Step::Accept(0), Step::Cancel(0)],
        ..SECOND_STRAY
    },
    Case {
        name: "an event that is none",
        steps: &[Step::Stray],
        ..FIRST_STRAY
    },
];

#[test]
fn each_client_plays_its_script(rt: HostRuntime) -> Result<(), Fail> {
    agree(&rt, &SCRIPTS)
}

static SHUTDOWNS: [Case; 12] = [
    Case {
        name: "no client",
        scripts: &[],
        steps: &[Step::Close],
        ..LEGAL
    },
    Case {
        name: "no shutdown",
        scripts: &[],
        ..FIRST_STRAY
    },
    Case {
        name: "a second shutdown",
        scripts: &[],
        steps: &[Step::Close, Step::Close],
        ..SECOND_STRAY
    },
    Case {
        name: "a shutdown before the ends of scripts without one",
        scripts: HASTY,
        steps: &[Step::Accept(1), Step::Settle(0, Done), Step::Close],
        ..THIRD_STRAY
    },
    Case {
        name: "a shutdown before the last answer of scripts without one",
        scripts: FICKLE,
        steps: &[
            Step::Accept(0),
            Step::Cancel(0),
            Step::Accept(0),
            Step::Close,
        ],
        ..FOURTH_STRAY
    },
    Case {
        name: "a shutdown by a script, which settles what is open",
        scripts: CLOSING,
        steps: &[
            Step::Accept(1),
            Step::Accept(0),
            Step::Settle(1, Done),
            Step::Close,
            Step::Settle(0, Done),
        ],
        ..LEGAL
    },
    Case {
        name: "a shutdown above which a wait is not over",
        scripts: CLOSING,
        steps: &[Step::Accept(1), Step::Accept(0), Step::Close],
        ..THIRD_STRAY
    },
    Case {
        name: "a call behind the shutdown",
        scripts: CLOSING,
        steps: &[
            Step::Accept(0),
            Step::Settle(0, Done),
            Step::Close,
            Step::Accept(1),
        ],
        ..FOURTH_STRAY
    },
    Case {
        name: "a cancel behind the shutdown",
        scripts: &[&[Line::Close], &[Line::Structure(File::A), Line::Cancel(1)]],
        steps: &[Step::Accept(1), Step::Close, Step::Cancel(0)],
        ..THIRD_STRAY
    },
    Case {
        name: "what is open settled in another order than that of the tickets",
        scripts: &[
            &[Line::Close],
            &[Line::Structure(File::A), Line::Structure(File::A)],
        ],
        steps: &[
            Step::Accept(1),
            Step::Accept(1),
            Step::Close,
            Step::Settle(1, Done),
        ],
        ..FOURTH_STRAY
    },
    Case {
        name: "what is open settled out of memory",
        scripts: &[&[Line::Close], &[Line::Structure(File::A)]],
        steps: &[
            Step::Accept(1),
            Step::Close,
            Step::Settle(0, Mark::NoMemory),
        ],
        ..THIRD_STRAY
    },
    Case {
        name: "a check behind the shutdown",
        scripts: &[&[Line::Reload(Source::Number), Line::Wait(1), Line::Close]],
        steps: &[
            Step::Accept(0),
            Step::Settle(0, Done),
            Step::Close,
            Step::Checked(File::A),
        ],
        ..FOURTH_STRAY
    },
];

#[test]
fn the_shutdown_comes_once_and_settles_what_is_open(rt: HostRuntime) -> Result<(), Fail> {
    agree(&rt, &SHUTDOWNS)
}

static CHECKS: [Case; 4] = [
    Case {
        name: "a check of a loaded file",
        steps: &[
            Step::Accept(0),
            Step::Settle(0, Done),
            Step::Checked(File::A),
            Step::Accept(0),
            Step::Settle(1, Done),
            Step::Close,
        ],
        ..LEGAL
    },
    Case {
        name: "a check of a file whose reload is not settled",
        steps: &[Step::Accept(0), Step::Checked(File::A)],
        ..SECOND_STRAY
    },
    Case {
        name: "a second check of a file",
        steps: &[
            Step::Accept(0),
            Step::Settle(0, Done),
            Step::Checked(File::A),
            Step::Checked(File::A),
        ],
        ..FOURTH_STRAY
    },
    Case {
        name: "a check of a file whose reload found no memory",
        steps: &[
            Step::Accept(0),
            Step::Settle(0, Mark::NoMemory),
            Step::Checked(File::A),
        ],
        ..THIRD_STRAY
    },
];

#[test]
fn a_loaded_file_is_checked_once(rt: HostRuntime) -> Result<(), Fail> {
    agree(&rt, &CHECKS)
}

/// Scripts, an order of events, and what is printed of the session.
struct Printed {
    scripts: &'static [&'static [Line]],
    steps: &'static [Step],
    text: &'static str,
}

static PRINTED: [Printed; 2] = [
    Printed {
        scripts: PATIENT,
        steps: &[
            Step::Accept(0),
            Step::Settle(0, Done),
            Step::Accept(0),
            Step::Settle(1, Done),
            Step::Checked(File::A),
            Step::Close,
        ],
        text: "journal\t6\n\
            0\taccept\t0\t0\t1\treload A.scala 22\n\
            1\tsettle\t0\tdone\n\
            2\taccept\t1\t0\t2\ttype A.scala 19\n\
            3\tsettle\t1\tdone\n\
            4\tchecked\tA.scala\t0\n\
            5\tclose\n\
            client\t0\n\
            1\tdone\n\
            2\ttree\tLiteral\t19-20\tInt\t-\n\
            end\n",
    },
    // The second client's reload of a text that is not read yet takes effect before the ask of the first.
    Printed {
        scripts: &[
            &[
                Line::Type(File::B, 0),
                Line::Cancel(1),
                Line::Type(File::C, 0),
                Line::Wait(2),
                Line::Cancel(2),
                Line::Close,
                Line::Remove(File::D),
            ],
            &[Line::Reload(Source::Unread), Line::Structure(File::D)],
        ],
        steps: &[
            Step::Accept(0),
            Step::Cancel(0),
            Step::Accept(1),
            Step::Accept(0),
            Step::Settle(0, Done),
            Step::Settle(1, Done),
            Step::Settle(2, Done),
            Step::Checked(File::C),
            Step::Accept(1),
            Step::Close,
            Step::Settle(3, Done),
        ],
        text: "journal\t11\n\
            0\taccept\t0\t0\t1\ttype B.scala 0\n\
            1\tcancel\t0\n\
            2\taccept\t1\t1\t1\treload C.scala 33\n\
            3\taccept\t2\t0\t2\ttype C.scala 0\n\
            4\tsettle\t0\tdone\n\
            5\tsettle\t1\tdone\n\
            6\tsettle\t2\tdone\n\
            7\tchecked\tC.scala\t1\n\
            \t0-0\tP1\tnot a statement of the profile\n\
            8\taccept\t3\t1\t2\tstructure D.scala\n\
            9\tclose\n\
            10\tsettle\t3\tdone\n\
            client\t0\n\
            1\tcancelled\n\
            cancel\t1\tmarked\t1\n\
            2\tunread\n\
            cancel\t2\tlate\t6\n\
            close\t9\n\
            3\trefused\tclosed\t9\n\
            client\t1\n\
            1\tdone\n\
            2\tclosed\n\
            end\n",
    },
];

#[test]
fn what_is_printed_follows_from_the_order(rt: HostRuntime) -> Result<(), Fail> {
    for case in &PRINTED {
        let scripts = rows(rt.alloc(), case.scripts)?;
        let mut text = String::new(rt.alloc());
        let stray = judge(rt.alloc(), &scripts, case.steps, &mut text)?;
        assert_eq!(rt; text.as_str(), case.text);
        assert_eq!(rt; stray, None);
    }
    Ok(())
}
