//! Sessions of which each run prints the same for its clients, whatever the threads do.

use crate::judging::rows;
use crate::lines::Line;
use crate::runs::{Failing, NONE, agree};
use crate::sources::{File, Source};
use std::process::Abort;
use std::sync::Wait;
use std::test::Fail;
use std::thread::Threads;

/// Scripts, and how all that is printed of their session ends.
struct Case {
    name: &'static str,
    scripts: &'static [&'static [Line]],
    end: &'static str,
}

const ROUNDS: u64 = 10;

const HASTY: &[Line] = &[Line::Reload(Source::Number), Line::Type(File::A, 19)];

fn agree_all<R: Abort + AllocGlobal + Threads + Wait + Sync>(
    rt: &R,
    cases: &[Case],
    failing: &Failing,
) -> Result<(), Fail> {
    for case in cases {
        let scripts = rows(rt.alloc(), case.scripts)?;
        for _ in 0..ROUNDS {
            let left = agree(rt, &scripts, failing)?;
            assert!(rt;
                left.out.bytes().ends_with(case.end.as_bytes()),
                "{}",
                case.name
            );
        }
    }
    Ok(())
}

static ANSWERS: [Case; 5] = [
    Case {
        name: "a client that asks about its own reload without waiting for it",
        scripts: &[HASTY],
        end: "client\t0\n\
            1\tdone\n\
            2\ttree\tLiteral\t19-20\tInt\t-\n\
            end\n",
    },
    Case {
        name: "the same script for two clients",
        scripts: &[HASTY, HASTY],
        end: "client\t0\n\
            1\tdone\n\
            2\ttree\tLiteral\t19-20\tInt\t-\n\
            client\t1\n\
            1\tdone\n\
            2\ttree\tLiteral\t19-20\tInt\t-\n\
            end\n",
    },
    Case {
        name: "clients about files of their own",
        scripts: &[
            &[
                Line::Reload(Source::Words),
                Line::Wait(1),
                Line::Type(File::A, 15),
                Line::Wait(2),
                Line::Remove(File::A),
                Line::Type(File::A, 15),
            ],
            &[Line::Reload(Source::Longer), Line::Type(File::B, 30)],
            &[Line::Reload(Source::Empty), Line::Type(File::C, 0)],
        ],
        end: "client\t0\n\
            1\tdone\n\
            2\ttree\tValDef\t11-22\tString\tval A.x\n\
            3\tdone\n\
            4\tnounit\n\
            client\t1\n\
            1\tdone\n\
            2\ttree\tValDef\t24-33\tString\tval B.b\n\
            client\t2\n\
            1\tdone\n\
            2\ttree\tUnit\t0-0\t-\t-\n\
            end\n",
    },
    Case {
        name: "a text that is not read yet",
        scripts: &[&[
            Line::Reload(Source::Unread),
            Line::Structure(File::C),
            Line::Type(File::C, 0),
            Line::Structure(File::D),
        ]],
        end: "client\t0\n\
            1\tdone\n\
            2\tunread\n\
            3\tunread\n\
            4\tnounit\n\
            end\n",
    },
    Case {
        name: "a cancel that comes late",
        scripts: &[&[Line::Type(File::D, 0), Line::Wait(1), Line::Cancel(1)]],
        end: "journal\t3\n\
            0\taccept\t0\t0\t1\ttype D.scala 0\n\
            1\tsettle\t0\tdone\n\
            2\tclose\n\
            client\t0\n\
            1\tnounit\n\
            cancel\t1\tlate\t1\n\
            end\n",
    },
];

#[test]
fn clients_are_answered_the_same_in_every_run(rt: HostRuntime) -> Result<(), Fail> {
    agree_all(&rt, &ANSWERS, &NONE)
}

static SHUTDOWNS: [Case; 4] = [
    Case {
        name: "clients without lines",
        scripts: &[&[], &[]],
        end: "journal\t1\n0\tclose\nclient\t0\nclient\t1\nend\n",
    },
    Case {
        name: "a client that only shuts the session down",
        scripts: &[&[Line::Close]],
        end: "journal\t1\n0\tclose\nclient\t0\nclose\t0\nend\n",
    },
    Case {
        name: "calls behind a shutdown",
        scripts: &[&[
            Line::Close,
            Line::Reload(Source::Number),
            Line::Cancel(1),
            Line::Wait(1),
            Line::Close,
            Line::Type(File::A, 19),
        ]],
        end: "journal\t1\n\
            0\tclose\n\
            client\t0\n\
            close\t0\n\
            1\trefused\tclosed\t0\n\
            cancel\t1\tnone\n\
            close\t0\n\
            2\trefused\tclosed\t0\n\
            end\n",
    },
    Case {
        name: "a shutdown after an answer",
        scripts: &[&[
            Line::Structure(File::D),
            Line::Wait(1),
            Line::Close,
            Line::Structure(File::D),
        ]],
        end: "journal\t3\n\
            0\taccept\t0\t0\t1\tstructure D.scala\n\
            1\tsettle\t0\tdone\n\
            2\tclose\n\
            client\t0\n\
            1\tnounit\n\
            close\t2\n\
            2\trefused\tclosed\t2\n\
            end\n",
    },
];

#[test]
fn a_script_shuts_the_session_down(rt: HostRuntime) -> Result<(), Fail> {
    agree_all(&rt, &SHUTDOWNS, &NONE)
}

// Clients that race: two shut the session down, and one is cancelled, or is too late.
static RACES: [Case; 2] = [
    Case {
        name: "two shutdowns, and asks beside them",
        scripts: &[
            &[
                Line::Structure(File::A),
                Line::Close,
                Line::Structure(File::A),
            ],
            &[Line::Structure(File::A), Line::Close],
            &[
                Line::Structure(File::A),
                Line::Structure(File::A),
                Line::Wait(2),
            ],
        ],
        end: "end\n",
    },
    Case {
        name: "cancels at once, and reloads beside them",
        scripts: &[
            &[
                Line::Type(File::A, 0),
                Line::Cancel(1),
                Line::Reload(Source::Words),
                Line::Cancel(2),
                Line::Type(File::A, 19),
            ],
            &[
                Line::Reload(Source::Number),
                Line::Type(File::A, 19),
                Line::Cancel(2),
            ],
        ],
        end: "end\n",
    },
];

#[test]
fn clients_race(rt: HostRuntime) -> Result<(), Fail> {
    agree_all(&rt, &RACES, &NONE)
}

// Three files are loaded and checked while the clients wait.
static CHECKED: [Case; 1] = [Case {
    name: "checks between the calls of three clients",
    scripts: &[
        &[
            Line::Reload(Source::Number),
            Line::Wait(1),
            Line::Reload(Source::Unread),
            Line::Wait(2),
            Line::Structure(File::A),
            Line::Wait(3),
        ],
        &[
            Line::Reload(Source::Numbers),
            Line::Wait(1),
            Line::Structure(File::B),
        ],
        &[
            Line::Structure(File::D),
            Line::Wait(1),
            Line::Structure(File::D),
        ],
    ],
    end: "end\n",
}];

#[test]
fn the_reporter_is_told_of_the_checks(rt: HostRuntime) -> Result<(), Fail> {
    agree_all(&rt, &CHECKED, &NONE)
}

#[test]
fn a_report_that_fails_is_left_out(rt: HostRuntime) -> Result<(), Fail> {
    agree_all(
        &rt,
        &CHECKED,
        &Failing {
            reports: &[1, 3],
            ..NONE
        },
    )
}
