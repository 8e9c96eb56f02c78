//! Runs that come to no session, or to one that is not printed whole.

use crate::contents::{Content, add};
use crate::runs::{Failing, Left, NONE, files_of, run, words_of};
use crate::steps::Step;
use pc_terms::NoMemory;
use std::alloc::Global;
use std::process::Abort;
use std::sync::Wait;
use std::test::Fail;
use std::thread::Threads;

/// A run, and what it must come to. The texts are at their paths.
#[derive(Clone, Copy)]
struct Case {
    name: &'static str,
    words: &'static [&'static str],
    files: &'static [(&'static str, Content)],
    failing: Failing,
    status: u8,
    out: &'static str,
    err: &'static str,
    steps: &'static [Step],
}

const SCRIPT: Content = Content::Text("reload A.scala number.txt\n");

const OTHER: Content = Content::Text("wait 1\n");

const CLOSE: Content = Content::Text("close\n");

/// A run of two clients that is refused.
const REFUSED: Case = Case {
    name: "",
    words: &["replay", "s", "t"],
    files: &[],
    failing: NONE,
    status: 0,
    out: "",
    err: "",
    steps: &[],
};

const USAGE: Case = Case {
    files: &[("s", SCRIPT)],
    status: 2,
    err: "usage: batch NAME... or step SCHEDULE or replay CLIENT...\n",
    ..REFUSED
};

const READ_FAULT: Case = Case {
    status: 3,
    ..REFUSED
};

const BAD_SCRIPT: Case = Case {
    status: 4,
    ..REFUSED
};

const LIMIT: Case = Case {
    status: 8,
    ..REFUSED
};

const NOT_UTF8: Case = Case {
    status: 9,
    ..REFUSED
};

/// Two clients of which one reloads a text, and the other another.
const READING: Case = Case {
    files: &[
        ("s", SCRIPT),
        (
            "t",
            Content::Text("reload B.scala longer.txt\nreload B.scala number.txt\n"),
        ),
    ],
    ..READ_FAULT
};

/// A run whose session is shut down at once.
const CLOSING: Case = Case {
    words: &["replay", "s"],
    files: &[("s", CLOSE)],
    out: "journal\t1\n0\tclose\nclient\t0\nclose\t0\nend\n",
    steps: &[Step::Close],
    ..REFUSED
};

fn run_case<R: Threads + Wait + Sync>(
    rt: &R,
    alloc: Global,
    case: &Case,
) -> Result<Left, NoMemory> {
    let words = words_of(alloc, case.words)?;
    let mut files = files_of(alloc, &case.failing)?;
    add(alloc, &mut files, case.files)?;
    run(rt, alloc, &words, &mut files, &case.failing)
}

fn agree<R: Abort + AllocGlobal + Threads + Wait + Sync>(
    rt: &R,
    cases: &[Case],
) -> Result<(), Fail> {
    for case in cases {
        let left = run_case(rt, rt.alloc(), case)?;
        let name = case.name;
        assert_eq!(rt; left.status, case.status, "{name}");
        assert_eq!(rt; left.err.bytes(), case.err.as_bytes(), "{name}");
        assert_eq!(rt; left.out.bytes(), case.out.as_bytes(), "{name}");
        assert_eq!(rt; left.steps.as_slice(), case.steps, "{name}");
    }
    Ok(())
}

static WORDS: [Case; 6] = [
    Case {
        name: "no words",
        words: &[],
        ..USAGE
    },
    Case {
        name: "no client",
        words: &["replay"],
        ..USAGE
    },
    Case {
        name: "an option where a client belongs",
        words: &["replay", "s", "-s"],
        ..USAGE
    },
    Case {
        name: "an empty word",
        words: &["replay", "", "s"],
        ..USAGE
    },
    Case {
        name: "a word that may be no path",
        words: &["replay", "<s"],
        ..USAGE
    },
    Case {
        name: "a run on one thread",
        words: &["step", "s"],
        ..USAGE
    },
];

#[test]
fn words_that_are_no_command_are_refused(rt: HostRuntime) -> Result<(), Fail> {
    agree(&rt, &WORDS)
}

// None of the 33 scripts is there.
const TOO_MANY: &[&str] = &[
    "replay", "s", "s", "s", "s", "s", "s", "s", "s", "s", "s", "s", "s", "s", "s", "s", "s", "s",
    "s", "s", "s", "s", "s", "s", "s", "s", "s", "s", "s", "s", "s", "s", "s", "s",
];

static LIMITS: [Case; 3] = [
    Case {
        name: "one client too many",
        words: TOO_MANY,
        err: "limit Clients 33\n",
        ..LIMIT
    },
    Case {
        name: "calls of three clients, counted together",
        words: &["replay", "s", "s", "s"],
        files: &[("s", Content::Asks(21_846))],
        err: "limit Calls 65538\n",
        ..LIMIT
    },
    Case {
        name: "a source above its limit",
        files: &[
            ("s", Content::Text("reload A.scala large.txt\n")),
            ("t", OTHER_ASK),
            ("large.txt", Content::Spaces(262_145)),
        ],
        err: "limit FileBytes 262145\n",
        ..LIMIT
    },
];

const OTHER_ASK: Content = Content::Text("typed A.scala\n");

#[test]
fn numbers_above_their_limits_are_refused(rt: HostRuntime) -> Result<(), Fail> {
    agree(&rt, &LIMITS)
}

static READS: [Case; 6] = [
    Case {
        name: "the first script",
        failing: Failing {
            reads: &[1],
            ..NONE
        },
        err: "read fault: s\n",
        ..READING
    },
    Case {
        name: "the second script",
        failing: Failing {
            reads: &[2],
            ..NONE
        },
        err: "read fault: t\n",
        ..READING
    },
    Case {
        name: "the first source",
        failing: Failing {
            reads: &[3],
            ..NONE
        },
        err: "read fault: number.txt\n",
        ..READING
    },
    Case {
        name: "the second source",
        failing: Failing {
            reads: &[4],
            ..NONE
        },
        err: "read fault: longer.txt\n",
        ..READING
    },
    Case {
        name: "a script that is not found",
        files: &[("s", SCRIPT)],
        err: "read fault: t\n",
        ..READ_FAULT
    },
    Case {
        name: "a source that is not found, of the second script",
        files: &[
            ("s", SCRIPT),
            ("t", Content::Text("reload A.scala none.txt\n")),
        ],
        err: "read fault: none.txt\n",
        ..READ_FAULT
    },
];

#[test]
fn a_read_that_fails_is_told(rt: HostRuntime) -> Result<(), Fail> {
    agree(&rt, &READS)
}

static SCRIPTS: [Case; 6] = [
    Case {
        name: "a wait for a call that does not stand above it",
        files: &[("s", SCRIPT), ("t", OTHER)],
        err: "bad script: t line 1\n",
        ..BAD_SCRIPT
    },
    Case {
        name: "a line of a schedule",
        files: &[("s", Content::Text("# first\nidle\n")), ("t", SCRIPT)],
        err: "bad script: s line 2\n",
        ..BAD_SCRIPT
    },
    Case {
        name: "an inner line",
        files: &[
            ("s", Content::Text("typed A\n  @0 typed A\n")),
            ("t", SCRIPT),
        ],
        err: "bad script: s line 2\n",
        ..BAD_SCRIPT
    },
    Case {
        name: "a second cancel of one call, in the first of two bad scripts",
        files: &[
            ("s", Content::Text("typed A\ncancel 1\ncancel 1\n")),
            ("t", Content::Text("open\n")),
        ],
        err: "bad script: s line 3\n",
        ..BAD_SCRIPT
    },
    Case {
        name: "a script that is no text, behind a bad one",
        files: &[
            ("s", Content::Text("open\n")),
            ("t", Content::Bytes(&[0x63, 0xE9, 0x0A])),
        ],
        err: "not UTF-8: t byte 1\n",
        ..NOT_UTF8
    },
    Case {
        name: "a source that is no text",
        files: &[
            ("s", Content::Text("reload A.scala bytes\n")),
            ("t", CLOSE),
            ("bytes", Content::Bytes(&[0x6F, 0xFF])),
        ],
        err: "not UTF-8: bytes byte 1\n",
        ..NOT_UTF8
    },
];

#[test]
fn scripts_outside_the_grammar_are_refused(rt: HostRuntime) -> Result<(), Fail> {
    agree(&rt, &SCRIPTS)
}

static FORMS: [Case; 6] = [
    Case {
        name: "no thread can be started",
        failing: Failing {
            threads: &[1],
            ..NONE
        },
        status: 6,
        out: "",
        err: "spawn fault\n",
        ..CLOSING
    },
    Case {
        name: "none could be started the second time",
        failing: Failing {
            threads: &[2],
            ..NONE
        },
        ..CLOSING
    },
    // The first 19 of its 39 bytes.
    Case {
        name: "the first put fails",
        failing: Failing { puts: &[1], ..NONE },
        status: 5,
        out: "journal\t1\n0\tclose\nc",
        err: "write fault\n",
        ..CLOSING
    },
    Case {
        name: "a second put would fail",
        failing: Failing { puts: &[2], ..NONE },
        ..CLOSING
    },
    Case {
        name: "a second read would fail",
        failing: Failing {
            reads: &[2],
            ..NONE
        },
        ..CLOSING
    },
    Case {
        name: "no thread can be started for a client that has calls",
        files: &[("s", SCRIPT)],
        failing: Failing {
            threads: &[1],
            ..NONE
        },
        status: 6,
        out: "",
        err: "spawn fault\n",
        ..CLOSING
    },
];

#[test]
fn threads_and_puts_fail(rt: HostRuntime) -> Result<(), Fail> {
    agree(&rt, &FORMS)
}
