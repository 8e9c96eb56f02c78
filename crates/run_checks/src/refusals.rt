//! Runs that are refused, in the order of the reasons.

use crate::cases::{A, Case, DONE, USAGE, agree};
use crate::contents::Content::{Bytes, Spaces, Text};
use std::test::Fail;

static ARGUMENTS_SCHEDULES_AND_PATHS: [Case; 7] = [
    Case {
        name: "no words",
        words: &[],
        ..USAGE
    },
    Case {
        name: "a command without its schedule",
        words: &["step"],
        ..USAGE
    },
    Case {
        name: "an option where the schedule belongs",
        words: &["step", "-s"],
        ..USAGE
    },
    Case {
        name: "a word too many",
        words: &["step", "s", "s"],
        ..USAGE
    },
    Case {
        name: "no schedule at its path",
        files: &[],
        status: 3,
        err: "read fault: s\n",
        ..DONE
    },
    Case {
        name: "no source at the second path",
        files: &[
            ("s", Text("reload A.scala a.txt\nreload B.scala b.txt\n")),
            ("a.txt", Text(A)),
        ],
        status: 3,
        err: "read fault: b.txt\n",
        ..DONE
    },
    Case {
        name: "a second line that lacks its offset",
        files: &[
            ("s", Text("reload A.scala a.txt\ntype A.scala\n")),
            ("a.txt", Text(A)),
        ],
        status: 4,
        err: "bad script: s line 2\n",
        ..DONE
    },
];

#[test]
fn arguments_schedules_and_paths_are_refused(rt: HostRuntime) -> Result<(), Fail> {
    agree(&rt, &ARGUMENTS_SCHEDULES_AND_PATHS)
}

const TWO: &str = "reload A.scala a.txt\nreload B.scala b.txt\n";

static FIRST_REASONS: [Case; 5] = [
    Case {
        name: "a schedule that is no text",
        files: &[("s", Bytes(&[0x6F, 0xFF]))],
        status: 9,
        err: "not UTF-8: s byte 1\n",
        ..DONE
    },
    Case {
        name: "a bad line before a source that is missing",
        files: &[("s", Text("reload A.scala a.txt\nopen\n"))],
        status: 4,
        err: "bad script: s line 2\n",
        ..DONE
    },
    Case {
        name: "a source that is no text before one that is missing",
        files: &[("s", Text(TWO)), ("a.txt", Bytes(&[0x6F, 0xFF]))],
        status: 9,
        err: "not UTF-8: a.txt byte 1\n",
        ..DONE
    },
    Case {
        name: "a source above its limit before one that is missing",
        files: &[("s", Text(TWO)), ("a.txt", Spaces(262_145))],
        status: 8,
        err: "limit FileBytes 262145\n",
        ..DONE
    },
    Case {
        name: "a source that is missing before one that is no text",
        files: &[("s", Text(TWO)), ("b.txt", Bytes(&[0x6F, 0xFF]))],
        status: 3,
        err: "read fault: a.txt\n",
        ..DONE
    },
];

#[test]
fn the_first_reason_is_told(rt: HostRuntime) -> Result<(), Fail> {
    agree(&rt, &FIRST_REASONS)
}
