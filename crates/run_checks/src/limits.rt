//! Each limit, at its number and one above it.

use crate::cases::{ANYTHING, Case, DONE, agree};
use crate::contents::Content::{AsksAndNames, Comment, Names, Spaces, Text};
use std::test::Fail;

const FILE_BYTES: usize = 262_144;

const SCRIPT_BYTES: usize = 4_194_304;

const TAKEN: Case = Case {
    out: ANYTHING,
    ..DONE
};

const PASSED: Case = Case { status: 8, ..DONE };

static FILES_AND_SCRIPTS: [Case; 4] = [
    Case {
        name: "a source at its limit",
        files: &[
            ("one.txt", Text(" ")),
            ("s", Names(1, "")),
            ("a.txt", Spaces(FILE_BYTES)),
        ],
        ..TAKEN
    },
    Case {
        name: "a source above its limit",
        files: &[
            ("one.txt", Text(" ")),
            ("s", Names(1, "")),
            ("a.txt", Spaces(FILE_BYTES + 1)),
        ],
        err: "limit FileBytes 262145\n",
        ..PASSED
    },
    Case {
        name: "a schedule at its limit",
        files: &[("one.txt", Text(" ")), ("s", Comment(SCRIPT_BYTES))],
        ..TAKEN
    },
    Case {
        name: "a schedule above its limit",
        files: &[("one.txt", Text(" ")), ("s", Comment(SCRIPT_BYTES + 1))],
        err: "limit ScriptBytes 4194305\n",
        ..PASSED
    },
];

#[test]
fn files_and_scripts(rt: HostRuntime) -> Result<(), Fail> {
    agree(&rt, &FILES_AND_SCRIPTS)
}

// With one call more there are as many as may be, but it has a name too many. So Calls is not passed there.
static CALLS: [Case; 2] = [
    Case {
        name: "calls at their limit",
        files: &[
            ("one.txt", Text(" ")),
            ("s", AsksAndNames(65_535, 1_025)),
            ("a.txt", Text("")),
        ],
        err: "limit Names 1025\n",
        ..PASSED
    },
    Case {
        name: "calls above their limit",
        files: &[
            ("one.txt", Text(" ")),
            ("s", AsksAndNames(65_536, 1_025)),
            ("a.txt", Text("")),
        ],
        err: "limit Calls 65537\n",
        ..PASSED
    },
];

#[test]
fn calls(rt: HostRuntime) -> Result<(), Fail> {
    agree(&rt, &CALLS)
}

// The texts of 1,024 names of the largest file are as many bytes as there may be, and as many names, but too many bytes
// for the longest texts together. So neither Text nor Names is passed there.
static TEXTS_NAMES_AND_THE_MAP: [Case; 6] = [
    Case {
        name: "texts and names at their limits",
        files: &[
            ("one.txt", Text(" ")),
            ("s", Names(1_024, "")),
            ("a.txt", Spaces(FILE_BYTES)),
        ],
        err: "limit Map 268435456\n",
        ..PASSED
    },
    Case {
        name: "texts above their limit",
        files: &[
            ("one.txt", Text(" ")),
            ("s", Names(1_024, "reload N0 one.txt\n")),
            ("a.txt", Spaces(FILE_BYTES)),
        ],
        err: "limit Text 268435457\n",
        ..PASSED
    },
    Case {
        name: "names above their limit",
        files: &[
            ("one.txt", Text(" ")),
            ("s", Names(1_025, "")),
            ("a.txt", Text("")),
        ],
        err: "limit Names 1025\n",
        ..PASSED
    },
    Case {
        name: "names at their limit, one of which is reloaded again",
        files: &[
            ("one.txt", Text(" ")),
            ("s", Names(1_024, "reload N0 one.txt\n")),
            ("a.txt", Text("")),
        ],
        ..TAKEN
    },
    Case {
        name: "the longest texts of all names at their limit",
        files: &[
            ("one.txt", Text(" ")),
            ("s", Names(64, "reload N0 one.txt\n")),
            ("a.txt", Spaces(FILE_BYTES)),
        ],
        ..TAKEN
    },
    Case {
        name: "the longest texts of all names above their limit",
        files: &[
            ("one.txt", Text(" ")),
            ("s", Names(64, "reload M one.txt\n")),
            ("a.txt", Spaces(FILE_BYTES)),
        ],
        err: "limit Map 16777217\n",
        ..PASSED
    },
];

#[test]
fn texts_names_and_the_map(rt: HostRuntime) -> Result<(), Fail> {
    agree(&rt, &TEXTS_NAMES_AND_THE_MAP)
}
