//! Inner lines, cancels, the shutdown and checks.

use crate::cases::{A, A2, Case, DONE, agree};
use crate::contents::Content::Text;
use std::test::Fail;

// 33 bytes, all of which the engine reads.
const THIN_B: &str = "object B { val a = 1; val b = a }";

static CANCELS: [Case; 2] = [
    Case {
        name: "a cancel while the ask is open",
        files: &[
            (
                "s",
                Text("reload A.scala a.txt\ntype A.scala 19\n  @9 cancel 2\n"),
            ),
            ("a.txt", Text(A)),
        ],
        out: "journal\t5\n\
            0\taccept\t0\t0\t1\treload A.scala 22\n\
            1\tsettle\t0\tdone\n\
            2\taccept\t1\t0\t2\ttype A.scala 19\n\
            3\tcancel\t1\n\
            4\tsettle\t1\tdone\n\
            client\t0\n\
            1\tdone\n\
            2\tcancelled\n\
            cancel\t2\tmarked\t3\n\
            end\n",
        ..DONE
    },
    Case {
        name: "a cancel after the ask",
        files: &[
            (
                "s",
                Text("reload A.scala a.txt\ntype A.scala 19\ncancel 2\n"),
            ),
            ("a.txt", Text(A)),
        ],
        out: "journal\t4\n\
            0\taccept\t0\t0\t1\treload A.scala 22\n\
            1\tsettle\t0\tdone\n\
            2\taccept\t1\t0\t2\ttype A.scala 19\n\
            3\tsettle\t1\tdone\n\
            client\t0\n\
            1\tdone\n\
            2\ttree\tLiteral\t19-20\tInt\t-\n\
            cancel\t2\tlate\t3\n\
            end\n",
        ..DONE
    },
];

#[test]
fn asks_are_cancelled(rt: HostRuntime) -> Result<(), Fail> {
    agree(&rt, &CANCELS)
}

static SHUTDOWN: [Case; 1] = [Case {
    name: "a shutdown inside three asks",
    files: &[
        (
            "s",
            Text(
                "reload A.scala a.txt\n\
                type A.scala 19\n  @0 type A.scala 15\n    @0 type A.scala 20\n      @0 close\n\
                type A.scala 19\n",
            ),
        ),
        ("a.txt", Text(A)),
    ],
    out: "journal\t9\n\
            0\taccept\t0\t0\t1\treload A.scala 22\n\
            1\tsettle\t0\tdone\n\
            2\taccept\t1\t0\t2\ttype A.scala 19\n\
            3\taccept\t2\t0\t3\ttype A.scala 15\n\
            4\taccept\t3\t0\t4\ttype A.scala 20\n\
            5\tclose\n\
            6\tsettle\t1\tdone\n\
            7\tsettle\t2\tdone\n\
            8\tsettle\t3\tdone\n\
            client\t0\n\
            1\tdone\n\
            2\tclosed\n\
            3\tclosed\n\
            4\tclosed\n\
            close\t5\n\
            5\trefused\tclosed\t5\n\
            end\n",
    ..DONE
}];

#[test]
fn a_shutdown_settles_what_is_open(rt: HostRuntime) -> Result<(), Fail> {
    agree(&rt, &SHUTDOWN)
}

static INNER_LINES: [Case; 1] = [Case {
    name: "a removal and a reload inside an ask",
    files: &[
        (
            "s",
            Text(
                "reload A.scala a.txt\n\
                type A.scala 19\n  @0 remove A.scala\n  @0 reload A.scala a2.txt\n",
            ),
        ),
        ("a.txt", Text(A)),
        ("a2.txt", Text(A2)),
    ],
    out: "journal\t8\n\
            0\taccept\t0\t0\t1\treload A.scala 22\n\
            1\tsettle\t0\tdone\n\
            2\taccept\t1\t0\t2\ttype A.scala 19\n\
            3\taccept\t2\t0\t3\tremove A.scala\n\
            4\tsettle\t2\tdone\n\
            5\taccept\t3\t0\t4\treload A.scala 24\n\
            6\tsettle\t3\tdone\n\
            7\tsettle\t1\tdone\n\
            client\t0\n\
            1\tdone\n\
            2\ttree\tLiteral\t19-22\tString\t-\n\
            3\tdone\n\
            4\tdone\n\
            end\n",
    ..DONE
}];

#[test]
fn inner_lines_keep_their_order(rt: HostRuntime) -> Result<(), Fail> {
    agree(&rt, &INNER_LINES)
}

static CHECKS: [Case; 2] = [
    Case {
        name: "one check, and then nothing is due",
        files: &[
            ("s", Text("reload A.scala a.txt\nidle\nidle\n")),
            ("a.txt", Text(A)),
        ],
        out: "journal\t3\n\
            0\taccept\t0\t0\t1\treload A.scala 22\n\
            1\tsettle\t0\tdone\n\
            2\tchecked\tA.scala\t0\n\
            client\t0\n\
            1\tdone\n\
            end\n",
        told: 1,
        ..DONE
    },
    Case {
        name: "a reload inside the second check",
        files: &[
            (
                "s",
                Text("reload A.scala a.txt B.scala b.txt\nidle\n  @1.0 reload A.scala a2.txt\n"),
            ),
            ("a.txt", Text(A)),
            ("b.txt", Text(THIN_B)),
            ("a2.txt", Text(A2)),
        ],
        out: "journal\t7\n\
            0\taccept\t0\t0\t1\treload A.scala 22 B.scala 33\n\
            1\tsettle\t0\tdone\n\
            2\tchecked\tA.scala\t0\n\
            3\taccept\t1\t0\t2\treload A.scala 24\n\
            4\tsettle\t1\tdone\n\
            5\tchecked\tA.scala\t0\n\
            6\tchecked\tB.scala\t0\n\
            client\t0\n\
            1\tdone\n\
            2\tdone\n\
            end\n",
        told: 112,
        ..DONE
    },
];

#[test]
fn checks_are_made_and_told(rt: HostRuntime) -> Result<(), Fail> {
    agree(&rt, &CHECKS)
}
