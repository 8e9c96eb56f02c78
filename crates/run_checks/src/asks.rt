//! Asks one after the other, and runs whose output fails.

use crate::cases::{A, Case, DONE, LITERAL, USAGE, agree};
use crate::contents::Content::Text;
use std::test::Fail;

const LITERAL_20: &str = "reload A.scala a.txt\ntype A.scala 20\n";

// The `x` at the end is 30-31.
const TWO_VALS: &str = "object A { val x = 1; val y = x }";

const LITERAL_PRINTED: &str = "journal\t4\n\
    0\taccept\t0\t0\t1\treload A.scala 22\n\
    1\tsettle\t0\tdone\n\
    2\taccept\t1\t0\t2\ttype A.scala 19\n\
    3\tsettle\t1\tdone\n\
    client\t0\n\
    1\tdone\n\
    2\ttree\tLiteral\t19-20\tInt\t-\n\
    end\n";

// The first half of its 153 bytes.
const HALF_PRINTED: &str = "journal\t4\n\
    0\taccept\t0\t0\t1\treload A.scala 22\n\
    1\tsettle\t0\tdone\n\
    2\taccept\t1\t0\t2\tty";

static TREES: [Case; 3] = [
    Case {
        name: "a literal at its start",
        files: &[("s", Text(LITERAL)), ("a.txt", Text(A))],
        out: LITERAL_PRINTED,
        ..DONE
    },
    Case {
        name: "a literal at its end, by a schedule with lines that are passed over and without a last LF",
        files: &[
            (
                "s",
                Text("# its end\n\nreload A.scala a.txt\ntype A.scala 20"),
            ),
            ("a.txt", Text(A)),
        ],
        out: "journal\t4\n\
            0\taccept\t0\t0\t1\treload A.scala 22\n\
            1\tsettle\t0\tdone\n\
            2\taccept\t1\t0\t2\ttype A.scala 20\n\
            3\tsettle\t1\tdone\n\
            client\t0\n\
            1\tdone\n\
            2\ttree\tLiteral\t19-20\tInt\t-\n\
            end\n",
        ..DONE
    },
    Case {
        name: "a definition, an offset past the end of the text, and an object",
        files: &[
            (
                "s",
                Text("reload A.scala a.txt\ntype A.scala 15\ntype A.scala 23\ntype A.scala 0\n"),
            ),
            ("a.txt", Text(A)),
        ],
        out: "journal\t8\n\
            0\taccept\t0\t0\t1\treload A.scala 22\n\
            1\tsettle\t0\tdone\n\
            2\taccept\t1\t0\t2\ttype A.scala 15\n\
            3\tsettle\t1\tdone\n\
            4\taccept\t2\t0\t3\ttype A.scala 23\n\
            5\tsettle\t2\tdone\n\
            6\taccept\t3\t0\t4\ttype A.scala 0\n\
            7\tsettle\t3\tdone\n\
            client\t0\n\
            1\tdone\n\
            2\ttree\tValDef\t11-20\tInt\tval A.x\n\
            3\tnotree\n\
            4\ttree\tObjectDef\t0-22\t-\tobject A\n\
            end\n",
        ..DONE
    },
];

#[test]
fn trees_are_printed(rt: HostRuntime) -> Result<(), Fail> {
    agree(&rt, &TREES)
}

static LOADED: [Case; 3] = [
    Case {
        name: "a schedule without lines",
        files: &[("s", Text(""))],
        out: "journal\t0\nclient\t0\nend\n",
        ..DONE
    },
    Case {
        name: "an empty text, and a file that was never loaded",
        files: &[
            (
                "s",
                Text("reload E.scala e.txt\ntype E.scala 0\ntype N.scala 0\n"),
            ),
            ("e.txt", Text("")),
        ],
        out: "journal\t6\n\
            0\taccept\t0\t0\t1\treload E.scala 0\n\
            1\tsettle\t0\tdone\n\
            2\taccept\t1\t0\t2\ttype E.scala 0\n\
            3\tsettle\t1\tdone\n\
            4\taccept\t2\t0\t3\ttype N.scala 0\n\
            5\tsettle\t2\tdone\n\
            client\t0\n\
            1\tdone\n\
            2\ttree\tUnit\t0-0\t-\t-\n\
            3\tnounit\n\
            end\n",
        ..DONE
    },
    Case {
        name: "a name, once a text with it is loaded",
        files: &[
            (
                "s",
                Text(
                    "reload A.scala a.txt\ntype A.scala 30\nreload A.scala two.txt\ntype A.scala 30\n",
                ),
            ),
            ("a.txt", Text(A)),
            ("two.txt", Text(TWO_VALS)),
        ],
        out: "journal\t8\n\
            0\taccept\t0\t0\t1\treload A.scala 22\n\
            1\tsettle\t0\tdone\n\
            2\taccept\t1\t0\t2\ttype A.scala 30\n\
            3\tsettle\t1\tdone\n\
            4\taccept\t2\t0\t3\treload A.scala 33\n\
            5\tsettle\t2\tdone\n\
            6\taccept\t3\t0\t4\ttype A.scala 30\n\
            7\tsettle\t3\tdone\n\
            client\t0\n\
            1\tdone\n\
            2\tnotree\n\
            3\tdone\n\
            4\ttree\tIdent\t30-31\tInt\tval A.x\n\
            end\n",
        ..DONE
    },
];

#[test]
fn asks_see_what_is_loaded(rt: HostRuntime) -> Result<(), Fail> {
    agree(&rt, &LOADED)
}

static BYTES_AND_REMOVALS: [Case; 2] = [
    Case {
        name: "a name with a letter of two bytes, which the engine does not read yet",
        files: &[
            ("s", Text(LITERAL_20)),
            ("a.txt", Text("object A { val \u{e9} = 1 }")),
        ],
        out: "journal\t4\n\
            0\taccept\t0\t0\t1\treload A.scala 23\n\
            1\tsettle\t0\tdone\n\
            2\taccept\t1\t0\t2\ttype A.scala 20\n\
            3\tsettle\t1\tdone\n\
            client\t0\n\
            1\tdone\n\
            2\tunread\n\
            end\n",
        ..DONE
    },
    Case {
        name: "a file that was taken out",
        files: &[
            (
                "s",
                Text("reload A.scala a.txt\nremove A.scala\ntype A.scala 0\n"),
            ),
            ("a.txt", Text(A)),
        ],
        out: "journal\t6\n\
            0\taccept\t0\t0\t1\treload A.scala 22\n\
            1\tsettle\t0\tdone\n\
            2\taccept\t1\t0\t2\tremove A.scala\n\
            3\tsettle\t1\tdone\n\
            4\taccept\t2\t0\t3\ttype A.scala 0\n\
            5\tsettle\t2\tdone\n\
            client\t0\n\
            1\tdone\n\
            2\tdone\n\
            3\tnounit\n\
            end\n",
        ..DONE
    },
];

#[test]
fn bytes_outside_ascii_and_removals(rt: HostRuntime) -> Result<(), Fail> {
    agree(&rt, &BYTES_AND_REMOVALS)
}

static FAILING_PUTS: [Case; 4] = [
    Case {
        name: "a put on the output fails",
        files: &[("s", Text(LITERAL)), ("a.txt", Text(A))],
        out_fails: true,
        status: 5,
        out: HALF_PRINTED,
        err: "write fault\n",
        ..DONE
    },
    Case {
        name: "a put on each sink fails",
        files: &[("s", Text(LITERAL)), ("a.txt", Text(A))],
        out_fails: true,
        err_fails: true,
        status: 5,
        out: HALF_PRINTED,
        err: "write ",
        ..DONE
    },
    Case {
        name: "a put of the usage fails",
        words: &[],
        err_fails: true,
        err: "usage: batch NAME... or step ",
        ..USAGE
    },
    Case {
        name: "nothing is put for the user",
        files: &[("s", Text(LITERAL)), ("a.txt", Text(A))],
        err_fails: true,
        out: LITERAL_PRINTED,
        ..DONE
    },
];

#[test]
fn a_put_fails(rt: HostRuntime) -> Result<(), Fail> {
    agree(&rt, &FAILING_PUTS)
}
