//! Which files a run reads, and runs of which a read fails.

use crate::cases::{Case, DONE, agree, reads};
use crate::contents::Content::Text;
use std::test::Fail;

const SCHEDULE: &str = "reload A.scala a.txt B.scala b.txt\n\
    reload A.scala a.txt\n\
    type A.scala 0\n\
    \x20 @0 reload B.scala a.txt C.scala b.txt\n";

const PRINTED: &str = "journal\t8\n\
    0\taccept\t0\t0\t1\treload A.scala 0 B.scala 22\n\
    1\tsettle\t0\tdone\n\
    2\taccept\t1\t0\t2\treload A.scala 0\n\
    3\tsettle\t1\tdone\n\
    4\taccept\t2\t0\t3\ttype A.scala 0\n\
    5\taccept\t3\t0\t4\treload B.scala 0 C.scala 22\n\
    6\tsettle\t3\tdone\n\
    7\tsettle\t2\tdone\n\
    client\t0\n\
    1\tdone\n\
    2\tdone\n\
    3\ttree\tUnit\t0-0\t-\t-\n\
    4\tdone\n\
    end\n";

const LOADING: Case = Case {
    files: &[
        ("s", Text(SCHEDULE)),
        ("a.txt", Text("")),
        ("b.txt", Text("object B { val x = 1 }")),
    ],
    ..DONE
};

static SEVERAL_LINES: Case = Case {
    name: "paths that several lines name",
    out: PRINTED,
    ..LOADING
};

#[test]
fn each_file_is_read_once(rt: HostRuntime) -> Result<(), Fail> {
    let reads = reads(rt.alloc(), &SEVERAL_LINES)?;
    let reads = reads.as_slice();
    assert_eq!(rt; reads.len(), 3);
    assert_eq!(rt; reads[0].as_str(), "s");
    assert_eq!(rt; reads[1].as_str(), "a.txt");
    assert_eq!(rt; reads[2].as_str(), "b.txt");
    Ok(())
}

static FAILING_READS: [Case; 4] = [
    Case {
        name: "a fourth read fails",
        failing: &[4],
        out: PRINTED,
        ..LOADING
    },
    Case {
        name: "the third read fails",
        failing: &[3],
        status: 3,
        err: "read fault: b.txt\n",
        ..LOADING
    },
    Case {
        name: "the second read fails",
        failing: &[2],
        status: 3,
        err: "read fault: a.txt\n",
        ..LOADING
    },
    Case {
        name: "the first read fails",
        failing: &[1],
        status: 3,
        err: "read fault: s\n",
        ..LOADING
    },
];

#[test]
fn a_read_fails(rt: HostRuntime) -> Result<(), Fail> {
    agree(&rt, &FAILING_READS)
}
