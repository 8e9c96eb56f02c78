//! What became of each line of a client.

use super::found::Found;
use super::sessions::{A, Asked, Happened, Pair, Session, Wanted, agree};
use std::test::Fail;

static CANCEL_INSIDE: Session = Session {
    scripts: &[&[Wanted::Call, Wanted::Call, Wanted::Cancel(2)]],
    events: &[
        Happened::Accept(0, 0, 1, Asked::Reload(&[Pair("A.scala", A)])),
        Happened::Done(0),
        Happened::Accept(1, 0, 2, Asked::TypeAt("A.scala", 19)),
        Happened::Cancel(1),
        Happened::Done(1),
    ],
    answers: &[&[Found::Done, Found::Cancelled]],
    problems: &[],
};

#[test]
fn a_cancel_inside_its_ask_is_marked(rt: HostRuntime) -> Result<(), Fail> {
    agree(
        &rt,
        &CANCEL_INSIDE,
        "journal\t5\n\
        0\taccept\t0\t0\t1\treload A.scala 22\n\
        1\tsettle\t0\tdone\n\
        2\taccept\t1\t0\t2\ttype A.scala 19\n\
        3\tcancel\t1\n\
        4\tsettle\t1\tdone\n\
        client\t0\n\
        1\tdone\n\
        2\tcancelled\n\
        cancel\t2\tmarked\t3\n\
        end\n",
    )
}

static CANCELS_AFTER: Session = Session {
    scripts: &[&[Wanted::Call, Wanted::Cancel(1), Wanted::Cancel(2)]],
    events: &[
        Happened::Accept(0, 0, 1, Asked::TypeAt("A.scala", 19)),
        Happened::Done(0),
    ],
    answers: &[&[Found::NoUnit]],
    problems: &[],
};

#[test]
fn a_cancel_after_its_ask_is_late_and_of_no_call_none(rt: HostRuntime) -> Result<(), Fail> {
    agree(
        &rt,
        &CANCELS_AFTER,
        "journal\t2\n\
        0\taccept\t0\t0\t1\ttype A.scala 19\n\
        1\tsettle\t0\tdone\n\
        client\t0\n\
        1\tnounit\n\
        cancel\t1\tlate\t1\n\
        cancel\t2\tnone\n\
        end\n",
    )
}

static SHUTDOWN: Session = Session {
    scripts: &[&[
        Wanted::Call,
        Wanted::Call,
        Wanted::Call,
        Wanted::Call,
        Wanted::Close,
        Wanted::Call,
        Wanted::Idle,
        Wanted::Wait(5),
    ]],
    events: &[
        Happened::Accept(0, 0, 1, Asked::Reload(&[Pair("A.scala", A)])),
        Happened::Done(0),
        Happened::Accept(1, 0, 2, Asked::TypeAt("A.scala", 19)),
        Happened::Accept(2, 0, 3, Asked::TypeAt("A.scala", 15)),
        Happened::Accept(3, 0, 4, Asked::TypeAt("A.scala", 20)),
        Happened::Close,
        Happened::Done(1),
        Happened::Done(2),
        Happened::Done(3),
    ],
    answers: &[&[Found::Done, Found::Closed, Found::Closed, Found::Closed]],
    problems: &[],
};

#[test]
fn a_shutdown_in_the_innermost_ask_answers_all(rt: HostRuntime) -> Result<(), Fail> {
    agree(
        &rt,
        &SHUTDOWN,
        "journal\t9\n\
        0\taccept\t0\t0\t1\treload A.scala 22\n\
        1\tsettle\t0\tdone\n\
        2\taccept\t1\t0\t2\ttype A.scala 19\n\
        3\taccept\t2\t0\t3\ttype A.scala 15\n\
        4\taccept\t3\t0\t4\ttype A.scala 20\n\
        5\tclose\n\
        6\tsettle\t1\tdone\n\
        7\tsettle\t2\tdone\n\
        8\tsettle\t3\tdone\n\
        client\t0\n\
        1\tdone\n\
        2\tclosed\n\
        3\tclosed\n\
        4\tclosed\n\
        close\t5\n\
        5\trefused\tclosed\t5\n\
        end\n",
    )
}

static WITHOUT_ENDS: Session = Session {
    scripts: &[&[Wanted::Call, Wanted::Call, Wanted::Call, Wanted::Close]],
    events: &[
        Happened::Accept(0, 0, 1, Asked::TypeAt("A.scala", 19)),
        Happened::Accept(1, 0, 2, Asked::TypeAt("A.scala", 20)),
        Happened::NoMemory(1),
    ],
    answers: &[&[Found::NoMemory]],
    problems: &[],
};

#[test]
fn a_call_without_its_end_and_a_line_without_a_shutdown_print_nothing(
    rt: HostRuntime,
) -> Result<(), Fail> {
    agree(
        &rt,
        &WITHOUT_ENDS,
        "journal\t3\n\
        0\taccept\t0\t0\t1\ttype A.scala 19\n\
        1\taccept\t1\t0\t2\ttype A.scala 20\n\
        2\tsettle\t1\tnomemory\n\
        client\t0\n\
        2\tnomemory\n\
        end\n",
    )
}

static CLIENTS: Session = Session {
    scripts: &[
        &[Wanted::Call, Wanted::Call],
        &[Wanted::Call, Wanted::Cancel(1)],
        &[],
    ],
    events: &[
        Happened::Accept(0, 0, 1, Asked::Reload(&[Pair("A.scala", A)])),
        Happened::Done(0),
        Happened::Accept(1, 1, 1, Asked::TypeAt("A.scala", 19)),
        Happened::Accept(2, 0, 2, Asked::TypeAt("A.scala", 23)),
        Happened::Cancel(1),
        Happened::Done(2),
        Happened::Done(1),
    ],
    answers: &[&[Found::Done, Found::NoTree], &[Found::Cancelled]],
    problems: &[],
};

#[test]
fn each_client_has_its_own_answers(rt: HostRuntime) -> Result<(), Fail> {
    agree(
        &rt,
        &CLIENTS,
        "journal\t7\n\
        0\taccept\t0\t0\t1\treload A.scala 22\n\
        1\tsettle\t0\tdone\n\
        2\taccept\t1\t1\t1\ttype A.scala 19\n\
        3\taccept\t2\t0\t2\ttype A.scala 23\n\
        4\tcancel\t1\n\
        5\tsettle\t2\tdone\n\
        6\tsettle\t1\tdone\n\
        client\t0\n\
        1\tdone\n\
        2\tnotree\n\
        client\t1\n\
        1\tcancelled\n\
        cancel\t1\tmarked\t4\n\
        client\t2\n\
        end\n",
    )
}
