use ask_history::Answer;
use response_cell::Cells;
use std::test::Fail;

// A post covers its ticket; the call's settling sets its cell, and one receive takes it.
#[test]
fn an_answer_is_taken_once(rt: HostRuntime) -> Result<(), Fail> {
    let mut cells = Cells::new(rt.alloc())?;
    assert!(rt; cells.take(0).is_none());
    cells.cover(1)?;
    assert!(rt; cells.take(1).is_none());
    cells.set(1, Answer::NoLink);
    cells.cover(2)?;
    assert!(rt; matches!(cells.take(1), Some(Answer::NoLink)));
    assert!(rt; cells.take(1).is_none());
    assert!(rt; cells.take(2).is_none());
    Ok(())
}
