use safe_points::Stack;
use std::test::Fail;

// An ask waits below another one; a reload makes both start again.
#[test]
fn a_stack_of_asks(rt: HostRuntime) -> Result<(), Fail> {
    let mut stack = Stack::new(rt.alloc())?;
    assert_eq!(rt; stack.top(), None);
    stack.push(4, 40)?;
    stack.push(7, 70)?;
    assert_eq!(rt; stack.top(), Some(7));
    assert!(rt; !stack.is_stale(4));

    stack.stale_all();
    assert!(rt; stack.is_stale(4) && stack.is_stale(7));
    stack.refresh_top();
    assert!(rt; stack.is_stale(4) && !stack.is_stale(7));
    *stack.top_task() += 1;

    assert_eq!(rt; stack.remove(4), Some(40));
    assert_eq!(rt; stack.remove(4), None);
    assert_eq!(rt; stack.remove(7), Some(71));
    assert_eq!(rt; stack.top(), None);
    Ok(())
}
