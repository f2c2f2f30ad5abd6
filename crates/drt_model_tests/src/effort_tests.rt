use drt_effort::Effort;
use std::test::Fail;

// The workers and the budget of an effort.
fn numbers(effort: Effort) -> (u32, u64) {
    (effort.workers(), effort.budget())
}

#[test]
fn an_effort_is_cut_and_made_one_workers(rt: HostRuntime) -> Result<(), Fail> {
    let effort = Effort::new(4, 10);
    assert_eq!(rt; numbers(effort.at_most(3)), (4, 3));
    assert_eq!(rt; numbers(effort.at_most(10)), (4, 10));
    assert_eq!(rt; numbers(effort.at_most(11)), (4, 10));
    assert_eq!(rt; numbers(effort.alone()), (1, 10));
    Ok(())
}
