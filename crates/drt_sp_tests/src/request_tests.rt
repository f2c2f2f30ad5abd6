//! Labels that were worked by hand.
ghost use Rattle.std.specs.Prelude.{◌≡◌, ◌≤◌, ◌<◌, length, IsTrue};

use crate::worked_trees::has_values;
use drt_label::Label;
use drt_request::RequestLabel;
use std::alloc::{AllocError as Memory, Global};
use std::test::Fail;

fn is_better(own: &RequestLabel, other: &RequestLabel) -> bool {
    own.steps().bound() == other.steps().bound() && own.dominates(other)
}

// Whether a label of a walk to vertex 3 by 4 ticks has these values.
fn is_at_three(label: &RequestLabel, values: &[u64]) -> bool {
    has_values(label.steps(), values) && label.vertex() == 3 && label.offset() == 4
}

#[test]
fn a_release_counts_just_after_its_offset(rt: HostRuntime) -> Result<(), Fail> {
    let alloc = rt.alloc();
    let label = RequestLabel::opening(alloc, 1, 2, 5)?.extend(alloc, 4, 3, 7)?;
    assert!(rt; is_at_three(&label, &[2, 2, 2, 2, 9]) && label.in_range(1000000, 5));
    Ok(())
}

// The label of a job of a vertex, and of one of vertex 1 so many ticks later, up to 4 ticks.
fn come_again(alloc: Global, vertex: u32, sep: u32) -> Result<RequestLabel, Memory>
    requires some { 1 ≤ sep }
    requires few { sep ≤ 1000 }
{
    RequestLabel::opening(alloc, vertex, 3, 4)?.extend(alloc, sep, 1, 2)
}

// Whether the first of two labels is better, and not the second.
fn is_first_better(first: &RequestLabel, second: &RequestLabel) -> bool {
    is_better(first, second) && !is_better(second, first)
}

#[test]
fn of_equal_functions_the_earlier_walk_stands_for_both(rt: HostRuntime) -> Result<(), Fail> {
    let alloc = rt.alloc();
    let early = come_again(alloc, 0, 4)?;
    let late = come_again(alloc, 2, 5)?;
    assert!(rt; is_first_better(&early, &late));
    Ok(())
}
