//! The sweep over the times at which works are due, in order.
ghost use Rattle.std.specs.Prelude.{◌≡◌, ◌<◌, ◌≤◌, All, length};
ghost use Rattle.std.specs.List.Sorted.{IsPermutation, IsNonDecreasingBy};
ghost use Rattle.drt_sweep.specs.DueWorks.{AreOfTasks, IsFirstExcess, works_by};

use crate::due_work::DueWork;

/// The least time at which the greatest works of the tasks that are due by then are together more than the time, or None
/// where there is none. It looks only at the times at which a work is due, in order. It takes no memory.
pub fn first_excess(works: Vec<DueWork>) -> Option<u64>
    requires { AreOfTasks works.items }
    ensures { IsFirstExcess works.items result }
{
    let mut works = works;
    in_order(&mut works);
    first_excess_among(works.as_slice())
}

// The works in order of the times at which they are due.
fn in_order(works: &mut Vec<DueWork>)
    ensures same { IsPermutation works.old.items works.new.items }
    ensures order { IsNonDecreasingBy (λ w. w.due) works.new.items }
{
    works.sort_unstable_by_key(|work| work.due);
}

// The same of works in order. Where several are due at once, the sum may be too much before the last of them, since it
// only grows.
fn first_excess_among(works: &[DueWork]) -> Option<u64>
    requires tasks { AreOfTasks works.now }
    requires order { IsNonDecreasingBy (λ w. w.due) works.now }
    ensures { IsFirstExcess works.now result }
{
    let mut most = [0u64; 32];
    let mut total: u128 = 0;
    'works: for i in 0..works.len() {
        let next = works[i];
        let task = next.task as usize;
        let old = most[task];
        total += next.work.saturating_sub(old) as u128;
        most[task] = old.max(next.work);
        if total > next.due as u128 {
            return Some(next.due);
        }
    }
    None
}
