//! The greatest deadlines of tasks of lower priority.
ghost use Rattle.std.specs.Prelude.{◌≡◌, max};
ghost use Rattle.drt_claims.specs.Searches.{lower_deadline};

use drt_check_trees::latest_deadline;
use drt_model::Task;

/// The greatest relative deadline of the tasks of lower priority than the number stands for, in ticks. It is 0 where there are none.
pub(crate) fn lower_deadline(tasks: &[Task], priority: u32) -> u32
    ensures { result ≡ lower_deadline tasks.now priority }
{
    let mut greatest = 0;
    for task in tasks {
        if task.priority <= priority {
            continue;
        }
        greatest = larger(greatest, latest_deadline(task.vertices.as_slice()));
    }
    greatest
}

// The larger of two numbers.
fn larger(a: u32, b: u32) -> u32
    ensures { result ≡ max a b }
{
    if a < b { b } else { a }
}
