//! Whether there is a search for each vertex of each task.
ghost use Rattle.std.specs.Prelude.{◌≡◌, ◌+◌, ◌≤◌, ◌↔◌, IsTrue, drop, length, map, take};
ghost use Rattle.std.specs.List.{range_with_len};
ghost use Rattle.drt_claims.specs.Searches.{IsSearchPerVertex};
ghost use Rattle.drt_check_searches.specs.Subjects.{subject_of_search};

use drt_model::TaskSet;
use drt_states::SearchClaim;

/// Whether there is one search per vertex of each task, in order of tasks and then of vertices. It takes no memory.
pub fn is_search_per_vertex(set: &TaskSet, searches: &[SearchClaim]) -> bool
    ensures { IsTrue result ↔ IsSearchPerVertex set.now.tasks searches.now }
{
    let tasks = set.tasks();
    let mut first = 0;
    'tasks: for k in 0..tasks.len() {
        let count = tasks[k].vertices.as_slice().len();
        if searches.len() - first < count || !are_of_task(k, first, count, searches) {
            return false;
        }
        first += count;
    }
    first == searches.len()
}

// Whether so many of the searches, from the first on, are those of the vertices 0, 1, .. of the task.
fn are_of_task(task: usize, first: usize, count: usize, searches: &[SearchClaim]) -> bool
    requires { first + count ≤ length searches.now }
    ensures { IsTrue result ↔ map subject_of_search (take count (drop first searches.now)) ≡ map (λ v. (task, v)) (range_with_len 0 count) }
{
    for v in 0..count {
        let search = &searches[first + v];
        if search.task as usize != task || search.vertex as usize != v {
            return false;
        }
    }
    true
}
