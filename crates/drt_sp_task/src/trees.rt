//! The trees of the tasks of higher priority.
ghost use Rattle.std.specs.Prelude.{◌≡◌, ℕ, ◌+◌, ◌<◌, ◌≤◌, Some, slice_get, length, IfOk, MatchOption};
ghost use Rattle.drt_check_trees.specs.Order.{IsOrder};
ghost use Rattle.drt_sp_task.specs.Trees.{AreTreesUpTo, AreSearchesEnded, IsSpentAtPlace};

use crate::given::Given;
use drt_crew::Crew;
use drt_model::Memory;
use drt_pool::Gate;
use drt_request::RequestLabel;
use drt_sp::{TreeSearch, greatest_deadline, search_tree};
use drt_table::over_every_interleaving;
use drt_trails::FixedTrail;
use drt_tree::Forest;
use std::sync::Wait;
use std::thread::Threads;

/// Trees that stand for the walks of tasks, by their roots in one forest, in order of priority.
#[derive(Drop)]
pub(crate) struct HigherTrees {
    pub(crate) forest: Forest,
    pub(crate) roots: Vec<u32>,
}

/// How the searches of the walks of all tasks of higher priority end.
#[derive(Drop)]
pub(crate) enum Grown {
    /// Each is finished, and these are the trees.
    Trees(HigherTrees),
    /// One spent its budget.
    Spent(FixedTrail),
}

/// The trees of the tasks of higher priority than this one.
pub(crate) fn grow_trees<G: Gate, R: Threads + Wait + Sync>(
    crew: &Crew<'_, G, R>,
    given: Given<'_>,
    task: u32,
) -> Result<Grown, Memory>
    requires order { IsOrder given.set.now.tasks given.order.now }
    requires task { task < length given.set.now.tasks }
    ensures { IfOk result (AreSearchesEnded given.entry crew.now.effort.budget task) }
{
    given.set.keep_limits();
    let mut trees = HigherTrees {
        forest: Forest::empty(crew.alloc),
        roots: Vec::new(crew.alloc),
    };
    let end = place_of(given.order, task);
    'places: for place in 0..end {
        if let Some(trail) = add_tree(crew, given, place, &mut trees)? {
            return Ok(Grown::Spent(trail));
        }
    }
    Ok(Grown::Trees(trees))
}

// The place of a task in the order.
fn place_of(order: &[u32], task: u32) -> usize
    requires { (i : ℕ) × (slice_get order.now i ≡ Some task) }
    ensures { slice_get order.now result ≡ Some task }
{
    'places: for i in 0..order.len() {
        if order[i] == task {
            return i;
        }
    }
    unreachable!()
}

// Adds the tree of the task at this place of the order to those of the tasks before it. A trail ends the analysis.
fn add_tree<G: Gate, R: Threads + Wait + Sync>(
    crew: &Crew<'_, G, R>,
    given: Given<'_>,
    place: usize,
    trees: &mut HigherTrees,
) -> Result<Option<FixedTrail>, Memory>
    requires order { IsOrder given.set.now.tasks given.order.now }
    requires here { place < length given.order.now }
    requires before { AreTreesUpTo given place trees.old }
    ensures { IfOk result (λ trail. MatchOption trail (AreTreesUpTo given.entry (place + 1) trees.new) (IsSpentAtPlace given.entry crew.now.effort.budget place)) }
{
    over_every_interleaving::<RequestLabel>();
    given.set.keep_limits();
    let graphs = given.set.graphs();
    graphs.keep_limits();
    trees.forest.show_sound();
    let task = given.order[place];
    match search_tree(
        crew.alloc,
        graphs.graph(task),
        u64::from(greatest_deadline(given.set.set())),
        crew.effort,
        &mut trees.forest,
    )? {
        TreeSearch::Tree(tree) => {
            trees.roots.push(tree.top)?;
            Ok(None)
        }
        TreeSearch::Spent(log) => Ok(Some(FixedTrail::Table { task, log })),
    }
}
