//! Whether walks of the tasks of higher priority leave a job time.
ghost use Rattle.std.specs.Prelude.{◌≤◌, List, [], ◌∷◌, ◌++◌, IfOk, IfSome, length};
ghost use Rattle.drt_model.specs.Numbers.{most_time};
ghost use Rattle.drt_model.specs.Digraph.{Digraph};
ghost use Rattle.drt_check_states.specs.Places.{AreTasks, graphs_at};
ghost use Rattle.drt_sp_states.specs.Subjects.{IsStateSubject, IsTrialOf};
ghost use Rattle.drt_sp_states.specs.Trials.{ArePooled};
ghost use Rattle.drt_sp_states.specs.Walks.{IsMadeWalk};

use crate::places::Subject;
use crate::walks::{Made, make_walk};
use drt_graph::{Graph, Graphs};
use drt_model::{Memory, Row};
use drt_steps::{Steps, least_time};
use std::alloc::Global;

/// Walks, one of each place, and what they ask for: the functions, and their numbers in order.
#[derive(Drop)]
pub(crate) struct Pool {
    pub walks: Vec<Row<u32>>,
    pub functions: Vec<Steps>,
    pub chosen: Vec<u32>,
}

/// What walks do to a job.
#[derive(Drop)]
pub(crate) enum Trial {
    /// No time up to the deadline passes for these walks.
    Misses(Row<Row<u32>>),
    /// The least time that passes, in ticks.
    Passes { time: u64, pool: Pool },
    /// They aren't walks whose releases come before the deadline, one of each place.
    Broken,
}

/// What the walks do to the job of a subject.
pub(crate) fn try_walks(
    alloc: Global,
    subject: Subject<'_>,
    walks: &[Row<u32>],
) -> Result<Trial, Memory>
    requires { IsStateSubject subject }
    ensures { IfOk result (IsTrialOf subject.entry) }
{
    let Subject {
        graphs,
        order,
        wcet,
        deadline,
        ..
    } = subject;
    let Some(pool) = pool_walks(alloc, graphs, order, deadline, walks)? else {
        return Ok(Trial::Broken);
    };
    match least_time(wcet as u64, deadline as u64, &pool.functions, &pool.chosen) {
        Some(time) => Ok(Trial::Passes { time, pool }),
        None => Ok(Trial::Misses(Row::from_vec(pool.walks))),
    }
}

// The walks with what they ask for.
fn pool_walks(
    alloc: Global,
    graphs: &Graphs,
    order: &[u32],
    deadline: u32,
    walks: &[Row<u32>],
) -> Result<Option<Pool>, Memory>
    requires order { AreTasks graphs.now order.now }
    requires few { length order.now ≤ 31 }
    requires some { 1 ≤ deadline }
    requires most { deadline ≤ most_time }
    ensures { IfOk result (λ r. IfSome r (ArePooled deadline (graphs_at graphs.now order.now))) }
{
    if walks.len() != order.len() {
        return Ok(None);
    }
    let mut pool = empty_pool(alloc, deadline);
    for i in 0..order.len() {
        let graph = graphs.graph(order[i]);
        let Some(made) = make_walk(alloc, graph, deadline as u64, walks[i].as_slice())? else {
            return Ok(None);
        };
        pool = add_walk(alloc, graph, deadline, pool, made)?;
    }
    Ok(Some(pool))
}

fn empty_pool(alloc: Global, deadline: u32) -> Pool
    ensures { ArePooled deadline [] result }
{
    Pool {
        walks: Vec::new(alloc),
        functions: Vec::new(alloc),
        chosen: Vec::new(alloc),
    }
}

// The pool with a further walk.
fn add_walk(
    alloc: Global,
    graph: &Graph,
    deadline: u32,
    pool: Pool,
    made: Made,
) -> Result<Pool, Memory>
    requires made { IsMadeWalk graph.now deadline made }
    requires few { length pool.functions.items ≤ 31 }
    ensures { IfOk result (λ longer. (graphs : List Digraph) → ArePooled deadline graphs pool → ArePooled deadline (graphs ++ graph.now ∷ []) longer) }
{
    let mut longer = pool;
    longer.chosen.push(longer.functions.len() as u32)?;
    longer.functions.push(made.label.steps().copy(alloc)?)?;
    longer.walks.push(Row::from_vec(made.walk))?;
    Ok(longer)
}
