//! Whole turns of cycles, and the times at which a turn ends.
ghost use Rattle.std.specs.Prelude.{◌≡◌, ℕ, ◌+◌, ◌<◌, ◌≤◌, [], ◌∷◌, length};
ghost use Rattle.drt_model.specs.Numbers.{most_cycle};
ghost use Rattle.drt_model.specs.Digraph.{vertex_count};
ghost use Rattle.drt_model.specs.Walk.{IsCycle, work, cycle_span};
ghost use Rattle.drt_horizon.specs.CycleTurns.{AreCycleTurns, IsNextStepTime, turned};

use drt_graph::{Graph, cycle_sums};

/// One turn of a cycle: the sum of its execution times and the sum of its separations, in ticks.
#[derive(Drop, Clone, Copy, Debug)]
pub struct CycleTurn {
    pub work: u64,
    pub span: u64,
}

/// The turn of a cycle.
pub fn cycle_turn_of(graph: &Graph, cycle: &[u32]) -> CycleTurn
    requires is { IsCycle graph.now cycle.now }
    requires few { length cycle.now ≤ 96 }
    ensures work { result.work ≡ work graph.now cycle.now }
    ensures span { result.span ≡ cycle_span graph.now cycle.now }
{
    graph.keep_limits();
    let (work, span) = cycle_sums(graph, cycle);
    CycleTurn {
        work: work as u64,
        span: span as u64,
    }
}

// The first multiple of the turn's span after `t`.
fn next_of(cycle_turn: CycleTurn, t: u64) -> u64
    requires some { 1 ≤ cycle_turn.span }
    requires small { cycle_turn.span ≤ most_cycle }
    requires time { t ≤ 1000000000000000 }
    ensures next { IsNextStepTime (cycle_turn ∷ []) t result }
    ensures near { result ≤ t + most_cycle }
{
    (t / cycle_turn.span + 1) * cycle_turn.span
}

/// The first step time after `t`.
pub fn next_step(cycle_turns: &[CycleTurn], t: u64) -> u64
    requires cycle_turns { AreCycleTurns cycle_turns.now }
    requires some { 1 ≤ length cycle_turns.now }
    requires time { t ≤ 1000000000000000 }
    ensures next { IsNextStepTime cycle_turns.now t result }
    ensures near { result ≤ t + most_cycle }
{
    let mut next = next_of(cycle_turns[0], t);
    'cycle_turns: for i in 1..cycle_turns.len() {
        let other = next_of(cycle_turns[i], t);
        if other < next {
            next = other;
        }
    }
    next
}

/// The work of whole turns within `t`.
pub fn work_within(cycle_turns: &[CycleTurn], t: u64) -> u128
    requires cycle_turns { AreCycleTurns cycle_turns.now }
    requires few { length cycle_turns.now ≤ 32 }
    requires time { t ≤ 2000000000000000 }
    ensures { result ≡ turned cycle_turns.now t }
{
    let mut total: u128 = 0;
    'cycle_turns: for i in 0..cycle_turns.len() {
        let cycle_turn = cycle_turns[i];
        total += (t / cycle_turn.span) as u128 * cycle_turn.work as u128;
    }
    total
}
