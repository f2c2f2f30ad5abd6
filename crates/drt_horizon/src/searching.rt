//! The search for an overload.
ghost use Rattle.std.specs.Prelude.{◌≤◌, length};
ghost use Rattle.drt_effort.specs.Efforts.{most_budget};
ghost use Rattle.drt_horizon.specs.Given.{AreGiven};
ghost use Rattle.drt_horizon.specs.Plans.{IsPlannedAboveOne};
ghost use Rattle.drt_horizon.specs.CycleTurns.{AreCycleTurns, IsOverFound, cycle_turns_of};

use crate::answers::Over;
use crate::cycle_turns::{CycleTurn, cycle_turn_of, next_step, work_within};
use drt_graph::Graphs;
use drt_rates::RatioClaim;

// The least step time with more work than time, among the first `budget` ones.
fn search(cycle_turns: &[CycleTurn], budget: u64) -> Over
    requires cycle_turns { AreCycleTurns cycle_turns.now }
    requires some { 1 ≤ length cycle_turns.now }
    requires few { length cycle_turns.now ≤ 32 }
    requires budget_some { 1 ≤ budget }
    requires budget_few { budget ≤ most_budget }
    ensures { IsOverFound cycle_turns.now budget result }
{
    let mut t = 0;
    'steps: for _ in 0..budget {
        let next = next_step(cycle_turns, t);
        if work_within(cycle_turns, next) > next as u128 {
            return Over::Found(next);
        }
        t = next;
    }
    Over::Spent(t)
}

/// The least step time, in ticks, at which whole turns of the cycles that have the tasks' ratios have more work than time,
/// if it is among the first `budget` step times. A step time is a positive multiple of the sum of separations of such a
/// cycle, and equal ones count once. It takes no memory.
pub fn overload(graphs: &Graphs, proofs: &[RatioClaim], budget: u64) -> Over
    requires given { AreGiven graphs.now proofs.now }
    requires above { IsPlannedAboveOne graphs.now proofs.now }
    requires budget_some { 1 ≤ budget }
    requires budget_few { budget ≤ most_budget }
    ensures { IsOverFound (cycle_turns_of graphs.now proofs.now) budget result }
{
    let mut cycle_turns = [CycleTurn { work: 0, span: 0 }; 32];
    let mut count = 0usize;
    'tasks: for i in 0..graphs.count() {
        let cycle = proofs[i as usize].cycle.as_slice();
        if cycle.len() != 0 {
            cycle_turns[count] = cycle_turn_of(graphs.graph(i), cycle);
            count += 1;
        }
    }
    search(&cycle_turns[..count], budget)
}
