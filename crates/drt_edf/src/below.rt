//! Sets whose utilisation is below one.
ghost use Rattle.std.specs.Prelude.{ℕ, All, IfOk, Ok};
ghost use Rattle.drt_horizon.specs.Given.{AreGiven};
ghost use Rattle.drt_horizon.specs.Plans.{IsHorizonPlan};
ghost use Rattle.drt_claims.specs.Claims.{graphs_of};
ghost use Rattle.drt_claims.specs.Ranges.{IsCounted, IsEvidenceInRange};
ghost use Rattle.drt_edf.specs.Answers.{IsEdfAnswer, IsEdfVerdict};
ghost use Rattle.drt_edf_fronts.specs.LabelFronts.{AreDemandWalks, AreLabelFronts};

use crate::answer::EdfAnswer;
use crate::refusal::refusal;
use crate::searching::{Searched, searches};
use drt_accepted::Accepted;
use drt_busy::deadlines_decide;
use drt_claims::Evidence;
use drt_crew::Crew;
use drt_edf_fronts::demand_walk;
use drt_graph::{FrontEntry, Graphs};
use drt_horizon::{Horizon, horizon_holds, scan};
use drt_model::{Memory, Row};
use drt_pool::Gate;
use drt_rates::RatioClaim;
use drt_trails::EdfTrail;
use std::alloc::Global;
use std::sync::Wait;
use std::thread::Threads;

// For each task a walk that is due by `t` and has all its demand at `t`, in order.
fn demand_walks(
    alloc: Global,
    graphs: &Graphs,
    fronts: &[Row<FrontEntry>],
    t: u64,
) -> Result<Row<Row<u32>>, Memory>
    requires { (bound : ℕ) × AreLabelFronts bound graphs.now fronts.now }
    ensures { IfOk result (λ walks. AreDemandWalks graphs.now fronts.now t walks) }
{
    let mut walks = Vec::new(alloc);
    'tasks: for task in 0..graphs.count() {
        let front = fronts[task as usize].as_slice();
        walks.push(demand_walk(alloc, graphs.graph(task), front, t)?)?;
    }
    Ok(Row::from_vec(walks))
}

// The answer by the fronts of all tasks: the yes of these fronts where no time has too much demand, and else the no of the
// least such time.
fn scanned(
    alloc: Global,
    set: &Accepted<'_>,
    proofs: Row<RatioClaim>,
    bound: u64,
    fronts: Row<Row<FrontEntry>>,
) -> Result<Evidence, Memory>
    requires given { AreGiven (graphs_of set.now.tasks) proofs }
    requires plan { IsHorizonPlan (graphs_of set.now.tasks) proofs (Ok (Horizon.Under bound)) }
    requires fronts { AreLabelFronts bound (graphs_of set.now.tasks) fronts }
    requires counted { All IsCounted fronts }
    ensures done { IfOk result (λ e. IsEdfVerdict set.now.tasks e) }
    ensures range { IfOk result (λ e. IsEvidenceInRange e) }
{
    horizon_holds();
    deadlines_decide();
    set.keep_limits();
    let graphs = set.graphs();
    graphs.keep_limits();
    match scan(alloc, graphs, fronts.as_slice(), bound)? {
        None => Ok(Evidence::EdfYes {
            ratios: proofs,
            fronts,
        }),
        Some(t) => {
            let walks = demand_walks(alloc, graphs, fronts.as_slice(), t)?;
            drop(fronts);
            refusal(alloc, set, walks.as_slice(), t)
        }
    }
}

/// The answer to a set whose utilisation is below one, with this horizon, in ticks.
pub(crate) fn below_one<G: Gate, R: Threads + Wait + Sync>(
    crew: &Crew<'_, G, R>,
    set: &Accepted<'_>,
    proofs: Row<RatioClaim>,
    bound: u64,
) -> Result<EdfAnswer, Memory>
    requires given { AreGiven (graphs_of set.now.tasks) proofs }
    requires plan { IsHorizonPlan (graphs_of set.now.tasks) proofs (Ok (Horizon.Under bound)) }
    ensures { IfOk result (IsEdfAnswer set.now.tasks crew.now.effort.budget) }
{
    match searches(crew, set.graphs(), bound)? {
        Searched::Finished(fronts) => {
            let evidence = scanned(crew.alloc, set, proofs, bound, fronts)?;
            Ok(EdfAnswer::Done(evidence))
        }
        Searched::Spent { task, log } => Ok(EdfAnswer::Undecided(EdfTrail::Table { task, log })),
    }
}
