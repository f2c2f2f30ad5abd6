//! Sets whose utilisation is above one.
ghost use Rattle.std.specs.Prelude.{IfOk};
ghost use Rattle.drt_horizon.specs.Given.{AreGiven};
ghost use Rattle.drt_horizon.specs.Plans.{IsPlannedAboveOne};
ghost use Rattle.drt_claims.specs.Claims.{graphs_of};
ghost use Rattle.drt_edf.specs.Answers.{IsEdfAnswer};

use crate::answer::EdfAnswer;
use crate::refusal::overload_refusal;
use drt_accepted::Accepted;
use drt_effort::Effort;
use drt_horizon::{Over, overload, search_ends};
use drt_model::Memory;
use drt_rates::RatioClaim;
use drt_trails::EdfTrail;
use std::alloc::Global;

/// The answer to a set whose utilisation is above one: the no of the least step time at which whole turns of the cycles have
/// more work than time, or that the budget was spent before it.
pub(crate) fn above_one(
    alloc: Global,
    set: &Accepted<'_>,
    proofs: &[RatioClaim],
    effort: Effort,
) -> Result<EdfAnswer, Memory>
    requires given { AreGiven (graphs_of set.now.tasks) proofs.now }
    requires above { IsPlannedAboveOne (graphs_of set.now.tasks) proofs.now }
    ensures { IfOk result (IsEdfAnswer set.now.tasks effort.budget) }
{
    search_ends();
    let graphs = set.graphs();
    graphs.keep_limits();
    match overload(graphs, proofs, effort.budget()) {
        Over::Found(t) => {
            let evidence = overload_refusal(alloc, set, proofs, t)?;
            Ok(EdfAnswer::Done(evidence))
        }
        Over::Spent(last) => Ok(EdfAnswer::Undecided(EdfTrail::Overload { last })),
    }
}
