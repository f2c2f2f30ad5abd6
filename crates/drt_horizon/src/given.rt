//! The ratios of a set with their evidence.
ghost use Rattle.std.specs.Prelude.{IfOk};
ghost use Rattle.drt_horizon.specs.Given.{AreGiven};

use drt_graph::Graphs;
use drt_model::{Memory, Row};
use drt_rates::RatioClaim;
use drt_ratio::greatest;
use std::alloc::Global;

/// What `greatest` gives for each graph, in order.
pub fn ratios(alloc: Global, graphs: &Graphs) -> Result<Row<RatioClaim>, Memory>
    ensures { IfOk result (λ proofs. AreGiven graphs.now proofs) }
{
    let mut proofs = Vec::new(alloc);
    'tasks: for i in 0..graphs.count() {
        proofs.push(greatest(alloc, graphs.graph(i))?)?;
    }
    Ok(Row::from_vec(proofs))
}
