//! What a table is started with.

use drt_graph::Graph;
use std::marker::Model;
use std::snapshot::Snapshot;

/// The graph, the bound and the budget of a table, as contracts see them. The graph takes no bytes.
#[derive(Drop)]
pub struct Terms {
    graph: Snapshot<Graph>,
    bound: u64,
    budget: u64,
}

impl Model for Terms {
    ghost use Rattle.drt_table.specs.Machine.{Setting};

    ghost Value = { Setting };

    ghost view = { λ t. record { graph = t.graph.value; bound = t.bound; budget = t.budget } };
}

impl Terms {
    ghost use Rattle.std.specs.Prelude.{◌≡◌};

    pub(crate) fn new(graph: &Graph, bound: u64, budget: u64) -> Terms
        ensures { result ≡ record { graph = graph.now; bound = bound; budget = budget } }
    {
        Terms {
            graph: Snapshot::of(graph),
            bound,
            budget,
        }
    }
}
