//! The graphs of a task set.
ghost use Rattle.std.specs.Prelude.{◌≡◌, ◌<◌, length};
ghost use Rattle.drt_model.specs.Digraph.{IsSoundGraph, IsConstrainedGraph};
ghost use Rattle.drt_graph.specs.Graphs.{AreGraphs, graph_of};

use crate::graph::Graph;
use std::marker::Model;

/// The graphs of a task set, one a task. On each edge the deadline of the source is at most the separation. Contracts see
/// the list of the graphs.
#[derive(Debug, Drop)]
pub struct Graphs {
    pub(crate) graphs: Vec<Graph>,
}

impl Model for Graphs {
    ghost use Rattle.std.specs.Prelude.{List};
    ghost use Rattle.drt_model.specs.Digraph.{Digraph};
    ghost use Rattle.drt_graph.specs.Graphs.{AreGraphs};

    ghost Value = { List Digraph };

    ghost view = { λ g. g.graphs.items };

    ghost invariant = { λ g. AreGraphs g.graphs.items };
}

impl Graphs {
    /// How many graphs there are, 1 to 32.
    pub fn count(&self) -> u32
        ensures count { result ≡ length self.now }
        ensures kept { AreGraphs self.now }
    {
        self.graphs.len() as u32
    }

    /// Does nothing: the graphs keep their limits.
    pub fn keep_limits(&self)
        ensures { AreGraphs self.now }
    {
        let _count = self.count();
    }

    /// The graph of the task of this number.
    pub fn graph(&self, task: u32) -> &Graph
        requires { task < length self.now }
        ensures graph { result.now ≡ graph_of self.now task }
        ensures sound { IsSoundGraph result.now }
        ensures constrained { IsConstrainedGraph result.now }
    {
        &self.graphs[task as usize]
    }
}
