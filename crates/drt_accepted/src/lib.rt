//! A set that is accepted, with its graphs.
#![tactic(auto)]

ghost use Rattle.std.specs.Prelude.{◌≡◌, map};
ghost use Rattle.drt_model.specs.Constrained.{AreConstrained};
ghost use Rattle.drt_model.specs.Digraph.{digraph_of};
ghost use Rattle.drt_model.specs.Limits.{IsTaskSet};

use drt_graph::Graphs;
use drt_model::{Task, TaskSet};
use std::marker::Model;

/// A set with constrained deadlines, and the graphs of its tasks. Contracts see the set.
#[derive(Drop)]
pub struct Accepted<'a> {
    set: &'a TaskSet,
    graphs: &'a Graphs,
}

impl<'a> Model for Accepted<'a> {
    ghost use Rattle.std.specs.Prelude.{◌≡◌, map};
    ghost use Rattle.drt_model.specs.Constrained.{AreConstrained};
    ghost use Rattle.drt_model.specs.Contents.{Contents};
    ghost use Rattle.drt_model.specs.Digraph.{digraph_of};

    ghost Value = { Contents };

    ghost view = { λ a. a.set.now };

    ghost invariant = { λ a. AreConstrained a.set.now.tasks × (a.graphs.now ≡ map digraph_of a.set.now.tasks) };
}

impl<'a> Accepted<'a> {
    /// The set with its graphs.
    pub fn of(set: &'a TaskSet, graphs: &'a Graphs) -> Accepted<'a>
        requires constrained { AreConstrained set.now.tasks }
        requires graphs { graphs.now ≡ map digraph_of set.now.tasks }
        ensures { result ≡ set.now }
    {
        Accepted { set, graphs }
    }

    /// The set.
    pub fn set(&self) -> &'a TaskSet
        ensures set { result.now ≡ self.now }
        ensures constrained { AreConstrained self.now.tasks }
    {
        self.set
    }

    /// The tasks, in order.
    pub fn tasks(&self) -> &'a [Task]
        ensures tasks { result.now ≡ self.now.tasks }
        ensures limits { IsTaskSet self.now.version self.now.tasks }
        ensures constrained { AreConstrained self.now.tasks }
    {
        let set = self.set;
        set.tasks()
    }

    /// The graphs of the tasks, in order.
    pub fn graphs(&self) -> &'a Graphs
        ensures graphs { result.now ≡ map digraph_of self.now.tasks }
        ensures constrained { AreConstrained self.now.tasks }
    {
        self.graphs
    }

    /// Does nothing: the set keeps its limits, and its deadlines are constrained.
    pub fn keep_limits(&self)
        ensures limits { IsTaskSet self.now.version self.now.tasks }
        ensures constrained { AreConstrained self.now.tasks }
    {
        let _tasks = self.tasks();
    }
}
