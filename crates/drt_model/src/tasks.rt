//! Tasks and sets of tasks.
use crate::name::Name;
use crate::row::Row;
use std::marker::Model;

/// A kind of job: its name, its worst-case execution time and its relative deadline, in ticks.
#[derive(Debug, Drop)]
pub struct Vertex {
    pub name: Name,
    pub wcet: u32,
    pub deadline: u32,
}

/// A way from one vertex to another, by their numbers in the task, and the least separation of
/// their releases, in ticks.
#[derive(Debug, Clone, Copy, PartialEq, Eq)]
pub struct Edge {
    pub from: u32,
    pub to: u32,
    pub sep: u32,
}

/// A directed graph of kinds of jobs, with its fixed priority: a lower number is a higher priority.
///
/// Source of the model: Stigge, Ekberg, Guan and Yi, "The Digraph Real-Time Task Model", RTAS 2011.
#[derive(Debug, Drop)]
pub struct Task {
    pub name: Name,
    pub priority: u32,
    pub vertices: Row<Vertex>,
    pub edges: Row<Edge>,
}

/// A set of tasks within the limits of its version. Contracts see it as its version and the list of
/// its tasks.
///
/// It keeps that the version is 1 or 2, the numbers and ranges of that version, that names are
/// distinct, that priorities are distinct (and are 1, 2, .. in order in version 1), and that the ends
/// of each edge are vertices of its task. `task_set` makes one and is the test for it.
#[derive(Debug, Drop)]
pub struct TaskSet {
    pub version: u8,
    pub tasks: Row<Task>,
}

impl Model for TaskSet {
    ghost use Rattle.drt_model.specs.Contents.{Contents};
    ghost use Rattle.drt_model.specs.Limits.{IsTaskSet};

    ghost Value = { Contents };

    ghost view = { λ s. record { version = s.version; tasks = s.tasks } };

    ghost invariant = { λ s. IsTaskSet s.version s.tasks };
}

impl TaskSet {
    ghost use Rattle.std.specs.Prelude.{◌≡◌};
    ghost use Rattle.drt_model.specs.Limits.{IsTaskSet};

    /// The version, 1 or 2.
    pub fn version(&self) -> u8
        ensures version { result ≡ self.now.version }
        ensures limits { IsTaskSet self.now.version self.now.tasks }
    {
        self.version
    }

    /// Does nothing: the set keeps its limits.
    pub fn keep_limits(&self)
        ensures { IsTaskSet self.now.version self.now.tasks }
    {
        let _version = self.version();
    }

    /// The tasks, in order.
    pub fn tasks(&self) -> &[Task]
        ensures tasks { result.now ≡ self.now.tasks }
        ensures limits { IsTaskSet self.now.version self.now.tasks }
    {
        self.tasks.as_slice()
    }

    /// The version and the tasks, taken apart.
    pub fn into_parts(self) -> (u8, Row<Task>)
        ensures version { result.0 ≡ self.version }
        ensures tasks { result.1 ≡ self.tasks }
        ensures limits { IsTaskSet result.0 result.1 }
    {
        let TaskSet { version, tasks } = self;
        (version, tasks)
    }
}
