//! Classic tasks and sets of them.
ghost use Rattle.std.specs.Prelude.{◌≡◌};
ghost use Rattle.drt_classic.specs.Classics.{name_of};

use drt_model::{Name, Row};
use std::marker::Model;

/// A kind of job of a classic task: its worst-case execution time, its relative deadline, and the least
/// time to the next release of the task, in ticks.
#[derive(Debug, Clone, Copy, PartialEq, Eq)]
pub struct Frame {
    pub wcet: u32,
    pub deadline: u32,
    pub sep: u32,
}

/// A task of one of the usual four models.
#[derive(Debug, Drop)]
pub enum Classic {
    /// A sporadic task: one frame, whose separation is the period.
    Sporadic {
        name: Name,
        frame: Frame,
    },
    /// A multiframe task: its frames go round in order, with one deadline and one period, in ticks.
    ///
    /// Source of the model: Mok and Chen, "A Multiframe Model for Real-Time Tasks", RTSS 1996.
    Multiframe {
        name: Name,
        deadline: u32,
        period: u32,
        wcets: Row<u32>,
    },
    /// A generalised multiframe task: its frames go round in order, each with a deadline and a separation
    /// of its own.
    ///
    /// Source of the model: Baruah, Chen, Gorinsky and Mok, "Generalized Multiframe Tasks", Real-Time
    /// Systems 17, 1999.
    Cyclic {
        name: Name,
        frames: Row<Frame>,
    },
    /// A noncyclic task: any frame may follow any frame, after the separation of the first.
    Free {
        name: Name,
        frames: Row<Frame>,
    },
}

/// A set of classic tasks. Contracts see it as the list of its tasks.
///
/// It keeps that there are 1 to 16 tasks with distinct names, that each has 1 to 48 frames, or 1 to 16
/// where it is free, that each time is 1 to 1,000,000 ticks, and that no deadline is greater than the
/// period or separation beside it.
#[derive(Debug, Drop)]
pub struct ClassicSet {
    pub tasks: Row<Classic>,
}

impl Model for ClassicSet {
    ghost use Rattle.std.specs.Prelude.{List};
    ghost use Rattle.drt_classic.specs.declared.classic.Classic.{Classic};
    ghost use Rattle.drt_classic.specs.ClassicLimits.{IsClassicSet};

    ghost Value = { List Classic };

    ghost view = { λ s. s.tasks };

    ghost invariant = { λ s. IsClassicSet s.tasks };
}

impl ClassicSet {
    ghost use Rattle.std.specs.Prelude.{◌≡◌};
    ghost use Rattle.drt_classic.specs.ClassicLimits.{IsClassicSet};

    /// The tasks, in order.
    pub fn tasks(&self) -> &[Classic]
        ensures tasks { result.now ≡ self.now }
        ensures limits { IsClassicSet self.now }
    {
        self.tasks.as_slice()
    }
}

/// The name of a task.
pub fn name_of(task: &Classic) -> &[u8]
    ensures { result.now ≡ name_of task.now }
{
    match task {
        Classic::Sporadic { name, .. }
        | Classic::Multiframe { name, .. }
        | Classic::Cyclic { name, .. }
        | Classic::Free { name, .. } => name.as_slice(),
    }
}
