//! Why an input is refused.
ghost use Rattle.std.specs.Prelude.{◌≡◌};
ghost use Rattle.drt_outcome.specs.Stops.{fault_status};

use crate::outcome::{DOSSIER_REFUSED, EVIDENCE_REJECTED, FILE_REFUSED};
use drt_model::Name;

/// Why an input is refused.
#[derive(Debug, Drop)]
pub enum Fault {
    /// It isn't.
    Nothing,
    /// The fault of this code at this line, counted from 1, or at line 0 a fault of the whole file.
    File {
        line: u32,
        code: u8,
    },
    /// The separation of this edge of this task is below the deadline of its source. Tasks and edges count from 0.
    Edge {
        task: u32,
        edge: u32,
        past: PastEdge,
    },
    /// The analysis has a limit that the set passes.
    Limit {
        code: u8,
    },
    /// The analysis has a limit that the set passes with so many ticks added to an execution time.
    Probe {
        add: u32,
        code: u8,
    },
    /// The evidence of the dossier breaks rules, of which this is the least number.
    Rule {
        number: u8,
    },
    /// The dossier has the fault of this code at this line, counted from 1, or at line 0 a fault of the whole dossier.
    Dossier {
        line: u32,
        code: u8,
    },
}

/// An edge whose separation is below the deadline of its source: the names of its task and of its two vertices, its separation and the
/// deadline of its source, in ticks.
#[derive(Debug, Drop)]
pub struct PastEdge {
    pub task: Name,
    pub from: Name,
    pub to: Name,
    pub separation: u32,
    pub deadline: u32,
}

/// The code of a file that is too long.
pub const TOO_LONG: u8 = 23;

/// The code of a dossier that is too long.
pub const DOSSIER_TOO_LONG: u8 = 4;

/// The code of a set whose scale exceeds 2^60.
pub const SCALE_TOO_FINE: u8 = 21;

/// The code of a set whose horizon exceeds 2^40.
pub const HORIZON_TOO_FAR: u8 = 22;

/// The code of a task or a vertex that the set doesn't have.
pub const NO_SUCH_VERTEX: u8 = 27;

/// The status of an input with this fault.
pub fn fault_status(fault: &Fault) -> u8
    ensures { result ≡ fault_status fault.now }
{
    match fault {
        Fault::Nothing
        | Fault::File { .. }
        | Fault::Edge { .. }
        | Fault::Limit { .. }
        | Fault::Probe { .. } => FILE_REFUSED,
        Fault::Rule { .. } => EVIDENCE_REJECTED,
        Fault::Dossier { .. } => DOSSIER_REFUSED,
    }
}
