//! What a list of words asks for.
use crate::spot::Spot;
use crate::workers::Workers;
use drt_effort::Effort;

/// What a list of words asks for.
#[derive(Debug, Drop)]
pub enum Meaning {
    /// The answer under EDF.
    Edf(Effort),
    /// The answer under fixed priorities.
    Sp(Effort),
    /// The task file as one of version 2.
    Upgrade,
    /// The ratio of each task, and the utilisation.
    Util,
    /// The checker's judgement of a dossier.
    Check,
    /// Both answers to the drawn set of a number.
    Bench {
        workers: Workers,
        number: u64,
    },
    /// The greatest response time of each vertex, with releases that reach it.
    Response(Effort),
    /// A file of sporadic and multiframe tasks, as a task file.
    Convert,
    /// Who runs when: in the releases of a dossier or, where a vertex is named, in those of its response. As a picture, or as a text.
    Timeline {
        svg: bool,
        vertex: Option<Spot>,
    },
    /// Priorities under which each task meets its deadlines.
    Assign(Effort),
    /// By how much the worst-case execution time of a vertex can grow: under fixed priorities, or under EDF.
    Margin {
        fixed: bool,
        spot: Spot,
        effort: Effort,
    },
}
