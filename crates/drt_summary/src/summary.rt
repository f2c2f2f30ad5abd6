//! What a line says.
use drt_model::Row;

/// What was found under EDF.
#[derive(Debug, Clone, Copy, PartialEq, Eq)]
pub enum EdfVerdict {
    /// The set is schedulable.
    Yes,
    /// It isn't.
    No,
    /// Its utilisation is one.
    One,
    /// Its numbers are out of reach.
    Beyond,
    /// A budget was spent.
    Undecided,
}

/// What was found under fixed priorities.
#[derive(Debug, Clone, Copy, PartialEq, Eq)]
pub enum FixedVerdict {
    /// The set is schedulable.
    Yes,
    /// It isn't.
    No,
    /// A budget was spent.
    Undecided,
}

/// What was found for the drawn set of a number: both verdicts, and how many entries each front has.
#[derive(Debug, Drop)]
pub struct Summary {
    pub edf: EdfVerdict,
    pub fixed: FixedVerdict,
    pub kept: Row<u64>,
    pub number: u64,
}
