//! What the checker says of a dossier.

/// The checker's judgement of a dossier.
#[derive(Debug, Clone, Copy, PartialEq, Eq)]
pub enum Judgement {
    /// The evidence is accepted: the set is schedulable under the dossier's policy.
    Schedulable,
    /// The evidence is accepted: the set isn't schedulable under the dossier's policy.
    Unschedulable,
    /// The evidence is accepted: the utilisation of the set is one.
    UtilisationOne,
    /// Nothing is claimed: the evidence is `undecided`.
    NothingToCheck,
    /// Rules that apply aren't kept, of which this is the least number.
    Rejected { number: u8 },
}
