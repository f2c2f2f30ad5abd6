//! The rules of the checker, by name.
ghost use Rattle.std.specs.Prelude.{◌≡◌};
ghost use Rattle.drt_claims.specs.Rules.{number_of};

/// A rule of the checker, in the order of the numbers. What each asks of a dossier stands in `specs/Rules.antt`.
#[derive(Debug, Drop, Clone, Copy, PartialEq, Eq)]
pub enum Rule {
    /// The deadlines of the set are constrained.
    ConstrainedDeadlines,
    /// The kind of the evidence is one of the policy's.
    KindOfPolicy,
    /// There are as many ratios as tasks.
    RatioPerTask,
    /// Each ratio is in lowest terms.
    LowestTerms,
    /// There are as many potentials as vertices of the task.
    PotentialPerVertex,
    /// The potentials rise on each edge by at least its gain.
    FittingPotentials,
    /// The cycle is empty exactly where the ratio is 0, and else a cycle of the task.
    ClosedCycles,
    /// The cycle has the ratio.
    TightCycles,
    /// The scale of the ratios is at most 2^60.
    FineScale,
    /// The utilisation is below one, or it is one, as the kind of the evidence claims.
    ClaimedUtilisation,
    /// The horizon is at most 2^40 ticks.
    NearHorizon,
    /// There are as many fronts as tasks, and each is in order within the horizon.
    OrderedFronts,
    /// The walk of each single vertex that is due within the horizon is covered.
    CoveredOpenings,
    /// Each entry, extended by an edge, is covered or due past the horizon.
    CoveredExtensions,
    /// The works of the fronts have room.
    Room,
    /// There is one tree fewer than tasks.
    TreePerHigherTask,
    /// Each walk of a tree has a vertex, follows edges and spans less than the greatest deadline.
    ShortWalks,
    /// The walks of single vertices and those of a tree, extended by an edge, are dominated by a walk of the tree.
    CoveredWalks,
    /// The pairs of a tree join its walks into one node, each node once.
    TreeShapes,
    /// There is one proof per vertex, in order.
    ProofPerVertex,
    /// The items of a proof can be taken, and end with the last one.
    ProofShapes,
    /// Each time at which an item passes does so.
    PassingTimes,
    /// The releases are legal.
    LegalReleases,
    /// The named job misses, and none that misses has an earlier deadline.
    LeastMiss,
    /// There is one tail fewer than tasks, with rising jumps below the bound for each vertex.
    RisingTails,
    /// The tails bound what walks ask for.
    BoundingTails,
    /// There is one search per vertex, in order.
    SearchPerVertex,
    /// Each search begins with the empty state, and its states name vertices at places that ascend.
    SearchStates,
    /// Each time at which a state passes does so.
    PassingStates,
    /// Each state that splits has children, and states that dominate them.
    DominatedChildren,
}

impl Rule {
    /// The number by which a rule is told.
    pub fn number(self) -> u8
        ensures { result ≡ number_of self }
    {
        match self {
            Rule::ConstrainedDeadlines => 1,
            Rule::KindOfPolicy => 2,
            Rule::RatioPerTask => 3,
            Rule::LowestTerms => 4,
            Rule::PotentialPerVertex => 5,
            Rule::FittingPotentials => 6,
            Rule::ClosedCycles => 7,
            Rule::TightCycles => 8,
            Rule::FineScale => 9,
            Rule::ClaimedUtilisation => 10,
            Rule::NearHorizon => 11,
            Rule::OrderedFronts => 12,
            Rule::CoveredOpenings => 13,
            Rule::CoveredExtensions => 14,
            Rule::Room => 15,
            Rule::TreePerHigherTask => 16,
            Rule::ShortWalks => 17,
            Rule::CoveredWalks => 18,
            Rule::TreeShapes => 19,
            Rule::ProofPerVertex => 20,
            Rule::ProofShapes => 21,
            Rule::PassingTimes => 22,
            Rule::LegalReleases => 23,
            Rule::LeastMiss => 24,
            Rule::RisingTails => 25,
            Rule::BoundingTails => 26,
            Rule::SearchPerVertex => 27,
            Rule::SearchStates => 28,
            Rule::PassingStates => 29,
            Rule::DominatedChildren => 30,
        }
    }
}
