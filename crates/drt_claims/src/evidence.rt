//! What a dossier claims of a task set.
use drt_graph::FrontEntry;
use drt_model::{Miss, Policy, Release, Row, TaskSet};
use drt_rates::RatioClaim;
use drt_states::{SearchClaim, TailClaim};
use std::marker::Model;

/// A node of a tree that joins two earlier ones.
#[derive(Debug, Drop, Clone, Copy, PartialEq, Eq)]
pub struct Pair {
    pub left: u32,
    pub right: u32,
}

/// A tree of request functions: its walks, by vertices, are the nodes 0, 1, .., and its pairs the nodes after them. The last
/// node is the root.
#[derive(Debug, Drop)]
pub struct TreeClaim {
    pub walks: Row<Row<u32>>,
    pub pairs: Row<Pair>,
}

/// A step of a proof, taken at the topmost combination of request functions.
#[derive(Debug, Drop, Clone, Copy, PartialEq, Eq)]
pub enum Item {
    /// The vertex has room at this time, in ticks.
    Pass(u64),
    /// The combination is split at this place.
    Split(u32),
}

/// A proof that a vertex of a task meets its deadline under fixed priorities.
#[derive(Debug, Drop)]
pub struct ProofClaim {
    pub task: u32,
    pub vertex: u32,
    pub items: Row<Item>,
}

/// The evidence of an answer.
#[derive(Debug, Drop)]
pub enum Evidence {
    /// The set is schedulable under EDF.
    EdfYes {
        ratios: Row<RatioClaim>,
        fronts: Row<Row<FrontEntry>>,
    },
    /// The set isn't schedulable under EDF: the named job of these releases misses.
    EdfNo {
        releases: Row<Release>,
        miss: Miss,
    },
    /// The utilisation of the set is one.
    UtilisationOne {
        ratios: Row<RatioClaim>,
    },
    /// The set is schedulable under fixed priorities.
    FixedYes {
        trees: Row<TreeClaim>,
        proofs: Row<ProofClaim>,
    },
    /// The set is schedulable under fixed priorities: by tails of its tasks, and states over them for each vertex.
    FixedStates {
        tails: Row<TailClaim>,
        searches: Row<SearchClaim>,
    },
    /// The set isn't schedulable under fixed priorities: the named job of these releases misses.
    FixedNo {
        releases: Row<Release>,
        miss: Miss,
    },
    /// A budget was spent before there was an answer.
    Undecided,
}

/// A policy, a task set and the evidence of what is claimed of it. Contracts see these three as a `Statement`.
///
/// It keeps the ranges of the numbers that a text has: lists have at most 4,294,967,295 items, offsets, times, needs and deadlines
/// are at most 10^18 ticks, works at most 2·10^18, ratios have numbers of at most 10^9, and potentials lie within 10^16 of 0.
#[derive(Debug, Drop)]
pub struct Dossier {
    pub policy: Policy,
    pub set: TaskSet,
    pub evidence: Evidence,
}

impl Model for Dossier {
    ghost use Rattle.drt_claims.specs.Statement.{Statement};
    ghost use Rattle.drt_claims.specs.Ranges.{IsEvidenceInRange};

    ghost Value = { Statement };

    ghost view = { λ d. record { policy = d.policy; set = d.set; evidence = d.evidence } };

    ghost invariant = { λ d. IsEvidenceInRange d.evidence };
}
