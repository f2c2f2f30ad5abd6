//! How far an analysis has come.
ghost use Rattle.std.specs.Prelude.{◌≡◌, ℕ, ◌+◌, ◌<◌, ◌≤◌, List, length, IfOk, IfSome, MatchOption};
ghost use Rattle.std.specs.List.{flat_map};
ghost use Rattle.drt_check_trees.specs.Order.{IsOrder};
ghost use Rattle.drt_claims.specs.Claims.{graphs_of};
ghost use Rattle.drt_claims.specs.Ranges.{IsEvidenceInRange};
ghost use Rattle.drt_claims.specs.Trees.{greatest_deadline};
ghost use Rattle.drt_sp.specs.Answers.{IsYesEvidence, IsTreeNo, IsTreeUndecided, IsAnswerOf};
ghost use Rattle.drt_sp.specs.Progress.{AreTreesGrown, AreProved, AreTreesComplete};
ghost use Rattle.drt_sp.specs.Searches.{IsEndAt};

use crate::answer::Answer;
use crate::choices::leaves_pass;
use crate::refusal::refusal;
use crate::trees::{SearchEnd, TreeSearch, plant_tree};
use crate::vertices::{TaskProofs, prove_vertices};
use crate::walks::VertexTuple;
use drt_accepted::Accepted;
use drt_busy::{times_decide, times_suffice_for_task};
use drt_check_trees::greatest_deadline;
use drt_claims::{Evidence, ProofClaim, TreeClaim};
use drt_crew::Crew;
use drt_model::{Memory, Row};
use drt_pool::Gate;
use drt_refine::over_every_interleaving as over_every_refinement;
use drt_request::RequestLabel;
use drt_table::over_every_interleaving as over_every_search;
use drt_trails::FixedTrail;
use drt_tree::Forest;
use std::alloc::Global;
use std::sync::Wait;
use std::thread::Threads;

/// What an analysis is over: a set, and the numbers of its tasks in order of priority.
#[derive(Clone, Copy)]
pub(crate) struct Given<'a> {
    pub(crate) set: &'a Accepted<'a>,
    pub(crate) order: &'a [u32],
}

/// What an analysis has made so far: the trees of the first tasks in order of priority, by their roots in the forest and as they are
/// written, and the proofs of the vertices of the first tasks, in a row for each task of the file.
#[derive(Drop)]
pub(crate) struct Progress {
    pub(crate) forest: Forest,
    pub(crate) roots: Vec<u32>,
    pub(crate) trees: Vec<TreeClaim>,
    pub(crate) proofs: Vec<Row<ProofClaim>>,
}

impl Progress {
    /// No tree and no proof.
    pub(crate) fn start(alloc: Global, given: &Given<'_>) -> Result<Progress, Memory>
        ensures grown { IfOk result (λ p. AreTreesGrown given.now.set.now.tasks given.now.order.now 0 p.forest p.roots.items p.trees.items) }
        ensures proved { IfOk result (λ p. AreProved given.now.set.now.tasks given.now.order.now 0 p.trees.items p.proofs.items) }
    {
        let mut proofs = Vec::new(alloc);
        for _task in given.set.tasks() {
            proofs.push(Row::from_vec(Vec::new(alloc)))?;
        }
        Ok(Progress {
            forest: Forest::empty(alloc),
            roots: Vec::new(alloc),
            trees: Vec::new(alloc),
            proofs,
        })
    }

    /// Proves the vertices of the task at this place of the order, in file order. Each answer but that they pass ends the analysis.
    pub(crate) fn prove_task<G: Gate, R: Threads + Wait + Sync>(
        &mut self,
        crew: &Crew<'_, G, R>,
        given: &Given<'_>,
        place: usize,
    ) -> Result<Answer<(), FixedTrail>, Memory>
        requires order { IsOrder given.now.set.now.tasks given.now.order.now }
        requires here { place < length given.now.order.now }
        requires grown { AreTreesGrown given.now.set.now.tasks given.now.order.now place self.old.forest self.old.roots.items self.old.trees.items }
        requires proved { AreProved given.now.set.now.tasks given.now.order.now place self.old.trees.items self.old.proofs.items }
        ensures forest { self.new.forest ≡ self.old.forest }
        ensures roots { self.new.roots ≡ self.old.roots }
        ensures trees { self.new.trees ≡ self.old.trees }
        ensures decided { IfOk result (IsAnswerOf
            (λ done. AreProved given.now.set.now.tasks given.now.order.now (place + 1) self.new.trees.items self.new.proofs.items)
            (IsTreeNo given.now.set.now)
            (IsTreeUndecided given.now.set.now crew.now.effort.budget)) }
    {
        leaves_pass();
        over_every_refinement();
        times_suffice_for_task();
        given.set.keep_limits();
        let graphs = given.set.graphs();
        graphs.keep_limits();
        self.forest.show_sound();
        let task = given.order[place];
        let graph = graphs.graph(task);
        match prove_vertices(crew, &self.forest, self.roots.as_slice(), task, graph)? {
            TaskProofs::Passed(proofs) => {
                self.proofs[task as usize] = proofs;
                Ok(Answer::Meets(()))
            }
            TaskProofs::Failed { vertex, tuple } => {
                let failed = VertexTuple {
                    task,
                    vertex,
                    tuple,
                };
                let evidence = refusal(crew.alloc, given, &self.forest, &failed)?;
                Ok(Answer::Misses(evidence))
            }
            TaskProofs::Spent { vertex, log } => {
                let trail = FixedTrail::Refine { task, vertex, log };
                Ok(Answer::Undecided(trail))
            }
        }
    }

    /// Searches the walks of the task at this place of the order, which isn't the last one, where the end of that search wasn't found
    /// before, and adds their tree. A trail ends the analysis.
    pub(crate) fn add_tree<G: Gate, R: Threads + Wait + Sync>(
        &mut self,
        crew: &Crew<'_, G, R>,
        given: &Given<'_>,
        place: usize,
        found: Option<SearchEnd>,
    ) -> Result<Option<FixedTrail>, Memory>
        requires order { IsOrder given.now.set.now.tasks given.now.order.now }
        requires here { place + 1 < length given.now.order.now }
        requires found { IfSome found (IsEndAt (graphs_of given.now.set.now.tasks) given.now.order.now (greatest_deadline given.now.set.now.tasks) crew.now.effort.budget place) }
        requires grown { AreTreesGrown given.now.set.now.tasks given.now.order.now place self.old.forest self.old.roots.items self.old.trees.items }
        requires proved { AreProved given.now.set.now.tasks given.now.order.now (place + 1) self.old.trees.items self.old.proofs.items }
        ensures grown { IfOk result (λ trail. MatchOption trail
            (AreTreesGrown given.now.set.now.tasks given.now.order.now (place + 1) self.new.forest self.new.roots.items self.new.trees.items)
            (IsTreeUndecided given.now.set.now crew.now.effort.budget)) }
        ensures proved { IfOk result (λ trail. AreProved given.now.set.now.tasks given.now.order.now (place + 1) self.new.trees.items self.new.proofs.items) }
    {
        over_every_search::<RequestLabel>();
        times_suffice_for_task();
        given.set.keep_limits();
        let graphs = given.set.graphs();
        graphs.keep_limits();
        self.forest.show_sound();
        let task = given.order[place];
        let graph = graphs.graph(task);
        let bound = u64::from(greatest_deadline(given.set.set()));
        let effort = crew.effort;
        match plant_tree(crew.alloc, graph, bound, found, effort, &mut self.forest)? {
            TreeSearch::Tree(tree) => {
                self.roots.push(tree.top)?;
                self.trees.push(tree.claim)?;
                Ok(None)
            }
            TreeSearch::Spent(log) => { Ok(Some(FixedTrail::Table { task, log })) }
        }
    }

    /// The evidence of a yes, with the proofs in file order.
    pub(crate) fn evidence(self, alloc: Global, set: &Accepted<'_>) -> Result<Evidence, Memory>
        requires { (order : List ℕ) × AreTreesComplete set.now.tasks order self.forest self.roots.items self.trees.items self.proofs.items }
        ensures verdict { IfOk result (IsYesEvidence set.now) }
        ensures range { IfOk result IsEvidenceInRange }
    {
        times_decide();
        set.keep_limits();
        let Progress { trees, proofs, .. } = self;
        Ok(Evidence::FixedYes {
            trees: Row::from_vec(trees),
            proofs: Row::from_vec(joined(alloc, proofs)?),
        })
    }
}

// The items of all rows, one row after another.
fn joined(alloc: Global, rows: Vec<Row<ProofClaim>>) -> Result<Vec<ProofClaim>, Memory>
    ensures { IfOk result (λ all. all.items ≡ flat_map (λ row. row) rows.items) }
{
    let mut all = Vec::new(alloc);
    for row in rows {
        let mut row = row.into_vec();
        all.append(&mut row)?;
    }
    Ok(all)
}
