//! The proof that a vertex meets its deadline, whatever walks the tasks of higher priority take.
ghost use Rattle.std.specs.Prelude.{◌≡◌, ℕ, ◌≤◌, ◌<◌, ◌∷◌, [], All, IfOk, IfSome, IsTrue, Some, length, slice_get};
ghost use Rattle.drt_model.specs.Numbers.{most_time};
ghost use Rattle.drt_claims.specs.Ranges.{IsCounted, IsInRangeItem};
ghost use Rattle.drt_refine.specs.Combination.{Combination};
ghost use Rattle.drt_refine.specs.Drive.{StopsAt};
ghost use Rattle.drt_refine.specs.Eager.{IsEager};
ghost use Rattle.drt_refine.specs.Machine.{is_finished};
ghost use Rattle.drt_refine.specs.Settled.{IsPassedOrSplit};
ghost use Rattle.drt_refine.specs.View.{IsFrontier, setting_of, state_of};
ghost use Rattle.drt_refine.specs.declared.step.FrontierReply.TheVariants.{Spent};
ghost use Rattle.drt_sp.specs.Items.{AreItems, IsItemOf, IsVertexProof};
ghost use Rattle.drt_sp.specs.Parts.{AreEndOf, IsPosedVertex, IsRefined};

use crate::joints::within_budget;
use crate::parts::end_combination;
use crate::race::Race;
use drt_claims::Item;
use drt_effort::Effort;
use drt_model::{Memory, Row};
use drt_refine::{
    CombinationState, Frontier, FrontierEntry, FrontierReply, eager_settles,
    over_every_interleaving,
};
use drt_tree::{Forest, every_forest};
use std::alloc::Global;

// The number of the one worker that drives a frontier.
const WORKER: u32 = 0;

/// A vertex, by its wcet and deadline (in ticks), and the trees that it is proved against, by their roots.
#[derive(Clone, Copy)]
pub(crate) struct PosedVertex<'a> {
    pub(crate) forest: &'a Forest,
    pub(crate) roots: &'a [u32],
    pub(crate) wcet: u32,
    pub(crate) deadline: u32,
}

/// What becomes of a vertex: it passes, by the items of its proof; it fails at a tuple of leaves, one for each root; or the
/// budget was spent after the steps of this log.
#[derive(Drop)]
pub(crate) enum VertexProof {
    Passes(Row<Item>),
    Fails(Row<u32>),
    Spent(Row<FrontierEntry>),
}

/// Where a refinement came to its end: the vertex passes or fails, as in `VertexProof`, or the budget was spent in this frontier.
#[derive(Drop)]
pub(crate) enum Refined {
    Passes(Row<Item>),
    Fails(Row<u32>),
    Spent(Frontier),
}

/// Looks for a time that passes for a vertex, for each tuple of leaves below the roots, which are those of the trees of the tasks of
/// higher priority. The one frontier may make as many steps as the budget has.
///
/// First only the items are made, depth first, and nothing else is kept. Where that finds a tuple that fails, or the budget is spent, a
/// frontier makes all steps once more, for the tuple that it finds first or for its log.
pub(crate) fn prove_vertex(
    alloc: Global,
    vertex: &PosedVertex<'_>,
    effort: Effort,
) -> Result<VertexProof, Memory>
    requires { IsPosedVertex vertex.now }
    ensures { IfOk result (IsVertexProof vertex.now.forest.now vertex.now.wcet vertex.now.deadline vertex.now.roots.now effort.budget) }
{
    let forest = vertex.forest;
    forest.show_sound();
    every_forest();
    if let Some(items) = end_roots(alloc, vertex, effort)? {
        return Ok(VertexProof::Passes(items));
    }
    prove_by_frontier(alloc, vertex, effort)
}

// The items that end the roots, where one frontier makes them within the budget, by two steps each.
fn end_roots(
    alloc: Global,
    vertex: &PosedVertex<'_>,
    effort: Effort,
) -> Result<Option<Row<Item>>, Memory>
    requires { IsPosedVertex vertex.now }
    ensures { IfOk result (λ some. IfSome some (λ items. AreEndOf vertex.now.forest.now vertex.now.wcet vertex.now.deadline vertex.now.roots.now items × IsCounted items)) }
{
    let race = Race::start(alloc, 1, effort.budget() / 2)?;
    let PosedVertex {
        forest,
        roots,
        wcet,
        deadline,
    } = *vertex;
    match end_combination(alloc, forest, roots, wcet, deadline, 0, &race)? {
        Some(items) => Ok(within_budget(items.into_vec(), effort)),
        None => Ok(None),
    }
}

// What becomes of a vertex by the steps of one frontier.
fn prove_by_frontier(
    alloc: Global,
    vertex: &PosedVertex<'_>,
    effort: Effort,
) -> Result<VertexProof, Memory>
    requires { IsPosedVertex vertex.now }
    ensures { IfOk result (IsVertexProof vertex.now.forest.now vertex.now.wcet vertex.now.deadline vertex.now.roots.now effort.budget) }
{
    let refined = refine_vertex(alloc, vertex, effort)?;
    match refined {
        Refined::Passes(items) => Ok(VertexProof::Passes(items)),
        Refined::Fails(tuple) => Ok(VertexProof::Fails(tuple)),
        Refined::Spent(frontier) => Ok(VertexProof::Spent(Row::from_vec(frontier.into_log()))),
    }
}

// Drives a frontier from its start to its end. Its steps are shorter than handing on a lock, so one worker makes them.
fn drive_frontier(
    alloc: Global,
    vertex: &PosedVertex<'_>,
    effort: Effort,
) -> Result<(Frontier, FrontierReply), Memory>
    requires { IsPosedVertex vertex.now }
    ensures setting { IfOk result (λ r. setting_of vertex.now.forest.now r.0 ≡ record { forest = vertex.now.forest.now; roots = vertex.now.roots.now; wcet = vertex.now.wcet; deadline = vertex.now.deadline; budget = effort.budget }) }
    ensures frontier { IfOk result (λ r. IsFrontier vertex.now.forest.now r.0) }
    ensures eager { IfOk result (λ r. IsEager (setting_of vertex.now.forest.now r.0) r.0.log) }
    ensures stops { IfOk result (λ r. StopsAt (setting_of vertex.now.forest.now r.0) (state_of r.0) r.1) }
{
    let PosedVertex {
        forest,
        roots,
        wcet,
        deadline,
    } = *vertex;
    let mut frontier = Frontier::start(alloc, forest, roots, wcet, deadline, effort.budget())?;
    let reply = frontier.drive(forest, WORKER);
    Ok((frontier, reply))
}

/// Works one frontier of a vertex until it is finished, a combination has failed or the budget of steps is spent.
pub(crate) fn refine_vertex(
    alloc: Global,
    vertex: &PosedVertex<'_>,
    effort: Effort,
) -> Result<Refined, Memory>
    requires { IsPosedVertex vertex.now }
    ensures { IfOk result (IsRefined vertex.now.forest.now vertex.now.wcet vertex.now.deadline vertex.now.roots.now effort.budget) }
{
    let (frontier, reply) = drive_frontier(alloc, vertex, effort)?;
    match reply {
        FrontierReply::Spent => Ok(Refined::Spent(frontier)),
        reply => settle(alloc, vertex.forest, &frontier, reply),
    }
}

// What becomes of a vertex whose frontier stopped within its budget.
fn settle(
    alloc: Global,
    forest: &Forest,
    frontier: &Frontier,
    reply: FrontierReply,
) -> Result<Refined, Memory>
    requires frontier { IsFrontier forest.now frontier.now }
    requires eager { IsEager (setting_of forest.now frontier.now) frontier.now.log }
    requires stops { StopsAt (setting_of forest.now frontier.now) (state_of frontier.now) reply }
    requires unspent { reply ≡ Spent → ⊥ }
    requires deadline { frontier.now.deadline ≤ most_time }
    ensures { IfOk result (λ refined. (budget : ℕ) → IsRefined forest.now frontier.now.wcet frontier.now.deadline frontier.now.roots budget refined) }
{
    over_every_interleaving();
    eager_settles();
    match reply {
        FrontierReply::Finished => Ok(Refined::Passes(items_of(alloc, forest, frontier)?)),
        FrontierReply::Failed(id) => Ok(Refined::Fails(tuple_of(alloc, frontier, id)?)),
        FrontierReply::Spent => unreachable!(),
        FrontierReply::Taken(_) => unreachable!(),
        FrontierReply::Busy(_) => unreachable!(),
        FrontierReply::Passed => unreachable!(),
        FrontierReply::Halved(_, _) => unreachable!(),
    }
}

// The items of a finished frontier: those of a combination that was split are its own, then those of its left half, then
// those of its right half.
fn items_of(alloc: Global, forest: &Forest, frontier: &Frontier) -> Result<Row<Item>, Memory>
    requires frontier { IsFrontier forest.now frontier.now }
    requires eager { IsEager (setting_of forest.now frontier.now) frontier.now.log }
    requires finished { IsTrue (is_finished (setting_of forest.now frontier.now) (state_of frontier.now)) }
    requires deadline { frontier.now.deadline ≤ most_time }
    ensures are { IfOk result (λ items. AreItems forest.now frontier.now.wcet frontier.now.deadline items (frontier.now.roots ∷ [])) }
    ensures in_range { IfOk result (λ items. All IsInRangeItem items × IsCounted items) }
{
    eager_settles();
    let mut items = Vec::with_capacity(alloc, frontier.count() as usize)?;
    let mut stack = Vec::new(alloc);
    stack.push(0)?;
    while let Some(id) = stack.pop() {
        let item = take_item(frontier, id, &mut stack)?;
        items.push(item)?;
    }
    Ok(Row::from_vec(items))
}

// The item of a settled combination. Where it was split, its halves come on the stack, the left one on top.
fn take_item(frontier: &Frontier, id: u32, stack: &mut Vec<u32>) -> Result<Item, Memory>
    requires within { id < length frontier.now.combinations }
    requires done { (c : Combination) → slice_get frontier.now.combinations id ≡ Some c → IsPassedOrSplit c.state }
    ensures { IfOk result (λ item. (c : Combination) → slice_get frontier.now.combinations id ≡ Some c → IsItemOf c.state item stack.old.items stack.new.items) }
{
    match frontier.state(id) {
        CombinationState::Passed(time) => Ok(Item::Pass(time)),
        CombinationState::Split { place, left, right } => {
            stack.push(right)?;
            stack.push(left)?;
            Ok(Item::Split(place))
        }
        CombinationState::Pending => unreachable!(),
        CombinationState::Taken(_) => unreachable!(),
        CombinationState::Failed => unreachable!(),
    }
}

// The leaves of a failed combination.
fn tuple_of(alloc: Global, frontier: &Frontier, id: u32) -> Result<Row<u32>, Memory>
    requires { id < length frontier.now.combinations }
    ensures { IfOk result (λ tuple. (c : Combination) → slice_get frontier.now.combinations id ≡ Some c → tuple ≡ c.nodes) }
{
    Ok(Row::from_vec(Vec::from_slice(alloc, frontier.combination(id))?))
}
