//! The items of several frontiers, put together side by side.
ghost use Rattle.std.specs.Prelude.{◌≡◌, ◌≤◌, ◌<◌, ◌++◌, ℕ, true, All, IfOk, IfSome, List, None, Some, length, slice_get, slice_index_or};
ghost use Rattle.drt_model.specs.Numbers.{most_time};
ghost use Rattle.drt_claims.specs.Ranges.{IsCounted};
ghost use Rattle.drt_claims.specs.declared.evidence.Item.{Item};
ghost use Rattle.drt_refine.specs.Eager.{IsEager};
ghost use Rattle.drt_refine.specs.View.{IsFrontier, setting_of};
ghost use Rattle.drt_sp.specs.Joints.{IsJoint, KeepAttempts};
ghost use Rattle.drt_sp.specs.Parts.{AreAddedFor, AreEndOf, HasParts};

use crate::attempts::Attempt;
use crate::parts::worker_limit;
use drt_claims::Item;
use drt_crew::Crew;
use drt_effort::Effort;
use drt_model::{Memory, Row};
use drt_pool::Gate;
use drt_refine::{CombinationState, Frontier, eager_settles};
use drt_tree::Forest;
use std::alloc::Global;
use std::sync::Wait;
use std::thread;
use std::thread::Threads;

/// An attempt whose parts are put together: a place for the part of each combination of its frontier, and then the items of its whole
/// proof. There are none where a part is wanting, or one frontier doesn't make them within the budget.
#[derive(Drop)]
pub(crate) struct Joint {
    pub(crate) attempt: Attempt,
    pub(crate) parts: Vec<Option<Row<Item>>>,
    pub(crate) items: Result<Option<Row<Item>>, Memory>,
}

impl Joint {
    /// An attempt with its parts, of which nothing is put together.
    pub(crate) fn of(attempt: Attempt, parts: Vec<Option<Row<Item>>>) -> Joint
        ensures attempt { result.attempt ≡ attempt }
        ensures parts { result.parts ≡ parts }
        ensures items { IfOk result.items (λ some. some ≡ None) }
    {
        Joint {
            attempt,
            parts,
            items: Ok(None),
        }
    }
}

/// Puts together the parts of all attempts, each by one of the workers. Each part is given up once it is copied.
pub(crate) fn join_all<G: Gate, R: Threads + Wait + Sync>(
    crew: &Crew<'_, G, R>,
    forest: &Forest,
    joints: &mut [Joint],
)
    requires joints { All (IsJoint forest.now) joints.old }
    ensures joints { All (IsJoint forest.now) joints.new }
    ensures attempts { KeepAttempts joints.old joints.new }
{
    let alloc = crew.alloc;
    let effort = &crew.effort;
    let worker = move |_place: usize, joint: &mut Joint|
        requires { IsJoint forest.now joint.now }
        ensures { IsJoint forest.entry.now joint.exit.now × (joint.exit.now.attempt ≡ joint.entry.now.attempt) }
    { join_one(alloc, forest, joint, *effort) };
    let limit = worker_limit(crew, joints.len()).max(1);
    thread::for_each_mut(crew.rt, joints, limit, &worker);
}

// Puts together the parts of an attempt.
fn join_one(alloc: Global, forest: &Forest, joint: &mut Joint, effort: Effort)
    requires joint { IsJoint forest.now joint.old }
    ensures joint { IsJoint forest.now joint.new }
    ensures attempt { joint.new.attempt ≡ joint.old.attempt }
{
    joint.items = join_parts(
        alloc,
        forest,
        &joint.attempt.frontier,
        &mut joint.parts,
        effort,
    );
}

// The items of all combinations in order, from the first one on. None where a part is wanting, or one frontier doesn't make them within the
// budget.
fn join_parts(
    alloc: Global,
    forest: &Forest,
    frontier: &Frontier,
    parts: &mut Vec<Option<Row<Item>>>,
    effort: Effort,
) -> Result<Option<Row<Item>>, Memory>
    requires frontier { IsFrontier forest.now frontier.now }
    requires eager { IsEager (setting_of forest.now frontier.now) frontier.now.log }
    requires deadline { frontier.now.deadline ≤ most_time }
    requires parts { HasParts forest.now frontier.now.wcet frontier.now.deadline frontier.now.combinations parts.old.items }
    ensures parts { HasParts forest.now frontier.now.wcet frontier.now.deadline frontier.now.combinations parts.new.items }
    ensures items { IfOk result (λ some. IfSome some (λ items. AreEndOf forest.now frontier.now.wcet frontier.now.deadline frontier.now.roots items × IsCounted items)) }
{
    eager_settles();
    let mut items = Vec::with_capacity(alloc, room_for(parts.as_slice()))?;
    let mut stack = Vec::new(alloc);
    stack.push(0)?;
    for _ in 0..=frontier.count() {
        let Some(id) = stack.pop() else {
            return Ok(within_budget(items, effort));
        };
        if !add_items(forest, frontier, id, parts, &mut stack, &mut items)? {
            return Ok(None);
        }
    }
    Ok(None)
}

// How many items there are at most: an item for each combination, and the parts.
fn room_for(parts: &[Option<Row<Item>>]) -> usize {
    let mut room = parts.len();
    for part in parts {
        if let Some(items) = part {
            room = room.saturating_add(items.as_slice().len());
        }
    }
    room
}

/// The items, where one frontier makes them within the budget, by two steps each.
pub(crate) fn within_budget(items: Vec<Item>, effort: Effort) -> Option<Row<Item>>
    ensures { IfSome result (λ row. (row ≡ items.items) × IsCounted row) }
{
    if 2 * items.len() as u64 > effort.budget() {
        return None;
    }
    Some(Row::from_vec(items))
}

// Adds the items of a combination: its own where it passed or was split, and then its halves come on the stack, the left one on top;
// its part where it is open. False where there is no part of it.
fn add_items(
    forest: &Forest,
    frontier: &Frontier,
    id: u32,
    parts: &mut Vec<Option<Row<Item>>>,
    stack: &mut Vec<u32>,
    items: &mut Vec<Item>,
) -> Result<bool, Memory>
    requires within { id < length frontier.now.combinations }
    requires parts { HasParts forest.now frontier.now.wcet frontier.now.deadline frontier.now.combinations parts.old.items }
    ensures parts { HasParts forest.now frontier.now.wcet frontier.now.deadline frontier.now.combinations parts.new.items }
    ensures added { IfOk result (λ is. is ≡ true → AreAddedFor forest.now frontier.now id items.old.items items.new.items stack.old.items stack.new.items) }
{
    match frontier.state(id) {
        CombinationState::Passed(time) => items.push(Item::Pass(time))?,
        CombinationState::Split { place, left, right } => {
            stack.push(right)?;
            stack.push(left)?;
            items.push(Item::Split(place))?;
        }
        CombinationState::Pending => return add_part(id, parts, items),
        CombinationState::Taken(_) => return add_part(id, parts, items),
        CombinationState::Failed => return Ok(false),
    }
    Ok(true)
}

// Adds the part of a combination, if there is one.
fn add_part(
    id: u32,
    parts: &mut Vec<Option<Row<Item>>>,
    items: &mut Vec<Item>,
) -> Result<bool, Memory>
    ensures left { (k : ℕ) (part : List Item) → slice_get parts.new.items k ≡ Some (Some part) → slice_get parts.old.items k ≡ Some (Some part) }
    ensures count { length parts.new.items ≡ length parts.old.items }
    ensures added { IfOk result (λ is. is ≡ true → (part : List Item) × (slice_get parts.old.items id ≡ Some (Some part)) × (items.new.items ≡ items.old.items ++ part)) }
{
    let Some(part) = take_at(id, parts) else {
        return Ok(false);
    };
    items.extend_from_slice(part.as_slice())?;
    Ok(true)
}

/// Takes what is at a place, if there is something.
pub(crate) fn take_at<T>(place: u32, places: &mut Vec<Option<T>>) -> Option<T>
    ensures taken { (item : T) → result ≡ Some item → slice_get places.old.items place ≡ Some (Some item) }
    ensures left { (k : ℕ) (item : T) → slice_get places.new.items k ≡ Some (Some item) → slice_get places.old.items k ≡ Some (Some item) }
    ensures count { length places.new.items ≡ length places.old.items }
{
    match places.get_mut(place as usize) {
        None => None,
        Some(item) => item.take(),
    }
}
