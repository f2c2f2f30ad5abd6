//! The vertices of a task, proved by several workers: each ends combinations of its own.
ghost use Rattle.std.specs.Prelude.{[], ◌≡◌, ◌≤◌, ◌<◌, ℕ, All, IfOk, IfSome, OnOk, None, length, slice_set};
ghost use Rattle.drt_model.specs.Numbers.{most_time};
ghost use Rattle.drt_model.specs.Digraph.{vertex_count};
ghost use Rattle.drt_model.specs.Walk.{deadline};
ghost use Rattle.drt_sp.specs.Attempts.{AreGiven, AreTables, AreWith, CanBeEnded, HaveParts, IsAttempt, IsJob, IsPartOf};
ghost use Rattle.drt_sp.specs.Joints.{AreJoints, IsJointOf};
ghost use Rattle.drt_sp.specs.Parts.{AreEndOf, CanEnd, IsNextItem};
ghost use Rattle.drt_sp.specs.declared.proving.VertexProof.TheVariants.{Passes as PassesBy};
ghost use Rattle.drt_steps.specs.Time.{AreChosen};
ghost use Rattle.drt_tree.specs.Tree.{Plain};

use crate::attempts::{Attempt, Attempts, attempt_vertices};
use crate::joints::{Joint, join_all};
use crate::proving::VertexProof;
use crate::race::Race;
use crate::vertices::Posed;
use drt_claims::Item;
use drt_crew::Crew;
use drt_effort::Effort;
use drt_model::{Memory, Row};
use drt_pool::Gate;
use drt_refine::{CombinationState, choose_place, over_every_interleaving};
use drt_steps::least_time;
use drt_tree::{Forest, every_forest};
use std::alloc::Global;
use std::sync::Wait;
use std::thread;
use std::thread::{Threads, available_parallelism};

// How many vertices are attempted together at first, where their attempts are spent: together that takes about a millisecond, and to begin
// threads up to five.
const TOGETHER: usize = 8;

/// The items that end a combination, by the place of its frontier among those that were spent, and by its number there.
#[derive(Drop)]
pub(crate) struct Part {
    pub(crate) place: usize,
    pub(crate) id: u32,
    pub(crate) items: Row<Item>,
}

/// A combination that is to be ended, by the place of its frontier and by its number there.
#[derive(Clone, Copy, Debug)]
pub(crate) struct Job {
    pub(crate) place: usize,
    pub(crate) id: u32,
}

/// What is found of a task's vertices ahead of their turn: what becomes of the first ones, or none where that isn't found; and how many
/// spent their attempts.
#[derive(Drop)]
pub(crate) struct Ahead {
    pub(crate) found: Vec<Option<VertexProof>>,
    hard: usize,
}

impl Ahead {
    /// Nothing is found.
    pub(crate) fn nothing(alloc: Global) -> Ahead
        ensures { result.found.items ≡ [] }
    {
        Ahead {
            found: Vec::new(alloc),
            hard: 0,
        }
    }
}

/// What becomes of some vertices of a task from this one on, as far as it is found side by side. First the caller attempts them, in file
/// order, with as few steps as it takes to begin threads. Where that is too little for some, workers end the combinations that are still
/// open in their frontiers, each those that it takes, and the parts are put together. A combination has one proof, so it is the proof
/// that one frontier gives. There is none for a vertex that has no proof within the budget, or of which a part is wanting.
///
/// From a vertex on that spends its attempt the task may end there, and what is done of those behind it is in vain. So these are seven
/// at most, and one more for each vertex that spent its attempt before and passed: that costs no more than they did.
///
/// The gate sees each turn in which a worker takes a combination, and none of the attempts.
pub(crate) fn prove_by_parts<G: Gate, R: Threads + Wait + Sync>(
    crew: &Crew<'_, G, R>,
    posed: &Posed<'_>,
    from: u32,
    ahead: Ahead,
    few: Effort,
) -> Result<Ahead, Memory>
    requires few { length posed.now.roots.now ≤ 31 }
    requires roots { (v : ℕ) → v < vertex_count posed.now.graph.now → AreChosen (deadline posed.now.graph.now v) posed.now.forest.now.pool posed.now.roots.now }
    requires from { length ahead.found.items ≡ from }
    requires given { AreGiven posed.now.forest.now posed.now.roots.now posed.now.graph.now ahead.found.items }
    ensures { IfOk result (λ more. AreGiven posed.now.forest.now posed.now.roots.now posed.now.graph.now more.found.items) }
{
    over_every_interleaving();
    let Ahead { found, hard } = ahead;
    let most = hard.saturating_add(TOGETHER);
    let attempts = attempt_vertices(crew.alloc, posed, from, found, most, few)?;
    let Attempts { mut proofs, spent } = attempts;
    let hard = hard.saturating_add(spent.len());
    let tables = end_attempts(crew, posed.forest, spent.as_slice())?;
    let mut joints = joints_of(crew.alloc, posed, spent, tables)?;
    join_all(crew, posed.forest, joints.as_mut_slice());
    put_joints(posed, joints, &mut proofs)?;
    Ok(Ahead {
        found: proofs,
        hard,
    })
}

// The attempts with their parts, of which nothing is put together. The first attempt is the last one of them.
fn joints_of(
    alloc: Global,
    posed: &Posed<'_>,
    mut spent: Vec<Attempt>,
    mut tables: Vec<Vec<Option<Row<Item>>>>,
) -> Result<Vec<Joint>, Memory>
    requires each { All (IsAttempt posed.now.forest.now posed.now.roots.now posed.now.graph.now) spent.items }
    requires tables { HaveParts posed.now.forest.now spent.items tables.items }
    ensures { IfOk result (λ joints. AreJoints posed.now.forest.now posed.now.roots.now posed.now.graph.now joints.items) }
{
    let mut joints = Vec::with_capacity(alloc, spent.len())?;
    while let Some(attempt) = spent.pop() {
        let Some(parts) = tables.pop() else {
            unreachable!();
        };
        joints.push(Joint::of(attempt, parts))?;
    }
    Ok(joints)
}

// Puts the proofs that were put together to their vertices, from the last joint on.
fn put_joints(
    posed: &Posed<'_>,
    mut joints: Vec<Joint>,
    proofs: &mut Vec<Option<VertexProof>>,
) -> Result<(), Memory>
    requires joints { AreJoints posed.now.forest.now posed.now.roots.now posed.now.graph.now joints.items }
    requires given { AreGiven posed.now.forest.now posed.now.roots.now posed.now.graph.now proofs.old.items }
    ensures { OnOk result (AreGiven posed.now.forest.now posed.now.roots.now posed.now.graph.now proofs.new.items) }
{
    while let Some(joint) = joints.pop() {
        put_joint(posed, joint, proofs)?;
    }
    Ok(())
}

// Puts the proof of a joint to its vertex, if there is one.
fn put_joint(
    posed: &Posed<'_>,
    joint: Joint,
    proofs: &mut Vec<Option<VertexProof>>,
) -> Result<(), Memory>
    requires joint { IsJointOf posed.now.forest.now posed.now.roots.now posed.now.graph.now joint }
    requires given { AreGiven posed.now.forest.now posed.now.roots.now posed.now.graph.now proofs.old.items }
    ensures { OnOk result (AreGiven posed.now.forest.now posed.now.roots.now posed.now.graph.now proofs.new.items) }
{
    every_forest();
    let Joint { attempt, items, .. } = joint;
    if let Some(items) = items? {
        put_proof(attempt.vertex, items, proofs);
    }
    Ok(())
}

// Puts a proof to its vertex.
fn put_proof(vertex: u32, items: Row<Item>, proofs: &mut Vec<Option<VertexProof>>)
    ensures { AreWith vertex (PassesBy items) proofs.old.items proofs.new.items }
{
    if let Some(proof) = proofs.get_mut(vertex as usize) {
        *proof = Some(VertexProof::Passes(items));
    }
}

// The parts that workers make of the combinations that are open in the frontiers of these attempts, a table for each of them. The gate
// sees each turn of theirs.
fn end_attempts<G: Gate, R: Threads + Wait + Sync>(
    crew: &Crew<'_, G, R>,
    forest: &Forest,
    spent: &[Attempt],
) -> Result<Vec<Vec<Option<Row<Item>>>>, Memory>
    requires { All (CanBeEnded forest.now) spent.now }
    ensures { IfOk result (λ tables. HaveParts forest.now spent.now tables.items) }
{
    let mut tables = no_tables(crew.alloc, spent)?;
    if spent.is_empty() {
        return Ok(tables);
    }
    let jobs = open_jobs(crew.alloc, spent)?;
    let race = Race::start(crew.alloc, spent.len(), crew.effort.budget() / 2)?;
    let lists = share(crew, forest, spent, jobs.as_slice(), &race)?;
    put_lists(forest, spent, lists, &mut tables)?;
    Ok(tables)
}

// The combinations that are open in the frontiers of these attempts, in file order.
fn open_jobs(alloc: Global, spent: &[Attempt]) -> Result<Vec<Job>, Memory>
    ensures { IfOk result (λ jobs. All (IsJob spent.now) jobs.items) }
{
    let mut jobs = Vec::new(alloc);
    for place in 0..spent.len() {
        add_jobs(spent, place, &mut jobs)?;
    }
    Ok(jobs)
}

// Adds the combinations that are open in one frontier.
fn add_jobs(spent: &[Attempt], place: usize, jobs: &mut Vec<Job>) -> Result<(), Memory>
    requires place { place < length spent.now }
    requires jobs { All (IsJob spent.now) jobs.old.items }
    ensures { OnOk result (All (IsJob spent.now) jobs.new.items) }
{
    let frontier = &spent[place].frontier;
    for id in 0..frontier.count() {
        if is_open(frontier.state(id)) {
            jobs.push(Job { place, id })?;
        }
    }
    Ok(())
}

// Whether a combination is neither passed nor split nor failed.
fn is_open(state: CombinationState) -> bool {
    match state {
        CombinationState::Pending => true,
        CombinationState::Taken(_) => true,
        CombinationState::Passed(_) => false,
        CombinationState::Split { .. } => false,
        CombinationState::Failed => false,
    }
}

// Shares combinations among workers. Each list has the parts that a worker made. The gate sees each turn of theirs.
fn share<G: Gate, R: Threads + Wait + Sync>(
    crew: &Crew<'_, G, R>,
    forest: &Forest,
    spent: &[Attempt],
    jobs: &[Job],
    race: &Race,
) -> Result<Vec<Result<Vec<Part>, Memory>>, Memory>
    requires spent { All (CanBeEnded forest.now) spent.now }
    requires jobs { All (IsJob spent.now) jobs.now }
    ensures { IfOk result (λ lists. All (λ list. IfOk list (λ parts. All (IsPartOf forest.now spent.now) parts.items)) lists.items) }
{
    let alloc = crew.alloc;
    let gate = crew.gate;
    let worker = move |number: usize| -> Result<Vec<Part>, Memory>
        requires { All (CanBeEnded forest.now) spent.now × All (IsJob spent.now) jobs.now }
        ensures { IfOk result (λ parts. All (IsPartOf forest.entry.now spent.entry.now) parts.items) }
    { end_next(alloc, forest, spent, jobs, race, number, gate) };
    thread::map_indices(crew.rt, alloc, worker_limit(crew, jobs.len()), &worker)
}

/// How many workers are begun for so many pieces of work.
pub(crate) fn worker_limit<G: Gate, R: Threads>(crew: &Crew<'_, G, R>, pieces: usize) -> usize {
    let most = pieces.min(crew.effort.workers() as usize);
    match available_parallelism(crew.rt) {
        Ok(processors) => most.min(processors.get()),
        Err(_) => most.min(1),
    }
}

// One worker's part: it ends the next open combination until each was begun, or one has no end. Then none of that frontier or of a later
// one is begun. The gate sees each turn before its combination is taken.
fn end_next<G: Gate>(
    alloc: Global,
    forest: &Forest,
    spent: &[Attempt],
    jobs: &[Job],
    race: &Race,
    worker: usize,
    gate: &G,
) -> Result<Vec<Part>, Memory>
    requires spent { All (CanBeEnded forest.now) spent.now }
    requires jobs { All (IsJob spent.now) jobs.now }
    ensures { IfOk result (λ parts. All (IsPartOf forest.now spent.now) parts.items) }
{
    let mut parts = Vec::new(alloc);
    for turn in 0..jobs.len() {
        gate.before(worker.min(u32::MAX as usize) as u32, turn as u64);
        let number = race.take_next();
        if number >= jobs.len() as u64 {
            return Ok(parts);
        }
        let job = jobs[number as usize];
        match end_job(alloc, forest, spent, job, race)? {
            Some(part) => parts.push(part)?,
            None => {
                race.give_up(job.place);
                return Ok(parts);
            }
        }
    }
    Ok(parts)
}

// Ends a combination. None where it has no end, or where its frontier or one before it is wanting.
fn end_job(
    alloc: Global,
    forest: &Forest,
    spent: &[Attempt],
    job: Job,
    race: &Race,
) -> Result<Option<Part>, Memory>
    requires spent { All (CanBeEnded forest.now) spent.now }
    requires job { IsJob spent.now job }
    ensures { IfOk result (λ some. IfSome some (IsPartOf forest.now spent.now)) }
{
    let Job { place, id } = job;
    if !race.goes_on(place) {
        return Ok(None);
    }
    let attempt = &spent[place];
    let nodes = attempt.frontier.combination(id);
    match end_combination(
        alloc,
        forest,
        nodes,
        attempt.wcet,
        attempt.deadline,
        place,
        race,
    )? {
        Some(items) => Ok(Some(Part { place, id, items })),
        None => Ok(None),
    }
}

/// The items that end a combination: its own, then those of its left half, then those of its right half. None where a combination
/// below it fails, or where its frontier, at this place, or one before it is wanting.
pub(crate) fn end_combination(
    alloc: Global,
    forest: &Forest,
    nodes: &[u32],
    wcet: u32,
    deadline: u32,
    place: usize,
    race: &Race,
) -> Result<Option<Row<Item>>, Memory>
    requires can { CanEnd forest.now wcet deadline nodes.now }
    requires wcet { wcet ≤ most_time }
    requires deadline { deadline ≤ most_time }
    ensures { IfOk result (λ some. IfSome some (AreEndOf forest.now wcet deadline nodes.now)) }
{
    let mut items = Vec::new(alloc);
    let mut spare = Vec::new(alloc);
    let mut stack = Vec::new(alloc);
    stack.push(Row::from_vec(Vec::from_slice(alloc, nodes)?))?;
    for _ in 0..race.most() {
        let Some(top) = stack.pop() else {
            return Ok(Some(Row::from_vec(items)));
        };
        match take_next(alloc, forest, top, wcet, deadline, &mut stack, &mut spare)? {
            Some(item) => items.push(item)?,
            None => return Ok(None),
        }
        if !race.may_go_on(place, items.len()) {
            return Ok(None);
        }
    }
    Ok(None)
}

// The item of a combination: the least time that passes, or the widest place where none does. Then its halves come on the stack, the
// left one on top; the row of one that passes is spare then. None where it fails.
fn take_next(
    alloc: Global,
    forest: &Forest,
    nodes: Row<u32>,
    wcet: u32,
    deadline: u32,
    stack: &mut Vec<Row<u32>>,
    spare: &mut Vec<Row<u32>>,
) -> Result<Option<Item>, Memory>
    requires can { CanEnd forest.now wcet deadline nodes }
    requires wcet { wcet ≤ most_time }
    requires deadline { deadline ≤ most_time }
    ensures { IfOk result (λ some. IfSome some (IsNextItem forest.now wcet deadline nodes stack.old.items stack.new.items)) }
{
    let combination = nodes.as_slice();
    if let Some(time) = least_time(wcet as u64, deadline as u64, forest.all(), combination) {
        spare.push(nodes)?;
        return Ok(Some(Item::Pass(time)));
    }
    let Some(place) = choose_place(forest, combination) else {
        return Ok(None);
    };
    let node = combination[place as usize];
    match forest.children(node) {
        None => unreachable!(),
        Some((left, right)) => {
            let other = copy_of(alloc, combination, spare)?;
            stack.push(with_node(other, place, right))?;
            stack.push(with_node(nodes, place, left))?;
            Ok(Some(Item::Split(place)))
        }
    }
}

// The nodes again, in the room of a spare row where there is one.
fn copy_of(alloc: Global, nodes: &[u32], spare: &mut Vec<Row<u32>>) -> Result<Row<u32>, Memory>
    ensures { IfOk result (λ row. row ≡ nodes.now) }
{
    let mut copy = match spare.pop() {
        None => Vec::new(alloc),
        Some(row) => row.into_vec(),
    };
    copy.clear();
    copy.extend_from_slice(nodes)?;
    Ok(Row::from_vec(copy))
}

// The nodes with another one at a place.
fn with_node(nodes: Row<u32>, place: u32, node: u32) -> Row<u32>
    requires { place < length nodes }
    ensures { result ≡ slice_set nodes place node }
{
    let mut nodes = nodes.into_vec();
    nodes[place as usize] = node;
    Row::from_vec(nodes)
}

// A table for each of the attempts, with a place for the part of each combination.
fn no_tables(alloc: Global, spent: &[Attempt]) -> Result<Vec<Vec<Option<Row<Item>>>>, Memory>
    ensures count { IfOk result (λ tables. length tables.items ≡ length spent.now) }
    ensures none { IfOk result (λ tables. (f : Plain) → AreTables f spent.now tables.items) }
{
    let mut tables = Vec::with_capacity(alloc, spent.len())?;
    for place in 0..spent.len() {
        tables.push(no_parts(alloc, spent[place].frontier.count())?)?;
    }
    Ok(tables)
}

// A place for the part of each of so many combinations.
fn no_parts(alloc: Global, count: u32) -> Result<Vec<Option<Row<Item>>>, Memory>
    ensures count { IfOk result (λ parts. length parts.items ≡ count) }
    ensures none { IfOk result (λ parts. All (λ part. part ≡ None) parts.items) }
{
    let mut parts = Vec::with_capacity(alloc, count as usize)?;
    for _ in 0..count {
        parts.push(None)?;
    }
    Ok(parts)
}

// Puts the parts of all workers to their places.
fn put_lists(
    forest: &Forest,
    spent: &[Attempt],
    mut lists: Vec<Result<Vec<Part>, Memory>>,
    tables: &mut Vec<Vec<Option<Row<Item>>>>,
) -> Result<(), Memory>
    requires lists { All (λ list. IfOk list (λ made. All (IsPartOf forest.now spent.now) made.items)) lists.items }
    requires tables { HaveParts forest.now spent.now tables.old.items }
    ensures { OnOk result (HaveParts forest.now spent.now tables.new.items) }
{
    while let Some(list) = lists.pop() {
        put_all(forest, spent, list?, tables);
    }
    Ok(())
}

// Puts the parts of one worker to their places.
fn put_all(
    forest: &Forest,
    spent: &[Attempt],
    mut list: Vec<Part>,
    tables: &mut Vec<Vec<Option<Row<Item>>>>,
)
    requires list { All (IsPartOf forest.now spent.now) list.items }
    requires tables { HaveParts forest.now spent.now tables.old.items }
    ensures { HaveParts forest.now spent.now tables.new.items }
{
    while let Some(part) = list.pop() {
        put(forest, spent, part, tables);
    }
}

// Puts a part to its place.
fn put(forest: &Forest, spent: &[Attempt], part: Part, tables: &mut Vec<Vec<Option<Row<Item>>>>)
    requires part { IsPartOf forest.now spent.now part }
    requires tables { HaveParts forest.now spent.now tables.old.items }
    ensures { HaveParts forest.now spent.now tables.new.items }
{
    let Part { place, id, items } = part;
    let table = &mut tables[place];
    table[id as usize] = Some(items);
}
