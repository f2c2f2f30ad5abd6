//! The greatest least time over all tuples below some roots.
ghost use Rattle.std.specs.Prelude.{◌≡◌, ◌≢◌, ℕ, ◌+◌, ◌-◌, ◌<◌, ◌≤◌, List, [], Some, length, slice_get, false, true, IfOk, IfSome, IfNone, IsSome, option_map, vec_len};
ghost use Rattle.std.specs.Result.{OnOk};
ghost use Rattle.drt_lock.specs.Rule.{all_parts};
ghost use Rattle.drt_model.specs.Numbers.{most_time};
ghost use Rattle.drt_tree.specs.Tree.{IsForest};
ghost use Rattle.drt_refine.specs.Below.{AreBelow, AreNodes};
ghost use Rattle.drt_worst.specs.Splitting.{AreParts, IsPart};
ghost use Rattle.drt_worst.specs.Runs.{AreDealt};
ghost use Rattle.drt_worst.specs.Rising.{split_left, joined_views, fresh_view};
ghost use Rattle.drt_worst.specs.Splitting.{search_for};
ghost use Rattle.drt_worst.specs.Subjects.{search_over};
ghost use Rattle.drt_worst.specs.Plans.{CanTake};
ghost use Rattle.drt_worst.specs.Passing.{search_of_question, IsSeatOf, HasRun, IsSearchReady, IsGreatestRaised, IsNotedIn};
ghost use Rattle.drt_pool.specs.Turns.{EachPlace};
ghost use Rattle.drt_worst.specs.Jobs.{IsPassOpened, IsDoneOf, IsHaltedOf, IsToldAs};
ghost use Rattle.drt_worst.specs.Worst.{IsWorst};
ghost use Rattle.drt_worst.specs.declared.answer.Worst.TheVariants.{Spent};
ghost use Rattle.drt_steps.specs.Time.{AreChosen, Passes};

use crate::answer::Worst;
use crate::pass::{Pass, Question, Taken};
use crate::plan::halves;
use crate::subject::Subject;
use crate::turn::SearchJob;
use crate::view::View;
use crate::word::Word;
use atomic_table::Seat;
use drt_crew::Crew;
use drt_model::Row;
use drt_pool::{Gate, run_all};
use drt_refine::choose_place;
use drt_tree::Forest;
use std::alloc::{AllocError as Memory, Global};
use std::snapshot::Snapshot;
use std::sync::Wait;
use std::thread::Threads;

// Splits the first of the combinations that isn't concrete, and says whether there was one.
fn split_first(alloc: Global, forest: &Forest, dealt: &mut Vec<Row<u32>>) -> Result<bool, Memory>
    requires forest { IsForest forest.now }
    requires nodes { (k : ℕ) (c : List ℕ) → slice_get dealt.old.items k ≡ Some c → AreNodes forest.now c × (length c ≤ 31) }
    ensures dealt { OnOk result ((roots : List ℕ) → AreDealt forest.now roots dealt.old.items → AreDealt forest.now roots dealt.new.items) }
    ensures few { OnOk result (length dealt.new.items ≤ length dealt.old.items + 1) }
    ensures some { OnOk result (length dealt.old.items ≤ length dealt.new.items) }
{
    for i in 0..dealt.len() {
        let combination = dealt[i].as_slice();
        match choose_place(forest, combination) {
            Some(place) => {
                let (left, right) = halves(alloc, forest, combination, place)?;
                dealt[i] = left;
                dealt.push(right)?;
                return Ok(true);
            }
            None => {}
        }
    }
    Ok(false)
}

// A pass that begins with this combination.
fn open_one(
    alloc: Global,
    word: &Word<Question>,
    owner: &mut Seat<(), View>,
    combination: Row<u32>,
    told: bool,
) -> Result<Pass, Memory>
    requires name { owner.old.table_id ≡ word.now.name }
    requires parts { 1 < owner.old.me.0.parts }
    requires part { IsPart (search_of_question word.now.about).forest word.now.about.roots.value combination }
    ensures name { owner.new.table_id ≡ owner.old.table_id }
    ensures owner { IfOk result (λ p. owner.new.me ≡ (split_left owner.old.me.0, owner.old.me.1)) }
    ensures seat { IfOk result (λ p. IsSeatOf word.now.name p) }
    ensures runs { IfOk result (λ p. HasRun (search_of_question word.now.about) word.now.about.roots.value p) }
    ensures new { IfOk result (λ p. (p.failed ≡ false) × (p.taken.count ≡ 0) × (p.start ≡ combination) × IsToldAs told p) }
{
    let start = Row::from_vec(Vec::from_slice(alloc, combination.as_slice())?);
    let mut stack = Vec::with_capacity(alloc, 1)?;
    stack.push(combination)?;
    let seat = word.split(owner);
    Ok(Pass {
        start,
        stack,
        taken: Taken::nothing(alloc, told),
        known: 0,
        best: 0,
        leaves: Row::from_vec(Vec::new(alloc)),
        seat,
        failed: false,
    })
}

// Takes in a pass that has ended, and keeps the greater value that was reached.
fn absorb(
    word: &Word<Question>,
    owner: &mut Seat<(), View>,
    best: &mut u64,
    leaves: &mut Row<u32>,
    pass: Pass,
)
    requires name { owner.old.table_id ≡ word.now.name }
    requires part { 0 < owner.old.me.0.parts }
    requires seat { IsSeatOf word.now.name pass }
    requires runs { HasRun (search_of_question word.now.about) word.now.about.roots.value pass }
    requires best { IsGreatestRaised (search_of_question word.now.about) word.now.about.roots.value best.old leaves.old owner.old.me.0 }
    ensures name { owner.new.table_id ≡ owner.old.table_id }
    ensures parts { owner.new.me.0.parts ≡ owner.old.me.0.parts + 1 }
    ensures best { IsGreatestRaised (search_of_question word.now.about) word.now.about.roots.value best.new leaves.new owner.new.me.0 }
    ensures known { IsNotedIn pass.known owner.new.me.0 }
    ensures kept { (n : ℕ) → IsNotedIn n owner.old.me.0 → IsNotedIn n owner.new.me.0 }
{
    let Pass {
        seat,
        best: own_best,
        leaves: own_leaves,
        ..
    } = pass;
    word.join(owner, seat);
    if own_best > *best {
        *best = own_best;
        *leaves = own_leaves;
    }
}

// Splits the roots until there is a combination for each worker, or all are concrete.
fn deal(
    alloc: Global,
    forest: &Forest,
    roots: &[u32],
    workers: u32,
) -> Result<Vec<Row<u32>>, Memory>
    requires forest { IsForest forest.now }
    requires take { (deadline : ℕ) × CanTake forest.now deadline roots.now }
    requires workers { 1 ≤ workers }
    ensures dealt { IfOk result (λ v. AreDealt forest.now roots.now v.items) }
    ensures few { IfOk result (λ v. vec_len v ≤ workers) }
{
    let mut dealt = Vec::new(alloc);
    dealt.push(Row::from_vec(Vec::from_slice(alloc, roots)?))?;
    for _ in 1..workers {
        if !split_first(alloc, forest, &mut dealt)? {
            break;
        }
    }
    Ok(dealt)
}

// A pass for each of the combinations.
fn open_all(
    alloc: Global,
    word: &Word<Question>,
    owner: &mut Seat<(), View>,
    dealt: &[Row<u32>],
    told: bool,
) -> Result<Vec<Pass>, Memory>
    requires name { owner.old.table_id ≡ word.now.name }
    requires owner { owner.old.me ≡ (fresh_view all_parts, []) }
    requires few { length dealt.now ≤ 16 }
    requires parts { AreParts (search_of_question word.now.about).forest word.now.about.roots.value dealt.now }
    ensures name { owner.new.table_id ≡ owner.old.table_id }
    ensures owner { IfOk result (λ ps. owner.new.me.0 ≡ fresh_view (all_parts - length dealt.now)) }
    ensures passes { IfOk result (λ ps. (length ps.items ≡ length dealt.now) × EachPlace (IsPassOpened word.now dealt.now told) ps.items) }
{
    let mut passes = Vec::new(alloc);
    for i in 0..dealt.len() {
        let combination = Row::from_vec(Vec::from_slice(alloc, dealt[i].as_slice())?);
        passes.push(open_one(alloc, word, owner, combination, told)?)?;
    }
    Ok(passes)
}

// Whether a pass found no memory.
fn has_failed(passes: &[Pass]) -> bool
    ensures { result ≡ false → EachPlace (λ place p. p.failed ≡ false) passes.now }
{
    for i in 0..passes.len() {
        if passes[i].failed {
            return true;
        }
    }
    false
}

// The first pass that has something left.
fn first_unfinished(passes: &[Pass]) -> Option<usize>
    ensures some { IfSome result (λ k. (p : Pass) × (slice_get passes.now k ≡ Some p) × (p.stack.items ≢ [])) }
    ensures none { IfNone result (EachPlace (λ place p. p.stack.items ≡ []) passes.now) }
{
    for i in 0..passes.len() {
        if !passes[i].stack.is_empty() {
            return Some(i);
        }
    }
    None
}

// Takes in all passes, which are done.
fn absorb_all(
    word: &Word<Question>,
    owner: &mut Seat<(), View>,
    best: &mut u64,
    leaves: &mut Row<u32>,
    mut passes: Vec<Pass>,
)
    requires name { owner.old.table_id ≡ word.now.name }
    requires owner { owner.old.me.0 ≡ fresh_view (all_parts - length passes.items) }
    requires few { length passes.items ≤ 16 }
    requires best { best.old ≡ 0 }
    requires passes { EachPlace (IsDoneOf word.now) passes.items }
    ensures name { owner.new.table_id ≡ owner.old.table_id }
    ensures parts { owner.new.me.0.parts ≡ all_parts }
    ensures best { IsGreatestRaised (search_of_question word.now.about) word.now.about.roots.value best.new leaves.new owner.new.me.0 }
    ensures known { (i : ℕ) (p : Pass) → slice_get passes.items i ≡ Some p → IsNotedIn p.known owner.new.me.0 }
{
    while let Some(pass) = passes.pop() {
        absorb(word, owner, best, leaves, pass);
    }
}

// Takes in all passes, which are done, and closes the word.
fn gather(
    alloc: Global,
    word: Word<Question>,
    mut owner: Seat<(), View>,
    passes: Vec<Pass>,
) -> Worst
    requires name { owner.table_id ≡ word.name }
    requires owner { owner.me.0 ≡ fresh_view (all_parts - length passes.items) }
    requires few { length passes.items ≤ 16 }
    requires ready { IsSearchReady (search_of_question word.about) word.about.roots.value }
    requires passes { EachPlace (IsDoneOf word) passes.items }
    requires dealt { (dealt : List (List ℕ)) × AreDealt (search_of_question word.about).forest word.about.roots.value dealt × (length passes.items ≡ length dealt) × EachPlace (λ place p. slice_get dealt place ≡ Some p.start) passes.items }
    ensures { (budget : ℕ) → IsWorst (search_of_question word.about) word.about.roots.value budget result }
{
    let mut best = 0;
    let mut leaves = Row::from_vec(Vec::new(alloc));
    absorb_all(&word, &mut owner, &mut best, &mut leaves, passes);
    word.close(owner);
    Worst::Reached {
        ticks: best,
        leaves,
    }
}

// What is said of a pass that spent its budget, where it's told what it took.
fn spent_on(taken: Taken) -> Option<Worst>
    ensures { result ≡ option_map (λ v. Spent v.items) taken.told }
{
    match taken.told {
        Some(list) => Some(Worst::Spent {
            taken: Row::from_vec(list),
        }),
        None => None,
    }
}

// What the passes found, once all have stopped: nothing where one of them spent the budget and what it took isn't told.
fn finish(
    alloc: Global,
    word: Word<Question>,
    owner: Seat<(), View>,
    mut passes: Vec<Pass>,
    budget: u64,
) -> Result<Option<Worst>, Memory>
    requires name { owner.table_id ≡ word.name }
    requires owner { owner.me.0 ≡ fresh_view (all_parts - length passes.items) }
    requires few { length passes.items ≤ 16 }
    requires ready { IsSearchReady (search_of_question word.about) word.about.roots.value }
    requires passes { EachPlace (IsHaltedOf word budget) passes.items }
    requires dealt { (dealt : List (List ℕ)) × AreDealt (search_of_question word.about).forest word.about.roots.value dealt × (length passes.items ≡ length dealt) × EachPlace (λ place p. slice_get dealt place ≡ Some p.start) passes.items }
    ensures worst { IfOk result (λ o. IfSome o (λ w. IsWorst (search_of_question word.about) word.about.roots.value budget w)) }
    ensures told { EachPlace (λ place p. IsSome p.taken.told) passes.items → IfOk result (λ o. IsSome o) }
{
    if has_failed(passes.as_slice()) {
        return Err(Memory);
    }
    match first_unfinished(passes.as_slice()) {
        Some(place) => {
            let Pass { taken, .. } = passes.remove(place);
            Ok(spent_on(taken))
        }
        None => Ok(Some(gather(alloc, word, owner, passes))),
    }
}

// Turns the passes until all have stopped.
fn run_passes<G: Gate, R: Threads + Wait + Sync>(
    crew: &Crew<'_, G, R>,
    word: &Word<Question>,
    subject: Subject<'_>,
    dealt: &[Row<u32>],
    told: bool,
    passes: &mut [Pass],
)
    requires about { search_of_question word.now.about ≡ search_over subject }
    requires ready { IsSearchReady (search_over subject) word.now.about.roots.value }
    requires few { length passes.old ≤ 16 }
    requires passes { EachPlace (IsPassOpened word.now dealt.now told) passes.old }
    ensures count { length passes.new ≡ length passes.old }
    ensures halted { EachPlace (IsHaltedOf word.now crew.now.effort.budget) passes.new }
    ensures told { EachPlace (λ place p. IsToldAs told p) passes.new }
    ensures dealt { EachPlace (λ place p. slice_get dealt.now place ≡ Some p.start) passes.new }
{
    let job = SearchJob {
        alloc: crew.alloc,
        word,
        subject,
        budget: crew.effort.budget(),
        dealt,
        told: Snapshot::of(&told),
    };
    run_all(crew.rt, &job, passes, crew.gate);
}

// The search, for roots whose least time can be looked for: nothing where a pass spent the budget and it isn't told what they take.
fn search_tree<G: Gate, R: Threads + Wait + Sync>(
    crew: &Crew<'_, G, R>,
    subject: Subject<'_>,
    roots: &[u32],
    told: bool,
) -> Result<Option<Worst>, Memory>
    requires ready { IsSearchReady (search_over subject) roots.now }
    ensures worst { IfOk result (λ o. IfSome o (λ w. IsWorst (search_over subject.entry) roots.now crew.now.effort.budget w)) }
    ensures told { told ≡ true → IfOk result (λ o. IsSome o) }
{
    let alloc = crew.alloc;
    let row = Row::from_vec(Vec::from_slice(alloc, roots)?);
    let question = Question {
        forest: Snapshot::of(subject.forest),
        roots: Snapshot::of(&row),
        wcet: subject.wcet,
        deadline: subject.deadline,
    };
    let (word, mut owner) = Word::new(alloc, Snapshot::of(&question))?;
    let dealt = deal(alloc, subject.forest, roots, crew.effort.workers())?;
    let mut passes = open_all(alloc, &word, &mut owner, dealt.as_slice(), told)?;
    run_passes(
        crew,
        &word,
        subject,
        dealt.as_slice(),
        told,
        passes.as_mut_slice(),
    );
    finish(alloc, word, owner, passes, crew.effort.budget())
}

/// The greatest of the least times that pass for a vertex of this wcet and deadline, in ticks, over all tuples of leaves below the
/// roots, with a tuple that has it; or what one worker took that began at the roots and spent the budget.
///
/// The roots are first split until there is a combination for each worker. Then each pass takes its combinations depth first. All
/// passes share a word that holds the greatest value reached so far: a combination whose least time isn't above it is skipped
/// (Stigge and Yi, RTSS 2013).
///
/// What a pass took is only counted. Where a pass spends the budget, one worker searches once more from the roots and keeps what it
/// takes, to be told where it spends the budget too. Where it doesn't, what it reached stands.
pub fn worst<G: Gate, R: Threads + Wait + Sync>(
    crew: &Crew<'_, G, R>,
    forest: &Forest,
    roots: &[u32],
    wcet: u32,
    deadline: u32,
) -> Result<Worst, Memory>
    requires few { length roots.now ≤ 31 }
    requires roots { AreChosen deadline forest.now.pool roots.now }
    requires wcet { (1 ≤ wcet) × (wcet ≤ most_time) }
    requires deadline { (1 ≤ deadline) × (deadline ≤ most_time) }
    requires passes { (tuple : List ℕ) → AreBelow forest.now tuple roots.now → (t : ℕ) × Passes wcet deadline forest.now.pool tuple t }
    ensures { IfOk result (λ w. IsWorst (search_for forest.now wcet deadline) roots.now crew.now.effort.budget w) }
{
    forest.show_sound();
    let subject = Subject {
        forest,
        wcet,
        deadline,
    };
    if let Some(found) = search_tree(crew, subject, roots, false)? {
        return Ok(found);
    }
    // The other search is over, and its memory is free again.
    let one = crew.with(crew.effort.alone());
    match search_tree(&one, subject, roots, true)? {
        Some(found) => Ok(found),
        None => unreachable!(),
    }
}
