//! What one pass owns, and one turn of it.
ghost use Rattle.std.specs.Prelude.{◌≡◌, ◌≢◌, ℕ, ◌++◌, ◌+◌, ◌^◌, ◌<◌, ◌≤◌, List, [], ◌∷◌, reverse, false, true, IfOk, IfSome, IsSome};
ghost use Rattle.std.specs.Result.{OnOk};
ghost use Rattle.drt_worst.specs.Splitting.{IsReached};
ghost use Rattle.drt_worst.specs.Runs.{known, left_after, reaches};
ghost use Rattle.drt_worst.specs.Rising.{with_raised};
ghost use Rattle.drt_worst.specs.Subjects.{search_over};
ghost use Rattle.drt_worst.specs.Plans.{choice_of};
ghost use Rattle.drt_worst.specs.Passing.{search_of_question, announced, best_after, leaves_after, IsSeatOf, HasRun, HasRunWith, IsSearchReady};

use crate::plan::{Plan, make_plan};
use crate::rule::Meaning;
use crate::subject::Subject;
use crate::view::View;
use crate::word::Word;
use atomic_table::Seat;
use drt_model::Row;
use drt_tree::Forest;
use std::alloc::{AllocError as Memory, Global};
use std::snapshot::Snapshot;

/// What the word is about. It has no bytes but the two numbers.
#[derive(Drop)]
pub(crate) struct Question {
    pub(crate) forest: Snapshot<Forest>,
    pub(crate) roots: Snapshot<Row<u32>>,
    pub(crate) wcet: u32,
    pub(crate) deadline: u32,
}

impl Meaning for Question {
    ghost is_reached = { λ q ticks. (tuple : List ℕ) × IsReached (search_of_question q) q.roots.value ticks tuple };
}

/// How many combinations a pass took, and which ones, where that is told.
#[derive(Drop)]
pub(crate) struct Taken {
    pub(crate) count: u64,
    pub(crate) told: Option<Vec<Row<u32>>>,
}

impl Taken {
    /// None so far.
    pub(crate) fn nothing(alloc: Global, told: bool) -> Taken
        ensures count { result.count ≡ 0 }
        ensures list { IfSome result.told (λ v. v.items ≡ []) }
        ensures told { told ≡ true → IsSome result.told }
    {
        let list = if told { Some(Vec::new(alloc)) } else { None };
        Taken {
            count: 0,
            told: list,
        }
    }

    // One more.
    fn note(&mut self, combination: Row<u32>) -> Result<(), Memory>
        requires room { self.old.count + 1 < 2 ^ 64 }
        ensures count { OnOk result (self.new.count ≡ self.old.count + 1) }
        ensures list { OnOk result ((list : List (List ℕ)) → IfSome self.old.told (λ v. list ≡ v.items) → IfSome self.new.told (λ v. list ++ combination ∷ [] ≡ v.items)) }
        ensures told { IsSome self.old.told → IsSome self.new.told }
    {
        if let Some(list) = &mut self.told {
            list.push(combination)?;
        }
        self.count += 1;
        Ok(())
    }
}

/// The combinations that a pass owns, and what it found.
#[derive(Drop)]
pub(crate) struct Pass {
    /// What was dealt to it.
    pub(crate) start: Row<u32>,
    /// What is left, the next one last.
    pub(crate) stack: Vec<Row<u32>>,
    pub(crate) taken: Taken,
    /// A value that was reached, as the pass knows.
    pub(crate) known: u64,
    /// The greatest value that the pass itself put into the word, and the combination that has it.
    pub(crate) best: u64,
    pub(crate) leaves: Row<u32>,
    pub(crate) seat: Seat<(), View>,
    pub(crate) failed: bool,
}

// The value that is known to be reached after the plan was followed.
fn known_by(plan: &Plan, seen: u64) -> u64
    ensures { result ≡ known seen (choice_of plan.now) }
{
    match plan {
        Plan::Skips => seen,
        Plan::Reaches(t) => *t,
        Plan::Splits(_, _) => seen,
    }
}

// Puts the value that was reached into the word.
fn announce(word: &Word<Question>, seat: &mut Seat<(), View>, plan: &Plan)
    requires name { seat.old.table_id ≡ word.now.name }
    requires part { 0 < seat.old.me.0.parts }
    requires reached { (t : ℕ) → choice_of plan.now ≡ reaches t → (tuple : List ℕ) × IsReached (search_of_question word.now.about) word.now.about.roots.value t tuple }
    ensures name { seat.new.table_id ≡ seat.old.table_id }
    ensures seat { seat.new.me ≡ (announced seat.old.me.0 (choice_of plan.now), seat.old.me.1) }
{
    match plan {
        Plan::Skips => {}
        Plan::Reaches(t) => word.raise(seat, *t),
        Plan::Splits(_, _) => {}
    }
}

// Keeps a combination that was reached.
fn keep_best(
    alloc: Global,
    plan: &Plan,
    combination: &[u32],
    best: &mut u64,
    leaves: &mut Row<u32>,
) -> Result<(), Memory>
    ensures best { OnOk result (best.new ≡ best_after best.old (choice_of plan.now)) }
    ensures leaves { OnOk result (leaves.new ≡ leaves_after leaves.old combination.now (choice_of plan.now)) }
{
    match plan {
        Plan::Skips => {}
        Plan::Reaches(t) => {
            let copy = Vec::from_slice(alloc, combination)?;
            *best = *t;
            *leaves = Row::from_vec(copy);
        }
        Plan::Splits(_, _) => {}
    }
    Ok(())
}

// Puts the parts of a combination that was split onto the stack, the left one as the next.
fn push_parts(stack: &mut Vec<Row<u32>>, plan: Plan) -> Result<(), Memory>
    ensures { OnOk result (reverse stack.new.items ≡ left_after (choice_of plan) (reverse stack.old.items)) }
{
    match plan {
        Plan::Skips => {}
        Plan::Reaches(_) => {}
        Plan::Splits(left, right) => {
            stack.push(right)?;
            stack.push(left)?;
        }
    }
    Ok(())
}

// Does with a combination what is to be done, and notes it.
fn follow(
    alloc: Global,
    word: &Word<Question>,
    subject: Subject<'_>,
    pass: &mut Pass,
    combination: Row<u32>,
) -> Result<(), Memory>
    requires about { search_of_question word.now.about ≡ search_over subject }
    requires ready { IsSearchReady (search_over subject) word.now.about.roots.value }
    requires seat { IsSeatOf word.now.name pass.old }
    requires room { pass.old.taken.count + 1 < 2 ^ 64 }
    requires runs { HasRunWith (search_over subject) word.now.about.roots.value (combination ∷ reverse pass.old.stack.items) pass.old }
    ensures seat { IsSeatOf word.now.name pass.new × (pass.new.start ≡ pass.old.start) }
    ensures runs { OnOk result (HasRun (search_over subject.entry) word.now.about.roots.value pass.new) }
    ensures count { OnOk result (pass.new.taken.count ≡ pass.old.taken.count + 1) }
    ensures told { IsSome pass.old.taken.told → IsSome pass.new.taken.told }
{
    let seen = word.glance(&mut pass.seat);
    let plan = make_plan(alloc, subject, combination.as_slice(), seen)?;
    let known = known_by(&plan, seen);
    announce(word, &mut pass.seat, &plan);
    keep_best(
        alloc,
        &plan,
        combination.as_slice(),
        &mut pass.best,
        &mut pass.leaves,
    )?;
    push_parts(&mut pass.stack, plan)?;
    pass.taken.note(combination)?;
    pass.known = known;
    Ok(())
}

/// Takes the next combination.
pub(crate) fn take(
    alloc: Global,
    word: &Word<Question>,
    subject: Subject<'_>,
    pass: &mut Pass,
) -> Result<(), Memory>
    requires about { search_of_question word.now.about ≡ search_over subject }
    requires ready { IsSearchReady (search_over subject) word.now.about.roots.value }
    requires seat { IsSeatOf word.now.name pass.old }
    requires room { pass.old.taken.count + 1 < 2 ^ 64 }
    requires runs { HasRun (search_over subject) word.now.about.roots.value pass.old }
    requires some { pass.old.stack.items ≢ [] }
    ensures seat { IsSeatOf word.now.name pass.new × (pass.new.start ≡ pass.old.start) }
    ensures runs { OnOk result (HasRun (search_over subject.entry) word.now.about.roots.value pass.new) }
    ensures count { OnOk result (pass.new.taken.count ≡ pass.old.taken.count + 1) }
    ensures told { IsSome pass.old.taken.told → IsSome pass.new.taken.told }
{
    match pass.stack.pop() {
        Some(combination) => follow(alloc, word, subject, pass, combination),
        None => unreachable!(),
    }
}
