//! The greatest values of tails, each as one list of jumps.
ghost use Rattle.std.specs.Prelude.{◌≡◌, ◌<◌, ◌≤◌, ◌⊎◌, All, IfOk, IsTrue, false, length, slice_index_or};
ghost use Rattle.drt_states.specs.Tails.{no_jump};
ghost use Rattle.drt_check_states.specs.Crests.{AreCrests, AreUpTo, HasJump, IsGreatest, IsJoin};
ghost use Rattle.drt_check_states.specs.Curves.{HasRisingCurves, IsRising};

use drt_model::{Memory, Row};
use drt_states::{Jump, TailClaim};
use std::alloc::Global;

/// The greatest value of each tail as a list of jumps. Beside these lists it takes memory for the jumps of a tail a few times over.
pub fn find_crests(alloc: Global, tails: &[TailClaim]) -> Result<Row<Row<Jump>>, Memory>
    requires { All HasRisingCurves tails.now }
    ensures { IfOk result (λ crests. AreCrests tails.now crests) }
{
    let mut crests = Vec::new(alloc);
    'tails: for i in 0..tails.len() {
        let crest = find_crest(alloc, tails[i].curves.as_slice())?;
        crests.push(Row::from_vec(crest))?;
    }
    Ok(Row::from_vec(crests))
}

// The greatest value of some functions. Each jump is looked at once for each halving of the functions.
fn find_crest(alloc: Global, curves: &[Row<Jump>]) -> Result<Vec<Jump>, Memory>
    requires { All IsRising curves.now }
    ensures { IfOk result (λ crest. IsGreatest curves.now crest.items) }
{
    if curves.is_empty() {
        return Ok(Vec::new(alloc));
    }
    if curves.len() == 1 {
        return join(alloc, curves[0].as_slice(), &[]);
    }
    let (front, back) = curves.split_at(curves.len() / 2);
    let first = find_crest(alloc, front)?;
    let second = find_crest(alloc, back)?;
    join(alloc, first.as_slice(), second.as_slice())
}

// The greater value of two functions, in one pass over both.
fn join(alloc: Global, a: &[Jump], b: &[Jump]) -> Result<Vec<Jump>, Memory>
    requires first { IsRising a.now }
    requires second { IsRising b.now }
    ensures { IfOk result (λ joined. IsJoin a.now b.now joined.items) }
{
    let mut joined = Vec::with_capacity(alloc, a.len().saturating_add(b.len()))?;
    let mut i = 0;
    let mut j = 0;
    'jumps: while i < a.len() || j < b.len() {
        if takes_first(a, b, i, j) {
            add_jump(&mut joined, a[i])?;
            i += 1;
            continue;
        }
        add_jump(&mut joined, b[j])?;
        j += 1;
    }
    Ok(joined)
}

// Whether the jump of number i of the first list comes next, and not that of number j of the second one.
fn takes_first(a: &[Jump], b: &[Jump], i: usize, j: usize) -> bool
    requires { i < length a.now ⊎ j < length b.now }
    ensures first { IsTrue result → (i < length a.now) × (j < length b.now → (slice_index_or a.now i no_jump).offset ≤ (slice_index_or b.now j no_jump).offset) }
    ensures second { result ≡ false → (j < length b.now) × (i < length a.now → (slice_index_or b.now j no_jump).offset ≤ (slice_index_or a.now i no_jump).offset) }
{
    if i >= a.len() {
        return false;
    }
    if j >= b.len() {
        return true;
    }
    a[i].offset <= b[j].offset
}

// Adds a jump behind those up to its offset, as far as it goes higher than they do.
fn add_jump(joined: &mut Vec<Jump>, jump: Jump) -> Result<(), Memory>
    requires rising { IsRising joined.old.items }
    requires last { AreUpTo jump.offset joined.old.items }
    ensures { IfOk result (λ u. HasJump joined.old.items jump joined.new.items) }
{
    let Some(last) = joined.pop() else {
        joined.push(jump)?;
        return Ok(());
    };
    if jump.work <= last.work {
        joined.push(last)?;
        return Ok(());
    }
    if last.offset < jump.offset {
        joined.push(last)?;
        joined.push(jump)?;
        return Ok(());
    }
    joined.push(jump)?;
    Ok(())
}
