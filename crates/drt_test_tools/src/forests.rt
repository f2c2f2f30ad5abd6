//! The forests, each of one tree.

ghost use Rattle.std.specs.Prelude.{◌≡◌, List, ℕ, true, []};
ghost use Rattle.drt_tree.specs.Leaf.{leaves_of};
ghost use Rattle.drt_tree.specs.Tree.{HaveOneBound};

use drt_label::Label;
use drt_model::{Memory, Row};
use drt_request::RequestLabel;
use drt_tree::Forest;
use std::alloc::Global;
use std::sync::Arc;

// How far the functions of the small trees go, in ticks.
const BOUND: u64 = 5;

// How far those of the tree of two even walks go, in ticks.
const EVEN_BOUND: u64 = 10;

// Whether the functions of all labels go to the bound.
fn go_to(bound: u64, labels: &[Arc<RequestLabel>]) -> bool
    ensures { result ≡ true → (walks : List (List ℕ)) → HaveOneBound [] (leaves_of labels.now walks) }
{
    for i in 0..labels.len() {
        let label = &labels[i];
        if label.steps().bound() != bound {
            return false;
        }
    }
    true
}

fn walk(alloc: Global, vertices: &[u32]) -> Result<Row<u32>, Memory> {
    Ok(Row::from_vec(Vec::from_slice(alloc, vertices)?))
}

// The forest of one tree over these labels and walks, whose functions go to the bound, and its root; none where they can't be those of one.
fn tree(
    alloc: Global,
    bound: u64,
    labels: &[Arc<RequestLabel>],
    walks: &[Row<u32>],
) -> Result<Option<(Forest, u32)>, Memory> {
    let is_whole = labels.len() >= 1 && labels.len() == walks.len() && labels.len() <= 100_000;
    if !(go_to(bound, labels) && is_whole) {
        return Ok(None);
    }
    let mut forest = Forest::empty(alloc);
    let root = forest.add(alloc, labels, walks)?;
    Ok(Some((forest, root)))
}

/// The tree of two walks, up to 5 ticks: one of 2 ticks, which is leaf 0, and one of 3 ticks, which is leaf 1. The root is 2.
pub fn two_walks(alloc: Global) -> Result<Option<(Forest, u32)>, Memory> {
    let labels = [
        Arc::new(alloc, RequestLabel::opening(alloc, 0, 3, BOUND)?)?,
        Arc::new(alloc, RequestLabel::opening(alloc, 1, 2, BOUND)?)?,
    ];
    let walks = [walk(alloc, &[0])?, walk(alloc, &[1])?];
    tree(alloc, BOUND, &labels, &walks)
}

/// The tree of three walks, up to 5 ticks: one of 2 ticks, which is leaf 0, one of 3 ticks, which is leaf 1, and one of 2 ticks and 2
/// more after 4 ticks, which is leaf 2. The root is 4, and its left part is 3.
pub fn three_walks(alloc: Global) -> Result<Option<(Forest, u32)>, Memory> {
    let twice = RequestLabel::opening(alloc, 1, 2, BOUND)?.extend(alloc, 4, 1, 2)?;
    let labels = [
        Arc::new(alloc, RequestLabel::opening(alloc, 0, 3, BOUND)?)?,
        Arc::new(alloc, RequestLabel::opening(alloc, 1, 2, BOUND)?)?,
        Arc::new(alloc, twice)?,
    ];
    let walks = [
        walk(alloc, &[0])?,
        walk(alloc, &[1])?,
        walk(alloc, &[1, 1])?,
    ];
    tree(alloc, BOUND, &labels, &walks)
}

/// The tree of two walks, up to 10 ticks: one of 3 ticks, which is leaf 0, and one of 2 ticks, 1 more after 2 ticks and 1 more after 4
/// ticks, which is leaf 1. A job of 1 tick is done after 4 ticks behind either of them. The root is 2.
pub fn even_walks(alloc: Global) -> Result<Option<(Forest, u32)>, Memory> {
    let opening = RequestLabel::opening(alloc, 1, 2, EVEN_BOUND)?;
    let next = opening.extend(alloc, 2, 2, 1)?;
    let labels = [
        Arc::new(alloc, RequestLabel::opening(alloc, 0, 3, EVEN_BOUND)?)?,
        Arc::new(alloc, next.extend(alloc, 2, 2, 1)?)?,
    ];
    let walks = [walk(alloc, &[0])?, walk(alloc, &[1, 2, 2])?];
    tree(alloc, EVEN_BOUND, &labels, &walks)
}

// How far those of the tree of twelve walks go, in ticks.
const LONG_BOUND: u64 = 30;

// One of the twelve walks.
fn one_of_twelve(alloc: Global, number: u32) -> Result<RequestLabel, Memory> {
    match number {
        0 => RequestLabel::opening(alloc, 0, 1, LONG_BOUND),
        1 => RequestLabel::opening(alloc, 0, 20, LONG_BOUND),
        2..=11 => RequestLabel::opening(alloc, 0, number, LONG_BOUND)?.extend(alloc, 25, 0, 20),
        _ => RequestLabel::opening(alloc, 0, 1, LONG_BOUND),
    }
}

/// The tree of twelve walks, up to 30 ticks: leaf 0 is one of 1 tick, leaf 1 one of 20 ticks, and each of the leaves 2 to 11 one of as many ticks
/// as its number, and 20 more after 25 ticks. A job of 1 tick is done after 2 ticks behind leaf 0, after 21 behind leaf 1, and after one tick more than
/// its number behind any other. The root is 22; its left part has the leaves 0 to 5, whose left part those 0 to 2, whose left part 0 and 1.
pub fn twelve_walks(alloc: Global) -> Result<Option<(Forest, u32)>, Memory> {
    let mut labels = Vec::new(alloc);
    let mut rows = Vec::new(alloc);
    for number in 0..12u32 {
        labels.push(Arc::new(alloc, one_of_twelve(alloc, number)?)?)?;
        rows.push(walk(alloc, &[0, number])?)?;
    }
    tree(alloc, LONG_BOUND, labels.as_slice(), rows.as_slice())
}

/// The tree of so many walks, counted from 0, each with a window of 5 ticks of its own: a job of 1 tick with walk i ahead of it is
/// done from 10·i + 10 to 10·i + 14, and not again up to the bound of 10·(walks + 1) ticks, since there the walk's second job has come.
/// Where two walks can be taken it is never done. None where there is no walk or more than 50,000.
pub fn windows(alloc: Global, walks: u32) -> Result<Option<(Forest, u32)>, Memory> {
    if walks == 0 || walks > 50_000 {
        return Ok(None);
    }
    let bound = 10 * (walks as u64 + 1);
    let mut labels = Vec::new(alloc);
    let mut rows = Vec::new(alloc);
    for i in 0..walks {
        let first = RequestLabel::opening(alloc, 0, 10 * i + 9, bound)?;
        labels.push(Arc::new(alloc, first.extend(alloc, 10 * i + 14, 0, bound as u32)?)?)?;
        rows.push(walk(alloc, &[0, i])?)?;
    }
    tree(alloc, bound, labels.as_slice(), rows.as_slice())
}
