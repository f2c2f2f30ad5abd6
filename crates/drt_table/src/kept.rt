//! The kept nodes of each vertex, as a list in descending order of offset.
//!
//! A label dominates only labels of its vertex with no smaller offset. So the nodes that a new label drops stand at the
//! head of its vertex's list, down to its own offset, and those that dominate it stand from its offset on. Where dominance
//! is a chain, the first one there that doesn't dominate it ends the search. Where it isn't, samples tell most of the nodes
//! that don't dominate it (sampling.rt), and the list isn't walked.

ghost use Rattle.std.specs.Prelude.{◌≡◌, ℕ, ◌+◌, ◌<◌, ◌≤◌, IsTrue, Some, None, length, map, vec_len, vec_capacity, ◌^◌, ◌++◌, ◌∷◌, []};
ghost use Rattle.drt_table.specs.Held.{AllOf, drop_held, dominates_held, fresh_held, placed_nodes, placed_reply};
ghost use Rattle.drt_table.specs.Node.{is_kept};
ghost use Rattle.drt_table.specs.Links.{AreLinked, AreAlone, IsPlace, IsLink, heads_after, links_after};
ghost use Rattle.drt_table.specs.Sampled.{IsShelf};
ghost use Rattle.drt_worklist.specs.Places.{first};
ghost use Rattle.std.specs.Option.{ForSome};
ghost use Rattle.drt_model.specs.Limits.{IsTime};

use crate::node::{Node, Twin};
use crate::sampling::first_told;
use crate::shortest::smaller;
use crate::step::TableReply;
use drt_columns::Columns;
use drt_label::Label;
use drt_worklist::push_within;

// What a label is offered with: the node that gave it, the deadline of its vertex, and the bound of the table.
#[derive(Clone, Copy)]
pub(crate) struct Origin {
    pub(crate) parent: u32,
    pub(crate) deadline: u32,
    pub(crate) bound: u64,
}

// Offers the label of the twin.
pub(crate) fn place_in<L: Label>(
    nodes: &mut Vec<Node<L>>,
    links: &mut Vec<Option<u32>>,
    heads: &mut [Option<u32>],
    columns: &Columns,
    twin: Twin<L>,
    origin: Origin,
) -> TableReply
    requires linked { AreLinked L.algebra nodes.old.items links.old.items heads.old }
    requires sampled { IsShelf L.algebra nodes.old.items (length heads.old) columns.now.room columns.now }
    requires vertex { L.algebra.vertex twin < length heads.old }
    requires room { (vec_len nodes.old < vec_capacity nodes.old) × (vec_len links.old < vec_capacity links.old) }
    requires few { vec_len nodes.old < 2 ^ 32 }
    requires deadline { IsTime origin.deadline }
    requires of { IsTrue (L.algebra.is_of twin origin.bound) }
    requires all_of { AllOf (λ h. IsTrue (L.algebra.is_of h.node.label origin.bound)) nodes.old.items }
    requires alone { AreAlone L.algebra nodes.old.items }
    ensures nodes { nodes.new.items ≡ placed_nodes L.algebra twin origin.parent origin.deadline origin.bound nodes.old.items }
    ensures linked { AreLinked L.algebra nodes.new.items links.new.items heads.new }
    ensures reply { result ≡ placed_reply L.algebra twin origin.deadline origin.bound nodes.old.items }
    ensures capacity { (vec_capacity nodes.old ≤ vec_capacity nodes.new) × (vec_capacity links.old ≤ vec_capacity links.new) }
{
    if !twin.label.in_range(origin.deadline, origin.bound) {
        return TableReply::OutOfRange;
    }
    match first_above(
        nodes.as_slice(),
        links.as_slice(),
        heads,
        columns,
        &twin.label,
    ) {
        Some(id) => TableReply::Dominated(id),
        None => TableReply::Added(add(nodes, links, heads, twin, origin.parent)),
    }
}

// Adds a node with the label of the twin, which drops the kept nodes that it dominates. The answer is its number.
fn add<L: Label>(
    nodes: &mut Vec<Node<L>>,
    links: &mut Vec<Option<u32>>,
    heads: &mut [Option<u32>],
    twin: Twin<L>,
    parent: u32,
) -> u32
    requires linked { AreLinked L.algebra nodes.old.items links.old.items heads.old }
    requires vertex { L.algebra.vertex twin < length heads.old }
    requires room { (vec_len nodes.old < vec_capacity nodes.old) × (vec_len links.old < vec_capacity links.old) }
    requires few { vec_len nodes.old < 2 ^ 32 }
    requires of { (bound : ℕ) × IsTrue (L.algebra.is_of twin bound) × AllOf (λ h. IsTrue (L.algebra.is_of h.node.label bound)) nodes.old.items }
    ensures number { result ≡ length nodes.old.items }
    ensures nodes { nodes.new.items ≡ map (drop_held L.algebra twin (length nodes.old.items)) nodes.old.items ++ fresh_held twin (Some parent) ∷ [] }
    ensures linked { AreLinked L.algebra nodes.new.items links.new.items heads.new }
    ensures capacity { (vec_capacity nodes.old ≤ vec_capacity nodes.new) × (vec_capacity links.old ≤ vec_capacity links.new) }
{
    let number = nodes.len() as u32;
    let last = drop_all_below(
        nodes.as_mut_slice(),
        links.as_mut_slice(),
        heads,
        &twin.label,
        number,
    );
    push_node(nodes, links, heads, last, Node::fresh(twin, Some(parent)));
    number
}

// Adds a kept node, which comes after `last` in the list of its vertex.
pub(crate) fn push_node<L: Label>(
    nodes: &mut Vec<Node<L>>,
    links: &mut Vec<Option<u32>>,
    heads: &mut [Option<u32>],
    last: Option<u32>,
    node: Node<L>,
)
    requires linked { AreLinked L.algebra nodes.old.items links.old.items heads.old }
    requires kept { IsTrue (is_kept node.node) }
    requires vertex { L.algebra.vertex node.node.label < length heads.old }
    requires last { IsPlace L.algebra nodes.old.items (L.algebra.vertex node.node.label) (L.algebra.offset node.node.label) last }
    requires room { (vec_len nodes.old < vec_capacity nodes.old) × (vec_len links.old < vec_capacity links.old) }
    requires few { vec_len nodes.old < 2 ^ 32 }
    ensures nodes { nodes.new.items ≡ nodes.old.items ++ node ∷ [] }
    ensures linked { AreLinked L.algebra nodes.new.items links.new.items heads.new }
    ensures capacity { (vec_capacity nodes.old ≤ vec_capacity nodes.new) × (vec_capacity links.old ≤ vec_capacity links.new) }
{
    let number = nodes.len() as u32;
    let vertex = node.vertex();
    let next = link_after(links.as_slice(), heads, vertex, last);
    link(links.as_mut_slice(), heads, vertex, last, Some(number));
    push_within(nodes, node);
    push_within(links, next);
}

// The least kept node that dominates the label.
fn first_above<L: Label>(
    nodes: &[Node<L>],
    links: &[Option<u32>],
    heads: &[Option<u32>],
    columns: &Columns,
    label: &L,
) -> Option<u32>
    requires linked { AreLinked L.algebra nodes.now links.now heads.now }
    requires sampled { IsShelf L.algebra nodes.now (length heads.now) columns.now.room columns.now }
    requires vertex { L.algebra.vertex label.now < length heads.now }
    requires of { (bound : ℕ) × IsTrue (L.algebra.is_of label.now bound) × AllOf (λ h. IsTrue (L.algebra.is_of h.node.label bound)) nodes.now }
    requires alone { AreAlone L.algebra nodes.now }
    ensures { result ≡ first (dominates_held L.algebra label.now) nodes.now }
{
    if L::is_chain() {
        first_in_chain(nodes, links, heads, label)
    } else {
        first_told(nodes, columns, label)
    }
}

// The least kept node that dominates the label, where dominance is a chain.
fn first_in_chain<L: Label>(
    nodes: &[Node<L>],
    links: &[Option<u32>],
    heads: &[Option<u32>],
    label: &L,
) -> Option<u32>
    requires chain { IsTrue L.algebra.is_chain }
    requires linked { AreLinked L.algebra nodes.now links.now heads.now }
    requires vertex { L.algebra.vertex label.now < length heads.now }
    requires of { (bound : ℕ) × IsTrue (L.algebra.is_of label.now bound) × AllOf (λ h. IsTrue (L.algebra.is_of h.node.label bound)) nodes.now }
    requires alone { AreAlone L.algebra nodes.now }
    ensures { result ≡ first (dominates_held L.algebra label.now) nodes.now }
{
    let offset = label.offset();
    let mut least = None;
    let mut next = heads[label.vertex() as usize];
    while let Some(id) = next {
        next = links[id as usize];
        let node = &nodes[id as usize];
        if node.offset() <= offset {
            if node.is_above(label) {
                least = smaller(least, Some(id));
            } else {
                return least;
            }
        }
    }
    least
}

// Drops each kept node that the label dominates, and takes it out of the list of its vertex. The answer is the node of
// that list after which a new node with the label comes.
pub(crate) fn drop_all_below<L: Label>(
    nodes: &mut [Node<L>],
    links: &mut [Option<u32>],
    heads: &mut [Option<u32>],
    label: &L,
    number: u32,
) -> Option<u32>
    requires linked { AreLinked L.algebra nodes.old links.old heads.old }
    requires vertex { L.algebra.vertex label.now < length heads.old }
    requires of { (bound : ℕ) × IsTrue (L.algebra.is_of label.now bound) × AllOf (λ h. IsTrue (L.algebra.is_of h.node.label bound)) nodes.old }
    ensures nodes { nodes.new ≡ map (drop_held L.algebra label.now number) nodes.old }
    ensures linked { AreLinked L.algebra nodes.new links.new heads.new }
    ensures last { IsPlace L.algebra nodes.new (L.algebra.vertex label.now) (L.algebra.offset label.now) result }
{
    let vertex = label.vertex();
    let offset = label.offset();
    let mut last = None;
    let mut next = heads[vertex as usize];
    while let Some(id) = next {
        if nodes[id as usize].offset() < offset {
            return last;
        }
        next = links[id as usize];
        if nodes[id as usize].is_below(label) {
            nodes[id as usize].drop_below(label, number);
            link(links, heads, vertex, last, next);
        } else {
            last = Some(id);
        }
    }
    last
}

// What comes after `last` in the list of the vertex.
fn link_after(
    links: &[Option<u32>],
    heads: &[Option<u32>],
    vertex: u32,
    last: Option<u32>,
) -> Option<u32>
    requires vertex { vertex < length heads.now }
    requires last { ForSome last (λ p. p < length links.now) }
    ensures { IsLink vertex last result links.now heads.now }
{
    match last {
        None => heads[vertex as usize],
        Some(p) => links[p as usize],
    }
}

// Has `next` come after `last` in the list of the vertex.
pub(crate) fn link(
    links: &mut [Option<u32>],
    heads: &mut [Option<u32>],
    vertex: u32,
    last: Option<u32>,
    next: Option<u32>,
)
    requires vertex { vertex < length heads.old }
    requires last { ForSome last (λ p. p < length links.old) }
    ensures links { links.new ≡ links_after last next links.old }
    ensures heads { heads.new ≡ heads_after vertex last next heads.old }
{
    match last {
        None => heads[vertex as usize] = next,
        Some(p) => links[p as usize] = next,
    }
}
