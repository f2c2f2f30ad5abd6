//! The rules on the claimed proofs of a yes under fixed priorities, for the independent checker.
//!
//! A proof splits combinations of tree nodes until a time passes for each. It is looked at at one place at a time: there it is a
//! stack of nodes of one tree, and the stacks of all places grow and shrink together. So no combination is ever written out, and
//! a tree is asked for the values of all its nodes at once.
//!
//! The checker above uses `is_proof_per_vertex`, `have_shapes` and `have_passing_times`, in this order. It stands on no crate of the
//! search, nothing recurses, and the memory is a few bytes for each item.
#![tactic(auto)]

mod passing;
mod places;
mod queries;
mod rooms;
mod shapes;
mod subjects;

pub use passing::have_passing_times;
pub use shapes::have_shapes;
pub use subjects::is_proof_per_vertex;
