//! The table of labels that no other label dominates, and its machine.
//!
//! A table of a graph and a bound finds the labels of all in-range walks that no different one dominates. Any workers
//! may step it in any order: each takes the waiting node of least offset, offers its label extended by each out-edge,
//! and closes it. `Table::apply` is exactly one step of the machine that `specs/Machine.antt` gives, and takes no
//! memory. What holds after every run, whoever made its steps, is the contract of `over_every_interleaving`. The layer
//! above uses that contract and those of `Table`.
//!
//! The nodes stand in an arena. The kept nodes of each vertex form a list inside it, in descending order of offset and with
//! node numbers for links, so an offer looks at few kept nodes of the label's vertex. Where dominance isn't a chain, samples of
//! the labels tell most of them. The pending nodes stand in a queue by offset, and the taken ones in a list that is as short
//! as the workers are few.
#![tactic(auto)]

mod arena;
mod drive;
mod holding;
mod kept;
mod node;
mod reading;
mod sampling;
mod shortest;
mod step;
mod table;
mod theorem;
mod waiting;

pub use node::{Node, NodeState, Twin};
pub use step::{Entry, TableReply, TableStep};
pub use table::Table;
pub use theorem::over_every_interleaving;
