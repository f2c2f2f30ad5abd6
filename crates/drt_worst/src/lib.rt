//! Exact worst response times: the greatest of the least times that pass, over all tuples of leaves below some roots.
//!
//! The response time of a vertex is greatest for some choice of one walk for each task of higher priority. The trees of those
//! tasks are searched from their roots: a combination of nodes whose least time isn't above a value that was reached stands for no
//! greater one, and is skipped; one of leaves reaches its own least time; any other is split. Each worker has a pass of its own
//! over a part of the splitting tree, depth first, so it keeps few combinations. All passes share one word, which they only raise, each by
//! a seat of its own. A seat gives a part to a new seat, and takes in the parts of another one; once one seat has all parts, `Word::close`
//! says of the word that it is 0 or the greatest number that any seat put into it, and that each of these was reached.
#![tactic(auto)]

mod answer;
mod pass;
mod plan;
mod rule;
mod search;
mod subject;
mod turn;
mod view;
mod word;

pub use answer::Worst;
pub use search::worst;
