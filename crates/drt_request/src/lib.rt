//! Request labels: what a walk of a task asks for under fixed priorities. The label of a walk is its last vertex, the
//! offset of its last release and its request function on 1 to a bound. Of two walks to one vertex the one that is
//! there no later and asks at each time for at least as much stands for both. The table of labels uses this through
//! `drt_label::Label`; the trees are built from the functions that `steps` shows.
#![tactic(auto)]

mod label;

pub use label::{RequestLabel, labels_of_walks};
