//! Trees of request functions. The leaves of a tree are the request functions of a task's walks, and a pair of two
//! nodes has at each time the greater of their values, so that it stands for each leaf under it. The search for a
//! response time starts from the roots, and takes a pair apart only where it has to (Stigge and Yi, RTSS 2013).
#![tactic(auto)]

mod build;
mod forest;
mod laws;
mod leaf;
mod node;

pub use forest::Forest;
pub use laws::every_forest;
pub use leaf::Leaf;
pub use node::Node;
