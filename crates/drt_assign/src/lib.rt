//! Priorities by Audsley's rule.
//!
//! `assign` looks for distinct priorities under which a set is schedulable. It answers with the dossier of the set with them, with the tasks
//! that are stuck where no priorities do, or with the trail of a spent budget. `specs/Rule.antt` says the rule, `specs/Assign.antt` the
//! answers. The layer above uses the one contract of `assign`. `budgets_suffice_for_assign` says how large a budget is enough.
#![tactic(auto)]

mod ahead;
mod answer;
mod assigning;
mod laws;
mod ranking;
mod rounds;
mod trial;

pub use answer::{AssignAnswer, Stuck};
pub use assigning::assign;
pub use laws::budgets_suffice_for_assign;
