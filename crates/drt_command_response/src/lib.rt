//! The command `response`: the greatest response times under fixed priorities. Its verdict stands in specs/Verdict.antt, what stands
//! besides in specs/Besides.antt, what it refuses and how it ends in specs/Response.antt.
#![tactic(auto)]

mod command;

pub use command::{Responses, make};
