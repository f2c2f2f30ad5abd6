//! The command `sp`: the answer under fixed priorities. Its verdict is `SetVerdict` of drt_command_files; what
//! stands besides is in specs/Besides.antt, what it refuses and how it ends in specs/Sp.antt.
#![tactic(auto)]

mod command;

pub use command::{Sp, make, make_trail};
