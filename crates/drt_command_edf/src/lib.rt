//! The command `edf`: the answer under EDF. Its verdict is `SetVerdict` of drt_command_files; what stands
//! besides is in specs/Besides.antt, what it refuses and how it ends in specs/Edf.antt.
#![tactic(auto)]

mod command;

pub use command::{Edf, code_of, make, make_trail};
