//! What the words of the command line mean.
//!
//! `words_of` reads them by `clap`, and `meaning_of` says what it answers. The laws say it again
//! without `clap`: what plain lists of words mean, and which lists are refused. A further command is
//! one more `Meaning`, one more line of the command line, and one more arm where a name becomes a
//! meaning, each in src/ and in specs/.
#![tactic(auto)]

mod command_line;
pub mod meaning;
mod number;
pub mod spot;
pub mod word_laws;
pub mod words;
pub mod workers;

pub use meaning::Meaning;
pub use spot::Spot;
pub use words::{WordsError, words_of};
pub use workers::Workers;
