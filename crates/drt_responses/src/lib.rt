//! Responses, as `drt response` writes them: their text, printed and read back.
//!
//! The layers above use the type `Response`, `print`, and `read`, which answers with the responses whose text bytes are, or with the line at
//! which they stop being one (`specs/Reading.antt`).
#![tactic(auto)]

pub mod fault;
mod printing;
mod reading;
mod response;

pub use fault::ResponseError;
pub use printing::print;
pub use reading::read;
pub use response::Response;
