//! A schedule as a picture.
//!
//! `lay_out` places the spans and the events of a schedule on a page: bars in rows of tasks, arrows, and an axis of time from which
//! long idle stretches are cut. `print` writes the page as SVG. The command `timeline` stands on both. That bars and arrows stand
//! where their times are, in order and on the page, is `specs/Layout.antt`; of the text there is no clause.
#![tactic(auto)]

pub mod axis;
pub mod bars;
pub mod layout;
mod marks;
pub mod moments;
mod picture;
pub mod printing;
pub mod scale;
mod svg;
mod widths;

pub use axis::{Cut, Tick};
pub use bars::{Arrow, Bar};
pub use layout::{Layout, lay_out};
pub use printing::print;
pub use scale::{Part, Scale};
