//! The command `timeline`: who ran from when to when, as text or as a picture.
//!
//! `Timeline` draws the releases of a dossier of a no up to the deadline that is missed, and `ResponseTimeline` those of the response of one
//! vertex up to the tick after which its job finishes. What both draw is the replay on the tick machine (`specs/Drawn.antt`); their
//! promises stand in `specs/Timeline.antt` and `specs/Response.antt`.
#![tactic(auto)]

mod drawing;
mod inputs;
mod no;
mod reached;
mod response;

pub use no::{NO_RELEASES, Timeline};
pub use response::{NO_RESPONSES, REACHED_RESPONSE, ResponseTimeline};
