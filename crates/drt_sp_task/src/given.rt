//! What an analysis is over.
use drt_accepted::Accepted;

/// What an analysis is over: a set with its graphs, and the numbers of its tasks in order of priority.
#[derive(Clone, Copy)]
pub(crate) struct Given<'a> {
    pub(crate) set: &'a Accepted<'a>,
    pub(crate) order: &'a [u32],
}
