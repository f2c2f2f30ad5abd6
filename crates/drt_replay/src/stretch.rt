//! Jobs that wait for their release, by stretches of the list.

/// The jobs at the places from `next` on and before `end`: they wait, and their releases ascend.
#[derive(Debug, Clone, Copy, PartialEq, Eq)]
pub struct Stretch {
    pub next: usize,
    pub end: usize,
}
