//! What workers share: which job is begun next. It decides what is done, and no answer.
ghost use Rattle.std.specs.Prelude.{◌<◌, All, IfSome, length};

use std::sync::atomic::{AtomicU32, AtomicUsize, Ordering};

/// How many jobs were taken, and the least place behind which no answer is asked for.
#[derive(Drop)]
pub(crate) struct Line {
    taken: AtomicUsize,
    last: AtomicU32,
}

impl Line {
    /// None is taken yet, and each is asked for.
    pub(crate) fn start() -> Line {
        Line {
            taken: AtomicUsize::new(0),
            last: AtomicU32::new(u32::MAX),
        }
    }

    /// Takes the next job that is asked for, by its place. None where each was taken.
    pub(crate) fn take_next(&self, order: &[u32]) -> Option<u32>
        requires { All (λ i. i < length order.now) order.now }
        ensures { IfSome result (λ i. i < length order.now) }
    {
        for _ in 0..order.len() {
            let place = *order.get(self.taken.fetch_add(1, Ordering::SeqCst))?;
            if place <= self.last.load(Ordering::SeqCst) {
                return Some(place);
            }
        }
        None
    }

    /// From now on no job behind this place is begun.
    pub(crate) fn end_behind(&self, place: u32) {
        self.last.fetch_min(place, Ordering::SeqCst);
    }
}
