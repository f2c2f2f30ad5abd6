//! What workers share that end combinations side by side, or what one has that ends them alone. It decides only when a worker gives up:
//! nothing is proved of it.
use drt_effort::MOST_WORKERS;
use drt_model::Memory;
use std::alloc::Global;
use std::sync::atomic::{AtomicU64, Ordering};

// How many items a worker makes before it counts them where all workers see it.
const COUNTED: usize = 1024;

/// The number of the next job, the least place of a frontier that is wanting, and how many items were made for each frontier, by its
/// place. A frontier is wanting where a combination of it fails, or as many items were made for it as are allowed. Then nobody goes on
/// with it, nor with a later one, since the task's vertices count in file order.
#[derive(Drop)]
pub(crate) struct Race {
    next: AtomicU64,
    wanting: AtomicU64,
    made: Vec<AtomicU64>,
    most: u64,
}

impl Race {
    /// Of so many frontiers, with so many items allowed for each.
    pub(crate) fn start(alloc: Global, frontiers: usize, most: u64) -> Result<Race, Memory> {
        let mut made = Vec::new(alloc);
        for _ in 0..frontiers {
            made.push(AtomicU64::new(0))?;
        }
        Ok(Race {
            next: AtomicU64::new(0),
            wanting: AtomicU64::new(frontiers as u64),
            made,
            most,
        })
    }

    /// How many items are allowed for a frontier.
    pub(crate) fn most(&self) -> u64 {
        self.most
    }

    /// The number of the next job.
    pub(crate) fn take_next(&self) -> u64 {
        self.next.fetch_add(1, Ordering::SeqCst)
    }

    /// Whether the frontier at this place and all before it may still come to their ends.
    pub(crate) fn goes_on(&self, place: usize) -> bool {
        (place as u64) < self.wanting.load(Ordering::SeqCst)
    }

    /// Whether a worker that has made so many items for a combination of the frontier at this place goes on. It counts them now and then.
    pub(crate) fn may_go_on(&self, place: usize, items: usize) -> bool {
        items % COUNTED != 0 || (self.goes_on(place) && self.is_counted(place))
    }

    // Counts some more items of the frontier at this place. False where there were as many as are allowed before.
    fn is_counted(&self, place: usize) -> bool {
        match self.made.get(place) {
            None => false,
            Some(made) => made.fetch_add(COUNTED as u64, Ordering::SeqCst) < self.most,
        }
    }

    /// Says that the frontier at this place is wanting.
    pub(crate) fn give_up(&self, place: usize) {
        let mut least = self.wanting.load(Ordering::SeqCst);
        // Each worker says at most once that a frontier is wanting.
        for _ in 0..MOST_WORKERS {
            if least <= place as u64 {
                return;
            }
            match self
                .wanting
                .compare_exchange(least, place as u64, Ordering::SeqCst, Ordering::SeqCst)
            {
                Ok(_) => return,
                Err(seen) => least = seen,
            }
        }
    }
}
