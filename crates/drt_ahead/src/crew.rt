//! How many look ahead.
use drt_crew::Crew;
use drt_pool::Gate;
use std::thread::{Threads, available_parallelism};

/// How many workers are begun for so many jobs: no more than there are processors, but where the gate leaves the caller nothing alone,
/// since it may wait for another worker.
pub(crate) fn worker_count<G: Gate, R: Threads>(crew: &Crew<'_, G, R>, jobs: usize) -> usize {
    let most = jobs.min(crew.effort.workers() as usize);
    if crew.gate.alone() == 0 {
        return most;
    }
    match available_parallelism(crew.rt) {
        Ok(processors) => most.min(processors.get()),
        Err(_) => most.min(1),
    }
}
