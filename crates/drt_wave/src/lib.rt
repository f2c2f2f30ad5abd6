//! Dense tables of greatest works on words that threads share without a lock.
//!
//! A table has one cell for each vertex of a task's graph and each offset up to a bound: the greatest work of the walks that end at
//! that vertex with that span. The cells are worked in waves of offsets. There are five kinds of step on its words: a seat draws a block of a
//! wave by `claim`, reads a cell by `glance`, makes a later cell at least a work by `raise`, and parts with some of it by `split`, to be whole
//! again by `join`. None of them waits. The seat that has every part and expanded what it drew knows the next wave as final by a claim past
//! the wave's end, and in whatever order the steps of several seats fall, `close` gives the greatest works, as a `DenseFront`.
//!
//! The layer above uses `fill`, which works a table by 1 to 16 workers, or `dense_front`, which works it by one seat. All waves are worked in
//! one run of the workers, the first one by the caller alone where it is small. Workers take a seat for each wave that they share, and give it
//! back, under a lock, and look turn by turn whether the next one is open. A desk is the state under that lock (the seat that has the parts that
//! no worker has, and the open wave), a relay what the workers share, a hand what one worker has, a shift a seat with its wave, and a crew the
//! number of workers and whether all begin at once.
#![tactic(auto)]

mod claims;
mod column;
mod crew;
mod dense;
mod desk;
mod drawing;
mod expanding;
mod filling;
mod gathering;
mod lane;
mod layout;
mod numbered;
mod opening;
mod plan;
mod relay;
mod rule;
mod seat;
mod sharing;
mod table;
mod view;
mod walking;
mod waves;
mod ways;
mod works;

pub use dense::DenseFront;
pub use filling::{dense_front, fill};
pub use plan::Plan;
pub use seat::WaveSeat;
pub use table::WaveTable;
pub use waves::work_wave;
