//! Worked rows of demand tables: what the machine answers to given calls, as its definitions compute it. `drt_rows_tests` has real
//! tables answer the same calls.
#![tactic(auto)]

mod worked;

pub use worked::{one_worker, three_workers};
