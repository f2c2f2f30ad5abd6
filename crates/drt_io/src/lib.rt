//! Where bytes come from and where they go, and which faults there are on the way.
//!
//! The layer above uses `read_all` and `write_all`, over any `Source` and `Sink`: all bytes or a
//! named end, a prefix of them after a failure, and a failure only where a count of faults rose.
#![tactic(auto)]

pub mod device;
pub mod from_read;
pub mod from_write;
pub mod memory_sink;
pub mod memory_source;
pub mod pieces;
pub mod reading;
pub mod steady;
pub mod sure_sink;
pub mod sure_source;
pub mod writing;

pub use device::{Failed, Sink, Source};
pub use from_read::FromRead;
pub use from_write::FromWrite;
pub use memory_sink::MemorySink;
pub use memory_source::MemorySource;
pub use reading::{ReadEnd, read_all};
pub use steady::Steady;
pub use sure_sink::SureSink;
pub use sure_source::SureSource;
pub use writing::write_all;
