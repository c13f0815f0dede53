//! The outside, as the program meets it: files that are read by name, and a sink that text goes to.
//!
//! It stands on std alone. `MemFiles` and `MemSink` live in memory and fail where they are told to;
//! `RealFiles` and `RealSink` are the trusted edge, a few lines each over std. `Gathered` gathers small
//! pieces in front of any sink. The layer above is generic over `Files` and `Sink`, and uses their
//! contracts: which reads there were, what an answer says of the content, and that each answer `Failed`
//! shows in the count of faults.
#![tactic(auto)]

mod files;
mod gathered;
mod memory_files;
mod memory_sink;
mod names;
mod real_files;
mod real_sink;
mod sink;

pub use files::{Files, ReadRefusal};
pub use gathered::{Gathered, ROOM};
pub use memory_files::MemFiles;
pub use memory_sink::MemSink;
pub use real_files::RealFiles;
pub use real_sink::RealSink;
pub use sink::{Sink, SinkRefusal};
