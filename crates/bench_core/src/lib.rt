//! The outside of the auditor: where bytes come from, and where replies go.
//!
//! `Source` and `Bench` are the two traits that everything above reads and sends through. An object whose kind doesn't
//! tell its content, as a file, promises nothing of it; an object in memory promises all. A call answers `Failed`
//! exactly if the object's count of faults rose, unless that stands at its type's end (`cause`).
#![tactic(auto)]

mod bench;
mod disk;
mod log;
mod memory_bench;
mod memory_source;
mod room;
mod source;
mod steady_source;
mod stops;

pub use bench::Bench;
pub use memory_bench::MemoryBench;
pub use memory_source::MemorySource;
pub use room::Room;
pub use source::{Failed, Source};
pub use steady_source::SteadySource;
pub use stops::{End, Stop};
