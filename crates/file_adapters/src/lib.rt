//! The edge: files, standard input and standard output as sources and benches. Each tells no content, counts the
//! errors of std, and keeps whether its last call had one.
//!
//! `FileSource` and `InputSource` are read, and `FileBench` keeps the journal and sends. Their clauses are those of
//! `Source` and `Bench`; tests of `library_calls` say which calls of the system they make. `hold_streams` comes before all.
#![tactic(auto)]

mod bench;
mod counting;
mod journal_file;
mod opening;
mod place;
mod sources;
mod streams;

pub use bench::FileBench;
pub use opening::TryLock;
pub use sources::{FileSource, InputSource};
pub use streams::hold_streams;
