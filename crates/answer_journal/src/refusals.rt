//! Why a journal isn't made, or isn't gone on from.
use audit_types::Shape;

/// There is a journal, or another file, where one was to be made. Nothing was written.
#[derive(Clone, Copy, Debug, PartialEq, Eq)]
pub struct AlreadyThere;

/// Why a journal isn't gone on from. What only reads it back, without a table, answers the first two alone.
#[derive(Clone, Copy, PartialEq, Eq)]
pub enum JournalRefusal {
    /// The file is shorter than a journal, or its header gate isn't open.
    NotMade,
    /// The place of the first byte that breaks the journal's grammar, or the file's length if it ends too early.
    Damaged { at: u64 },
    /// The journal is that of a table of another shape.
    OtherShape { kept: Shape, now: Shape },
    /// The first record, from 0, whose answer isn't the true one, and both as the table has them.
    Untrue { place: u32, kept: i128, now: i128 },
    /// All answers are true. The first record, from 0, whose question was not to be released, and the place in the schema of the first
    /// protected group that alone keeps it from being, if it would be released with no group protected.
    Illegal { place: u32, group: Option<u8> },
}
