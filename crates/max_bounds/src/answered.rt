//! One answered maximum.

use audit_types::RowSet;

/// A set of rows, and the greatest number over it.
#[derive(Clone, Copy)]
pub struct AnsweredMax {
    // It stands before the rows, so that a walk over many sets reads one line of memory of most.
    pub answer: i64,
    pub rows: RowSet,
}
