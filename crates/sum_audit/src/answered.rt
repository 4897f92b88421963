//! An answered sum.
use audit_types::RowSet;

/// The rows of a question that was answered, and the answer.
#[derive(Clone, Copy)]
pub struct AnsweredSum {
    pub rows: RowSet,
    pub answer: i64,
}
