//! What becomes of a question.

use audit_types::Verdict;

/// What becomes of a question after a history.
#[derive(Clone, Copy)]
pub enum Outcome {
    /// The true answer.
    Answer(i64),
    /// The question is denied, and why. It is never `Released`.
    Denied(Verdict),
    /// The history has 65,536 records.
    Full,
}
