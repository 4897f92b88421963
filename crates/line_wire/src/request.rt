//! What a line asks, and why a line is refused.

use predicate_lang::Pred;

/// A question. A column is named by its place among the secret ones.
#[derive(Drop)]
pub enum Request {
    Count { pred: Pred },
    Sum { column: u8, pred: Pred },
    Avg { column: u8, pred: Pred },
    Max { column: u8, pred: Pred },
    Min { column: u8, pred: Pred },
}

/// Why a line is refused.
#[derive(Clone, Copy, Drop)]
pub enum LineFault {
    /// The line isn't a question.
    Line,
    /// The question's column isn't one of the schema's.
    Column,
    /// The question's column is not of the kind that the question takes.
    Kind,
    /// The condition goes wrong at this byte of its text.
    Condition { at: u32 },
    NoMemory,
}
