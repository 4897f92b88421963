//! The law of upper bounds. Its function computes nothing: the contract is the law.
ghost use Rattle.max_bounds.specs.Laws.{UpperBoundIsLeast};

/// The upper bound of a row is at most each answer whose set holds the row, and one of these answers has it.
pub fn upper_bounds()
    ensures { UpperBoundIsLeast }
{}
