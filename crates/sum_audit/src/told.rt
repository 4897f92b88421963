//! The answers of a column, for contracts alone.
ghost use Rattle.std.specs.Prelude.{◌≡◌, List, [], ◌∷◌, ◌++◌};
ghost use Rattle.std.specs.Borrow.{ftrue};
ghost use Rattle.audit_types.specs.Column.{Answer};

use crate::answered::AnsweredSum;
use std::marker::Model;

/// The answers so far, in order. It takes no bytes, and its methods do nothing.
#[derive(Drop)]
pub(crate) struct Told {
    pub ghost answers: { List Answer },
}

impl Model for Told {
    ghost also_owns = { λ _. ftrue };
}

impl Told {
    ghost use Rattle.sum_audit.specs.Columns.{answer_of};

    /// No answers.
    pub(crate) fn nothing() -> Told
        ensures { result.answers ≡ [] }
    {
        Told {}
    }

    /// The answers with one more after them.
    pub(crate) fn and(&self, _sum: &AnsweredSum) -> Told
        ensures { result.answers ≡ self.now.answers ++ answer_of _sum.now ∷ [] }
    {
        Told {}
    }
}
