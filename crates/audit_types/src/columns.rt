//! The audit of one secret column, whatever its kind.
ghost use Rattle.std.specs.Prelude.{◌≡◌, ◌≢◌, [], IfOk, OnOk, OnErr};
ghost use Rattle.audit_types.specs.Column.{Known, IsPossible, with_answer};
ghost use Rattle.audit_types.specs.Judgement.{IsJudgement, IsDecision, IsWithinWidth};

use crate::NoMemory;
use crate::records::Verdict;
use crate::rows::RowSet;

/// The audit of one secret column: which question may be answered after what was answered before.
pub trait ColumnAudit {
    /// What was answered over the column, in order.
    ghost known: { Self → Known };

    /// The verdict on a question over these rows. It depends on the sets and answers before, and on no secret.
    fn probe(&self, rows: &RowSet) -> Result<Verdict, NoMemory>
        requires same_n { rows.now.n ≡ (known self.now).n }
        requires some { rows.now.list ≢ [] }
        ensures judged { IfOk result (λ verdict. IsJudgement (known self.now) rows.now.list verdict) }
        ensures decided { IfOk result (λ verdict. IsPossible (known self.now) → IsDecision (known self.now) rows.now.list verdict) };

    /// Adds an answered question. On `NoMemory` the column is as before.
    fn accept(&mut self, rows: &RowSet, answer: i64) -> Result<(), NoMemory>
        requires same_n { rows.now.n ≡ (known self.old).n }
        requires some { rows.now.list ≢ [] }
        requires narrow { IsWithinWidth (known self.old) rows.now.list }
        ensures ok { OnOk result (known self.new ≡ with_answer (known self.old) rows.now.list answer) }
        ensures err { OnErr result (known self.new ≡ known self.old) };
}
