//! The records of a history that say something that those before them didn't.
ghost use Rattle.std.specs.Prelude.{◌↔◌, ◌≤◌, ◌++◌, [], ◌∷◌, length, All, IsTrue, IfOk};
ghost use Rattle.audit_types.specs.Limits.{most_records};
ghost use Rattle.audit_types.specs.History.{FitsShape, IsPossibleHistory};
ghost use Rattle.implied_records.specs.Kept.{IsKeptOf, IsImpliedBy};
ghost use Rattle.implied_records.specs.Laws.{IsLegalForSome};

use crate::forcing::is_forced;
use crate::laws::{implied_maxima, implied_sums, kept_of_legal};
use audit_core::laws::released_records;
use audit_core::{ColumnRef, Core};
use audit_types::laws::true_answers;
use audit_types::{Answered, Askers, CountedRows, Guard, MOST_REACH, MOST_WIDTH, NoMemory, Shape};
use std::alloc::Global;

// Whether the records of the core imply this one.
fn is_implied(core: &Core, answered: &Answered) -> bool
    requires fits { FitsShape core.now.setting.shape answered.now.column answered.now.rows }
    requires possible { IsPossibleHistory core.now.setting (core.now.history ++ answered.now ∷ []) }
    ensures { IsTrue result ↔ IsImpliedBy core.now.setting.shape core.now.history answered.now }
{
    implied_sums();
    implied_maxima();
    match core.column(answered.column) {
        ColumnRef::Sum(sums) => {
            // A column of sums says of itself that its sets are sets of rows.
            let _ = sums.n();
            sums.basis().contains(&answered.rows)
        }
        ColumnRef::Max(maxima) => is_forced(maxima.bounds(), &answered.rows, answered.answer),
    }
}

/// The history without the records that the records before them imply. After these every question is decided as after all.
pub fn kept(alloc: Global, shape: &Shape, history: &[Answered]) -> Result<Vec<Answered>, NoMemory>
    requires { IsLegalForSome shape.now history.now }
    ensures kept { IfOk result (λ list. IsKeptOf shape.now history.now list.items) }

    // They fit a journal.
    ensures fit { IfOk result (λ list. All (λ r. FitsShape shape.now r.column r.rows) list.items) }
    ensures few { IfOk result (λ list. length list.items ≤ most_records) }
{
    true_answers();
    released_records();
    kept_of_legal();
    // What is guarded makes no record implied, so the core knows no group, and one person behind each row.
    let rows = CountedRows::new(shape.rows, Vec::new(alloc), 2, Askers::Outside);
    let unguarded = Guard::new(Vec::new(alloc), rows, MOST_WIDTH, MOST_REACH);
    let mut core = Core::new(alloc, *shape, unguarded)?;
    for answered in history {
        if !is_implied(&core, answered) {
            core.take(answered)?;
        }
    }
    match core.history().to_vec(alloc) {
        Ok(list) => Ok(list),
        Err(_) => Err(NoMemory),
    }
}
