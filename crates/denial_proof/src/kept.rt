//! The kept records of a column of sums, and their marked form.
ghost use Rattle.std.specs.Prelude.{◌≡◌, ◌≢◌, ◌↔◌, ◌+◌, ◌≤◌, ◌<◌, ℕ, false, List, [], ◌∷◌, ◌++◌, map, take, length, IfOk, IfSome, IfNone, true};
ghost use Rattle.std.specs.List.{AllByRecursion};
ghost use Rattle.audit_types.specs.Limits.{most_rows, most_width};
ghost use Rattle.audit_types.specs.Form.{set_row, InSpan, Reduced, IsReducedForm, IsNarrow};
ghost use Rattle.sum_basis.specs.Growth.{GrowsWide};
ghost use Rattle.sum_basis.specs.RowsWith.{IsRowWith};
ghost use Rattle.denial_proof.specs.Kept.{AreKept, MarksNext, IsMarked, HasWideFormOf, HasWideMarks, marked_row};
ghost use Rattle.denial_proof.specs.Denied.{AreNarrowSums};
ghost use Rattle.denial_proof.specs.Weights.{rows_at};

use crate::marking::write_marked;
use audit_types::{Answered, MOST_WIDTH, NoMemory, RowSet};
use std::alloc::Global;
use sum_basis::laws::{forms_are_unique, one_more_set};
use sum_basis::{Basis, Form, Grown, MOST_COLUMNS, RowWith};

// Adds the set of a record of the column to the form, and reports whether it was outside the span. A record of another column
// changes nothing.
fn adds_to(basis: &mut Basis, answered: &Answered, column: u8) -> Result<bool, NoMemory>
    requires same_n { answered.now.rows.n ≡ basis.old.n }
    requires narrow { answered.now.column ≡ column → ¬ (GrowsWide basis.old (set_row basis.old.n answered.now.rows.list)) }
    ensures n { basis.new.n ≡ basis.old.n }
    ensures width { basis.new.width ≡ basis.old.width }
    ensures other { answered.now.column ≢ column → IfOk result (λ new. (new ≡ false) × (basis.new ≡ basis.old)) }
    ensures stands { answered.now.column ≡ column → IfOk result (λ new. (sets : List (List ℕ)) → Reduced basis.old.n sets basis.old.rows → Reduced basis.old.n (sets ++ answered.now.rows.list ∷ []) basis.new.rows) }
    ensures same { answered.now.column ≡ column → IfOk result (λ new. (new ≡ false) ↔ InSpan basis.old.rows (set_row basis.old.n answered.now.rows.list)) }
{
    if answered.column != column {
        return Ok(false);
    }
    match basis.extend(&answered.rows)? {
        Grown::Added => Ok(true),
        Grown::Same => Ok(false),
        Grown::Wide => unreachable!(),
    }
}

/// The places of the records of the column whose sets don't lie in the span of those before them.
pub(crate) fn kept_places(
    alloc: Global,
    n: u16,
    history: &[Answered],
    column: u8,
) -> Result<Vec<u32>, NoMemory>
    requires some { 0 < n }
    requires at_most { n ≤ most_rows }
    requires few { length history.now ≤ 65536 }
    requires same_n { AllByRecursion (λ r. r.rows.n ≡ n) history.now }
    requires narrow { AreNarrowSums n column history.now }
    ensures kept { IfOk result (λ places. AreKept n column history.now places.items) }
{
    one_more_set();
    forms_are_unique();
    let mut basis = Basis::new(alloc, n, MOST_WIDTH)?;
    let mut places = Vec::new(alloc);
    for place in 0..history.len() {
        if adds_to(&mut basis, &history[place], column)? {
            places.push(place as u32)?;
        }
    }
    Ok(places)
}

// Adds the marked row of a set to a form of the greatest width, unless the form would no longer be narrow. Reports whether it was added.
fn mark_next(form: &mut Form, rows: &RowSet, mark: u16) -> Result<bool, NoMemory>
    requires mark { rows.now.n + mark < form.old.n }
    requires width { form.old.width ≡ most_width }
    ensures n { form.new.n ≡ form.old.n }
    ensures width { form.new.width ≡ form.old.width }
    ensures added { IfOk result (λ narrow. narrow ≡ true → MarksNext form.old rows.now mark (λ whole. IsReducedForm form.old.n whole form.new.rows)) }
    ensures wide { IfOk result (λ narrow. narrow ≡ false → MarksNext form.old rows.now mark (HasWideFormOf form.old.n)) }
    ensures narrow { IfOk result (λ narrow. IsNarrow most_width form.new.rows) }
{
    let mut room = [0; MOST_COLUMNS];
    let bits = &mut room[..form.columns() as usize];
    write_marked(bits, rows, mark);
    let grown = form.add(bits)?;
    // A form says of itself that it is narrow.
    let _ = form.columns();
    match grown {
        Grown::Wide => Ok(false),
        _ => Ok(true),
    }
}

/// The form of the marked rows of the sets at these places, over so many marks, unless the form of some front of them isn't narrow, or there
/// is no mark more than sets.
pub(crate) fn mark_all(
    alloc: Global,
    n: u16,
    marks: u16,
    history: &[Answered],
    places: &[u32],
) -> Result<Option<Form>, NoMemory>
    requires some { 0 < n }
    requires at_most { n ≤ most_rows }
    requires there { AllByRecursion (λ place. place < length history.now) places.now }
    requires same_n { AllByRecursion (λ r. r.rows.n ≡ n) history.now }
    requires marks { marks ≤ n }
    ensures some { IfOk result (λ marked. IfSome marked (λ form. IsMarked n marks (map (rows_at history.now) places.now) form)) }
    ensures none { IfOk result (λ marked. IfNone marked (length places.now < marks → HasWideMarks n marks (map (rows_at history.now) places.now))) }
{
    forms_are_unique();
    if places.len() >= marks as usize {
        return Ok(None);
    }
    let mut form = Form::new(alloc, n + marks, MOST_WIDTH)?;
    for mark in 0..places.len() {
        if !mark_next(&mut form, &history[places[mark] as usize].rows, mark as u16)? {
            return Ok(None);
        }
    }
    Ok(Some(form))
}

/// The row that has its pivot at a row of the table, of the form with the marked row of the asked set. The form stays as it is.
pub(crate) fn marked_row_at(
    form: &Form,
    rows: &RowSet,
    mark: u16,
    pivot: u16,
) -> Result<RowWith, NoMemory>
    requires mark { rows.now.n + mark < form.now.n }
    ensures { IfOk result (λ told. (m : ℕ) → form.now.n ≡ rows.now.n + m → IsRowWith form.now (marked_row rows.now.n m mark rows.now.list) pivot told) }
{
    let mut room = [0; MOST_COLUMNS];
    let bits = &mut room[..form.columns() as usize];
    write_marked(bits, rows, mark);
    form.row_with(bits, pivot)
}

/// The form with the marked row of the asked set, unless it isn't narrow.
pub(crate) fn mark_asked(form: &Form, rows: &RowSet, mark: u16) -> Result<Option<Form>, NoMemory>
    requires mark { rows.now.n + mark < form.now.n }
    requires width { form.now.width ≡ most_width }
    ensures some { IfOk result (λ marked. IfSome marked (λ new. (new.n ≡ form.now.n) × (new.width ≡ form.now.width) × IsNarrow most_width new.rows × MarksNext form.now rows.now mark (λ whole. IsReducedForm form.now.n whole new.rows))) }
    ensures none { IfOk result (λ marked. IfNone marked (MarksNext form.now rows.now mark (HasWideFormOf form.now.n))) }
{
    let mut with_asked = form.copy()?;
    if mark_next(&mut with_asked, rows, mark)? {
        Ok(Some(with_asked))
    } else {
        Ok(None)
    }
}

/// The same, of a form that isn't needed any more.
pub(crate) fn mark_own(mut form: Form, rows: &RowSet, mark: u16) -> Result<Option<Form>, NoMemory>
    requires mark { rows.now.n + mark < form.n }
    requires width { form.width ≡ most_width }
    ensures some { IfOk result (λ marked. IfSome marked (λ new. (new.n ≡ form.n) × (new.width ≡ form.width) × IsNarrow most_width new.rows × MarksNext form rows.now mark (λ whole. IsReducedForm form.n whole new.rows))) }
    ensures none { IfOk result (λ marked. IfNone marked (MarksNext form rows.now mark (HasWideFormOf form.n))) }
{
    if mark_next(&mut form, rows, mark)? {
        Ok(Some(form))
    } else {
        Ok(None)
    }
}
