//! The marks of a column of sums: its kept records, and the form of their marked rows.
ghost use Rattle.std.specs.Prelude.{◌≡◌, ◌≤◌, ◌<◌, ◌+◌, ℕ, suc, List, [], ◌∷◌, Err, None, Some, Option, IfOk, IfSome, length};
ghost use Rattle.audit_types.specs.Headcount.{own_of};
ghost use Rattle.std.specs.List.{AllByRecursion};
ghost use Rattle.audit_types.specs.declared.records.Answered.{Answered};
ghost use Rattle.audit_types.specs.Limits.{most_rows, most_width};
ghost use Rattle.denial_proof.specs.Kept.{AreMarks, AreMarksOf, marks_for};
ghost use Rattle.audit_types.specs.Form.{set_row};
ghost use Rattle.denial_proof.specs.Numbers.{AreNumbersFor};
ghost use Rattle.denial_proof.specs.Weights.{own_rows};
ghost use Rattle.denial_proof.specs.Canonical.{AreMarksWide};
ghost use Rattle.denial_proof.specs.Denied.{AreNarrowSums};

use crate::kept::{kept_places, mark_all, mark_asked, mark_own, marked_row_at};
use crate::numbers::multipliers_of_row;
use crate::proof_parts::ProveFault;
use crate::targets::only_row;
use audit_types::{Answered, Asked, Askers, NoMemory};
use std::alloc::Global;
use sum_basis::laws::forms_are_unique;
use sum_basis::{Form, RowWith};

/// The places of the kept records, and the form of their marked rows, with a mark more for the set of a question, and one for the row whose number
/// an asker knows if some may know one. There is no form if that of some front of the marked rows isn't narrow, nor if there are as many kept
/// records as rows: no question is denied as unsafe then.
#[derive(Drop)]
pub(crate) struct Marks {
    pub(crate) places: Vec<u32>,
    pub(crate) form: Option<Form>,
}

// How many marks there are for so many kept sets, and so many sets more.
fn marks_for(n: u16, more: u16, sets: usize) -> u16
    requires at_most { n ≤ most_rows }
    requires more { more ≤ 2 }
    requires sets { sets ≤ n }
    ensures { result ≡ marks_for n more sets }
{
    let marks = sets as u16 + more;
    if marks <= n { marks } else { n }
}

// How many sets more may be counted than the kept ones: that of a question, and the row of an asker, if she is in the table.
fn sets_more(askers: Askers) -> u16
    ensures { result ≡ suc (own_of askers) }
{
    match askers {
        Askers::Outside => 1,
        Askers::Inside => 2,
    }
}

/// The marks of a column.
pub(crate) fn marks_of(
    alloc: Global,
    n: u16,
    askers: Askers,
    history: &[Answered],
    column: u8,
) -> Result<Marks, NoMemory>
    requires some { 0 < n }
    requires at_most { n ≤ most_rows }
    requires few { length history.now ≤ 65536 }
    requires same_n { AllByRecursion (λ r. r.rows.n ≡ n) history.now }
    requires narrow { AreNarrowSums n column history.now }
    ensures { IfOk result (λ marks. AreMarksOf n column history.now (suc (own_of askers)) marks.places.items marks.form) }
{
    let places = kept_places(alloc, n, history, column)?;
    if places.len() >= n as usize {
        return Ok(Marks { places, form: None });
    }
    let marks = marks_for(n, sets_more(askers), places.len());
    let form = mark_all(alloc, n, marks, history, &places)?;
    Ok(Marks { places, form })
}

impl Marks {
    // The form with the marked row of the asked set after the others, unless it isn't narrow, or that of some front of them isn't.
    fn with_asked(&self, asked: &Asked) -> Result<Form, ProveFault>
        requires room { IfSome self.now.form (λ form. asked.now.rows.n + length self.now.places.items < form.n) }
        requires width { IfSome self.now.form (λ form. form.width ≡ most_width) }
        requires few { length self.now.places.items < asked.now.rows.n }
        ensures marks { IfOk result (λ form. (history : List Answered) (more : ℕ) → AreMarksOf asked.now.rows.n asked.now.column history more self.now.places.items self.now.form → AreMarks asked.now.rows.n history asked.now more None self.now.places.items form) }
        ensures room { IfOk result (λ form. (k : ℕ) → IfSome self.now.form (λ old. k < old.n) → k < form.n) }
        ensures width { IfOk result (λ form. form.width ≡ most_width) }
        ensures wide { result ≡ Err ProveFault.Wide → (history : List Answered) (more : ℕ) (own : Option ℕ) → AreMarksOf asked.now.rows.n asked.now.column history more self.now.places.items self.now.form → AreMarksWide asked.now.rows.n history more asked.now own }
    {
        forms_are_unique();
        let Some(form) = &self.form else {
            return Err(ProveFault::Wide);
        };
        // A form says of itself how many columns it has at most.
        let _ = form.columns();
        match mark_asked(form, &asked.rows, self.places.len() as u16)? {
            Some(with_asked) => Ok(with_asked),
            None => Err(ProveFault::Wide),
        }
    }

    // The form of these and of the row whose number the asker knows, from that with the asked set, unless it isn't narrow.
    fn with_own(&self, asked: &Asked, own: u16, with_asked: Form) -> Result<Form, ProveFault>
        requires own { own < asked.now.rows.n }
        requires room { asked.now.rows.n + (length self.now.places.items + 1) < with_asked.n }
        requires width { with_asked.width ≡ most_width }
        ensures marks { IfOk result (λ form. (history : List Answered) (more : ℕ) → AreMarks asked.now.rows.n history asked.now more None self.now.places.items with_asked → AreMarks asked.now.rows.n history asked.now more (Some own) self.now.places.items form) }
        ensures wide { result ≡ Err ProveFault.Wide → (history : List Answered) (more : ℕ) → AreMarks asked.now.rows.n history asked.now more None self.now.places.items with_asked → AreMarksWide asked.now.rows.n history more asked.now (Some own) }
    {
        forms_are_unique();
        // A form says of itself how many columns it has at most.
        let _ = with_asked.columns();
        let row = only_row(asked.rows.n(), own);
        match mark_own(with_asked, &row, self.places.len() as u16 + 1)? {
            Some(with_own) => Ok(with_own),
            None => Err(ProveFault::Wide),
        }
    }

    /// The form with the marked row of the asked set after the others, and then that of the row whose number the asker knows, if she knows one,
    /// unless it isn't narrow, or that of some front of them isn't.
    pub(crate) fn form_for(&self, asked: &Asked, own: Option<u16>) -> Result<Form, ProveFault>
        requires own { AllByRecursion (λ q. q < asked.now.rows.n) (own_rows own) }
        requires room { IfSome self.now.form (λ form. asked.now.rows.n + (length self.now.places.items + length (own_rows own)) < form.n) }
        requires width { IfSome self.now.form (λ form. form.width ≡ most_width) }
        requires few { length self.now.places.items < asked.now.rows.n }
        ensures marks { IfOk result (λ form. (history : List Answered) (more : ℕ) → AreMarksOf asked.now.rows.n asked.now.column history more self.now.places.items self.now.form → AreMarks asked.now.rows.n history asked.now more own self.now.places.items form) }
        ensures wide { result ≡ Err ProveFault.Wide → (history : List Answered) (more : ℕ) → AreMarksOf asked.now.rows.n asked.now.column history more self.now.places.items self.now.form → AreMarksWide asked.now.rows.n history more asked.now own }
    {
        let with_asked = self.with_asked(asked)?;
        match own {
            Some(own) => self.with_own(asked, own, with_asked),
            None => Ok(with_asked),
        }
    }

    /// The numbers for a row of the table that all would know, read off one row of the form with the marked row of the asked set, unless that isn't narrow, or
    /// that of some front of them isn't. None if there is no row with its pivot there.
    pub(crate) fn numbers_for(
        &self,
        alloc: Global,
        asked: &Asked,
        row: u16,
    ) -> Result<Option<Vec<i128>>, ProveFault>
        requires row { row < asked.now.rows.n }
        requires room { IfSome self.now.form (λ form. asked.now.rows.n + length self.now.places.items < form.n) }
        requires width { IfSome self.now.form (λ form. form.width ≡ most_width) }
        requires few { length self.now.places.items < asked.now.rows.n }
        ensures numbers { IfOk result (λ found. IfSome found (λ list. (history : List Answered) (more : ℕ) → AreMarksOf asked.now.rows.n asked.now.column history more self.now.places.items self.now.form → AreNumbersFor asked.now.rows.n history asked.now more None self.now.places.items (set_row asked.now.rows.n (row ∷ [])) list.items)) }
        ensures wide { result ≡ Err ProveFault.Wide → (history : List Answered) (more : ℕ) → AreMarksOf asked.now.rows.n asked.now.column history more self.now.places.items self.now.form → AreMarksWide asked.now.rows.n history more asked.now None }
    {
        forms_are_unique();
        let Some(form) = &self.form else {
            return Err(ProveFault::Wide);
        };
        // A form says of itself how many columns it has at most.
        let _ = form.columns();
        let mark = self.places.len() as u16;
        let whole = match marked_row_at(form, &asked.rows, mark, row)? {
            RowWith::Wide => return Err(ProveFault::Wide),
            RowWith::Nothing => return Ok(None),
            RowWith::Row(whole) => whole,
        };
        let numbers = multipliers_of_row(alloc, &whole, row, asked.rows.n(), mark + 1)?;
        Ok(Some(numbers))
    }
}
