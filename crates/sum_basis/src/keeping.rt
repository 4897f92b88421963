//! What a form leaves of the rows of sets that are to stay out of its span, kept until it would leave something else.
ghost use Rattle.std.specs.Prelude.{◌≡◌, ◌≢◌, ◌↔◌, ◌≤◌, ◌++◌, ℤ, List, [], ◌∷◌, length, map, All, IfOk, OnOk, OnErr, IfSome, IsTrue};
ghost use Rattle.std.specs.List.{AllByRecursion};
ghost use Rattle.std.specs.Vec.{vec_capacity};
ghost use Rattle.audit_types.specs.Form.{set_row, IsReducedForm};
ghost use Rattle.sum_basis.specs.Basis.{Echelon};
ghost use Rattle.sum_basis.specs.Elimination.{IsZeroAtPivots};
ghost use Rattle.sum_basis.specs.Growth.{ForeseesApart, GrowsWide, IsLeftOver, IsWeighed, SpansAfter, SpansOneAfter};
ghost use Rattle.sum_basis.specs.Holding.{IsKeptOf, IsKeptWithout};
ghost use Rattle.sum_basis.specs.Sparse.{row_of, IsNew};
ghost use Rattle.sum_basis.specs.declared.Prospect.TheVariants.{Wide};

use crate::Prospect;
use crate::cleared_list::value_at;
use crate::elimination::write_set;
use crate::form::{Form, Left, Weighed};
use crate::guarding::{has_own_unit, spans_after};
use crate::sparse::FreeEntry;
use audit_types::{MOST_WIDTH, NoMemory, RowSet};

/// A set, and the list that the form leaves of its row, if that is known. There is none if the row lies in the span, or has an entry
/// above the greatest width.
#[derive(Drop)]
pub(crate) struct KeptSet {
    pub rows: RowSet,
    pub known: bool,
    pub list: Option<Vec<FreeEntry>>,
}

/// Whether these are the kept sets, in order.
pub(crate) fn are_kept(kept: &[KeptSet], sets: &[RowSet]) -> bool
    ensures { IsTrue result → map (λ k. k.rows) kept.now ≡ sets.now }
{
    if kept.len() != sets.len() {
        return false;
    }
    for (k, set) in sets.iter().enumerate() {
        if !kept[k].rows.same(set) {
            return false;
        }
    }
    true
}

// Has these sets kept, if they aren't. Of a new one nothing is known yet.
fn keep_all(kept: &mut Vec<KeptSet>, sets: &[RowSet]) -> Result<(), NoMemory>
    ensures kept { (form : Echelon) → All (λ s. s.n ≡ form.n) sets.now → AllByRecursion (IsKeptOf form) kept.old.items → AllByRecursion (IsKeptOf form) kept.new.items }
    ensures are { OnOk result (map (λ k. k.rows) kept.new.items ≡ sets.now) }
{
    if are_kept(kept, sets) {
        return Ok(());
    }
    kept.clear();
    for set in sets {
        kept.push(KeptSet {
            rows: *set,
            known: false,
            list: None,
        })?;
    }
    Ok(())
}

// Finds what the form leaves of the row of a set, if that isn't known.
fn settle(form: &Form, kept: &mut KeptSet, row: &mut [i128]) -> Result<(), NoMemory>
    requires length { length row.old ≡ form.now.n }
    requires kept { IsKeptOf form.now kept.old }
    ensures rows { kept.new.rows ≡ kept.old.rows }
    ensures kept { IsKeptOf form.now kept.new }
{
    if kept.known {
        return Ok(());
    }
    write_set(row, &kept.rows);
    // What every form is: its width isn't above the greatest.
    let _ = form.columns();
    kept.list = match form.settle(row, MOST_WIDTH)? {
        Left::Nothing => None,
        Left::Large => None,
        Left::Entries(list) => Some(list),
    };
    kept.known = true;
    Ok(())
}

// Finds what the form leaves of each set's row, if that isn't known.
fn settle_all(form: &Form, kept: &mut Vec<KeptSet>, row: &mut [i128]) -> Result<(), NoMemory>
    requires length { length row.old ≡ form.now.n }
    requires kept { AllByRecursion (IsKeptOf form.now) kept.old.items }
    ensures kept { AllByRecursion (IsKeptOf form.now) kept.new.items }
    ensures are { map (λ k. k.rows) kept.new.items ≡ map (λ k. k.rows) kept.old.items }
{
    for k in 0..kept.len() {
        settle(form, &mut kept[k], row)?;
    }
    Ok(())
}

// Forgets what the form leaves of the row of a set, unless it is a list with 0 at the place.
fn forget(form: &Form, kept: &mut KeptSet, place: u16)
    requires { IsKeptOf form.now kept.old }
    ensures kept { IsKeptOf form.now kept.new }
    ensures without { IsKeptWithout place kept.new }
{
    // What every form is: it has at most `MOST_COLUMNS` columns.
    let _ = form.columns();
    let stays = match &kept.list {
        Some(list) => value_at(list, place) == 0,
        None => false,
    };
    if !stays {
        kept.known = false;
        kept.list = None;
    }
}

// Forgets what the form leaves of each set's row, unless it is a list with 0 at the place.
fn forget_all(form: &Form, kept: &mut Vec<KeptSet>, place: u16)
    requires { AllByRecursion (IsKeptOf form.now) kept.old.items }
    ensures kept { AllByRecursion (IsKeptOf form.now) kept.new.items }
    ensures without { AllByRecursion (IsKeptWithout place) kept.new.items }
{
    for k in 0..kept.len() {
        forget(form, &mut kept[k], place);
    }
}

/// Adds the list of a new row with which the form is narrow. A list that is 0 at its pivot is what the form leaves of a set then too,
/// and stays; the others are forgotten.
pub(crate) fn join_list(
    form: &mut Form,
    kept: &mut Vec<KeptSet>,
    new: Vec<FreeEntry>,
) -> Result<(), NoMemory>
    requires new { IsNew form.old.n new.items }
    requires new_room { form.old.n ≤ vec_capacity new }
    requires zero { IsZeroAtPivots form.old.rows (row_of form.old.n new.items) }
    requires narrow { ¬ (GrowsWide form.old (row_of form.old.n new.items)) }
    requires kept { AllByRecursion (IsKeptOf form.old) kept.old.items }
    ensures reduced { OnOk result (IsReducedForm form.old.n (form.old.rows ++ row_of form.old.n new.items ∷ []) form.new.rows) }
    ensures n { form.new.n ≡ form.old.n }
    ensures width { form.new.width ≡ form.old.width }
    ensures err { OnErr result (form.new ≡ form.old) }
    ensures kept { AllByRecursion (IsKeptOf form.new) kept.new.items }
{
    // What every form is: its rows are a form.
    let _ = form.columns();
    forget_all(form, kept, new[0].place);
    form.insert_list(new)
}

/// Whether the lists have the same entries.
pub(crate) fn same_list(list: &[FreeEntry], other: &[FreeEntry]) -> bool
    ensures { IsTrue result ↔ (list.now ≡ other.now) }
{
    if list.len() != other.len() {
        return false;
    }
    for (k, entry) in list.iter().enumerate() {
        if entry.place != other[k].place || entry.value != other[k].value {
            return false;
        }
    }
    true
}

// Whether the row of a kept set lies in the span of the form with what it left of another row.
fn spans_kept(form: &Form, left: &Option<Vec<FreeEntry>>, row: &mut [i128], kept: &KeptSet) -> bool
    requires length { length row.old ≡ form.now.n }
    requires kept { IsKeptOf form.now kept.now }
    requires left { IfSome left.now (λ list. IsLeftOver form.now list.items) }
    ensures { IsTrue result ↔ SpansAfter form.now left.now (set_row form.now.n kept.now.rows.list) }
{
    let Some(list) = &kept.list else {
        write_set(row, &kept.rows);
        return spans_after(form, left, row);
    };
    // What every form is: its rows are a form.
    let _ = form.columns();
    match left {
        Some(other) => same_list(list, other),
        None => false,
    }
}

// Whether the row of one of the kept sets lies in the span of the form with what it left of another row.
fn spans_one_kept(
    form: &Form,
    left: &Option<Vec<FreeEntry>>,
    row: &mut [i128],
    kept: &[KeptSet],
) -> bool
    requires length { length row.old ≡ form.now.n }
    requires kept { AllByRecursion (IsKeptOf form.now) kept.now }
    requires left { IfSome left.now (λ list. IsLeftOver form.now list.items) }
    ensures { IsTrue result ↔ SpansOneAfter form.now left.now (map (λ k. k.rows.list) kept.now) }
{
    for set in kept {
        if spans_kept(form, left, row, set) {
            return true;
        }
    }
    false
}

// What is told of a form that is narrow with a row that was weighed. It keeps what the form leaves of the sets.
fn tell_narrow_kept(
    form: &Form,
    kept: &mut Vec<KeptSet>,
    weighed: &Weighed,
    row: &mut [i128],
    shared: &RowSet,
    apart: &[RowSet],
) -> Result<Prospect, NoMemory>
    requires length { length row.old ≡ form.now.n }
    requires shared { shared.now.n ≡ form.now.n }
    requires same_n { All (λ s. s.n ≡ form.now.n) apart.now }
    requires kept { AllByRecursion (IsKeptOf form.now) kept.old.items }
    requires left { IfSome weighed.now.list (λ list. IsLeftOver form.now list.items) }
    requires narrow { weighed.now.prospect ≢ Wide }
    ensures told { (asked : List ℤ) → IsWeighed form.now asked weighed.now → IfOk result (ForeseesApart form.now asked shared.now.list (map (λ s. s.list) apart.now)) }
    ensures kept { AllByRecursion (IsKeptOf form.now) kept.new.items }
{
    if has_own_unit(form, weighed, shared) {
        return Ok(Prospect::Fixing);
    }
    keep_all(kept, apart)?;
    settle_all(form, kept, row)?;
    if spans_one_kept(form, &weighed.list, row, kept) {
        Ok(Prospect::Fixing)
    } else {
        Ok(Prospect::Open)
    }
}

/// What is told of the form with a row that was weighed, if shared rows may lie in its span, and the rows of these sets are to stay
/// out of it too, as `tell_apart` tells it. It keeps what the form leaves of the sets. They are looked at only if the unit row of no
/// row that isn't shared would lie in the span.
pub(crate) fn tell_kept(
    form: &Form,
    kept: &mut Vec<KeptSet>,
    weighed: &Weighed,
    row: &mut [i128],
    shared: &RowSet,
    apart: &[RowSet],
) -> Result<Prospect, NoMemory>
    requires length { length row.old ≡ form.now.n }
    requires shared { shared.now.n ≡ form.now.n }
    requires same_n { All (λ s. s.n ≡ form.now.n) apart.now }
    requires kept { AllByRecursion (IsKeptOf form.now) kept.old.items }
    requires left { IfSome weighed.now.list (λ list. IsLeftOver form.now list.items) }
    ensures told { (asked : List ℤ) → IsWeighed form.now asked weighed.now → IfOk result (ForeseesApart form.now asked shared.now.list (map (λ s. s.list) apart.now)) }
    ensures kept { AllByRecursion (IsKeptOf form.now) kept.new.items }
{
    match weighed.prospect {
        Prospect::Wide => Ok(Prospect::Wide),
        Prospect::Fixing => tell_narrow_kept(form, kept, weighed, row, shared, apart),
        Prospect::Open => tell_narrow_kept(form, kept, weighed, row, shared, apart),
    }
}
