//! The canonical proof of a sum.
ghost use Rattle.std.specs.Prelude.{◌≡◌, ◌↔◌, suc, ◌+◌, ◌<◌, ◌≤◌, Err, IsTrue, IfOk, IfSome, IfNone, length, map};
ghost use Rattle.std.specs.List.{AllByRecursion};
ghost use Rattle.audit_types.specs.Limits.{most_rows, most_groups};
ghost use Rattle.audit_types.specs.Rows.{AreRows};
ghost use Rattle.audit_types.specs.History.{answers_of};
ghost use Rattle.audit_types.specs.Form.{set_row, InSpan};
ghost use Rattle.audit_types.specs.Headcount.{CountPeople};
ghost use Rattle.audit_types.specs.Truth.{number_at};
ghost use Rattle.denial_proof.specs.Certificates.{IsSmall, rows_of};
ghost use Rattle.denial_proof.specs.Weights.{own_rows, share_for};
ghost use Rattle.denial_proof.specs.Kept.{AreMarks, AreMarksOf, AreIndependent, kept_sets};
ghost use Rattle.denial_proof.specs.Canonical.{IsFirstTarget, IsSumProof, AreNumbersWide, IsSumTooWide, sets_with_asked};
ghost use Rattle.denial_proof.specs.Denied.{IsUnsafeSum};
ghost use Rattle.denial_proof.specs.Numbers.{AreNumbersFor};

use crate::marks::Marks;
use crate::numbers::multipliers;
use crate::proof_parts::{OwnShare, Proof, ProveFault, Target, Terms};
use crate::public_facts::PublicFacts;
use crate::targets::{Told, basis_with, first_target, rows_of, told_row};
use crate::terms::terms_of;
use crate::totals::is_small;
use audit_types::NoMemory;
use std::alloc::Global;
use sum_audit::SumColumn;
use sum_audit::laws::{directions_of_a_form, pinned_rows};
use sum_basis::Form;

fn are_small(numbers: &[i128]) -> bool
    ensures { IsTrue result ↔ AllByRecursion IsSmall numbers.now }
{
    numbers.iter().all(|x| is_small(*x))
}

// The share of the row whose number the asker knows: what its set is counted, taken away.
fn share_at(own: Option<u16>, numbers: &[i128], at: usize) -> Option<OwnShare>
    requires small { AllByRecursion IsSmall numbers.now }
    requires there { at + length (own_rows own) ≡ length numbers.now }
    ensures { result ≡ share_for own (number_at numbers.now at) }
{
    match own {
        Some(own) => Some(OwnShare {
            own,
            share: -numbers[at],
        }),
        None => None,
    }
}

// How many sets are counted beside the kept ones.
fn sets_beside(own: Option<u16>) -> u16
    ensures { result ≡ suc (length (own_rows own)) }
{
    match own {
        Some(_) => 2,
        None => 1,
    }
}

// The canonical proof by the numbers for what the kept sets tell. A number for a row that all would know is never too large.
fn prove_by(
    alloc: Global,
    facts: &PublicFacts<'_>,
    places: &[u32],
    numbers: &[i128],
    told: Told,
) -> Result<Proof, ProveFault>
    requires some { 0 < facts.now.n }
    requires at_most { facts.now.n ≤ most_rows }
    requires numbers { AreNumbersFor facts.now.n facts.now.history.now facts.now.asked.now (suc facts.now.protected.now.people.own) told.own places.now (set_row facts.now.n (rows_of facts.now.protected.now told.target)) numbers.now }
    requires independent { AreIndependent facts.now.n (kept_sets facts.now.history.now places.now facts.now.asked.now.rows.list told.own) }
    requires few { length (own_rows told.own) ≤ facts.now.protected.now.people.own }
    requires first { IsFirstTarget facts.now.n facts.now.protected.now facts.now.asked.now.column (map (set_row facts.now.n) (sets_with_asked facts.now.history.now facts.now.asked.now)) told.target told.own }
    requires spanned { InSpan (map (set_row facts.now.n) (kept_sets facts.now.history.now places.now facts.now.asked.now.rows.list told.own)) (set_row facts.now.n (rows_of facts.now.protected.now told.target)) }
    ensures is { IfOk result (IsSumProof facts.now.n facts.now.history.now facts.now.protected.now facts.now.asked.now) }
    ensures wide { result ≡ Err ProveFault.Wide → AreNumbersWide facts.now.n facts.now.history.now facts.now.protected.now facts.now.asked.now }
{
    if !are_small(numbers) {
        return Err(ProveFault::Wide);
    }
    let kept = places.len();
    let list = terms_of(alloc, places, &numbers[1..])?;
    Ok(Proof::Sum {
        target: told.target,
        share: share_at(told.own, numbers, kept + 2),
        times: numbers[0],
        terms: Terms { list },
        asked: numbers[kept + 1],
    })
}

/// The canonical proof for what the kept sets tell, from the form of all marked rows.
pub(crate) fn prove_target(
    alloc: Global,
    facts: &PublicFacts<'_>,
    places: &[u32],
    form: &Form,
    told: Told,
) -> Result<Proof, ProveFault>
    requires some { 0 < facts.now.n }
    requires at_most { facts.now.n ≤ most_rows }
    requires marks { AreMarks facts.now.n facts.now.history.now facts.now.asked.now (suc facts.now.protected.now.people.own) told.own places.now form.now }
    requires independent { AreIndependent facts.now.n (kept_sets facts.now.history.now places.now facts.now.asked.now.rows.list told.own) }
    requires few { length (own_rows told.own) ≤ facts.now.protected.now.people.own }
    requires first { IsFirstTarget facts.now.n facts.now.protected.now facts.now.asked.now.column (map (set_row facts.now.n) (sets_with_asked facts.now.history.now facts.now.asked.now)) told.target told.own }
    requires spanned { InSpan (map (set_row facts.now.n) (kept_sets facts.now.history.now places.now facts.now.asked.now.rows.list told.own)) (set_row facts.now.n (rows_of facts.now.protected.now told.target)) }
    ensures is { IfOk result (IsSumProof facts.now.n facts.now.history.now facts.now.protected.now facts.now.asked.now) }
    ensures wide { result ≡ Err ProveFault.Wide → AreNumbersWide facts.now.n facts.now.history.now facts.now.protected.now facts.now.asked.now }
{
    // A form says of itself how large its entries are.
    let _ = form.columns();
    let rows = rows_of(facts.n, facts.protected, facts.asked.column, told);
    let kept = places.len();
    let numbers = multipliers(alloc, form, &rows, kept as u16 + sets_beside(told.own))?;
    prove_by(alloc, facts, places, &numbers, told)
}

// The form of all marked rows of a question that tells this.
fn marked_form(
    sums: &SumColumn,
    marks: &Marks,
    facts: &PublicFacts<'_>,
    told: Told,
) -> Result<Form, ProveFault>
    requires same_n { facts.now.n ≡ sums.now.n }
    requires own { AllByRecursion (λ q. q < facts.now.asked.now.rows.n) (own_rows told.own) }
    requires room { IfSome marks.now.form (λ form. facts.now.asked.now.rows.n + (length marks.now.places.items + length (own_rows told.own)) < form.n) }
    requires few { length marks.now.places.items < facts.now.asked.now.rows.n }
    requires marks { AreMarksOf sums.now.n facts.now.asked.now.column facts.now.history.now (suc facts.now.protected.now.people.own) marks.now.places.items marks.now.form }
    requires first { IsFirstTarget sums.now.n facts.now.protected.now facts.now.asked.now.column (map (set_row sums.now.n) (sets_with_asked facts.now.history.now facts.now.asked.now)) told.target told.own }
    ensures marks { IfOk result (λ form. AreMarks sums.now.n facts.now.history.now facts.now.asked.now (suc facts.now.protected.now.people.own) told.own marks.now.places.items form) }
    ensures wide { result ≡ Err ProveFault.Wide → IsSumTooWide sums.now.n facts.now.history.now facts.now.protected.now facts.now.asked.now }
{
    marks.form_for(facts.asked, told.own)
}

// The numbers for a row that all would know, if one row of the form tells them.
fn numbers_at_once(
    alloc: Global,
    sums: &SumColumn,
    marks: &Marks,
    facts: &PublicFacts<'_>,
    told: Told,
) -> Result<Option<Vec<i128>>, ProveFault>
    requires same_n { facts.now.n ≡ sums.now.n }
    requires room { IfSome marks.now.form (λ form. facts.now.asked.now.rows.n + (length marks.now.places.items + length (own_rows told.own)) < form.n) }
    requires few { length marks.now.places.items < facts.now.asked.now.rows.n }
    requires marks { AreMarksOf sums.now.n facts.now.asked.now.column facts.now.history.now (suc facts.now.protected.now.people.own) marks.now.places.items marks.now.form }
    requires first { IsFirstTarget sums.now.n facts.now.protected.now facts.now.asked.now.column (map (set_row sums.now.n) (sets_with_asked facts.now.history.now facts.now.asked.now)) told.target told.own }
    ensures numbers { IfOk result (λ found. IfSome found (λ list. AreNumbersFor sums.now.n facts.now.history.now facts.now.asked.now (suc facts.now.protected.now.people.own) told.own marks.now.places.items (set_row sums.now.n (rows_of facts.now.protected.now told.target)) list.items)) }
    ensures wide { result ≡ Err ProveFault.Wide → IsSumTooWide sums.now.n facts.now.history.now facts.now.protected.now facts.now.asked.now }
{
    match told {
        Told {
            target: Target::Row(row),
            own: None,
        } => marks.numbers_for(alloc, facts.asked, row),
        _ => Ok(None),
    }
}

// The canonical proof of what the kept sets tell first.
fn prove_told(
    alloc: Global,
    sums: &SumColumn,
    marks: &Marks,
    facts: &PublicFacts<'_>,
    told: Told,
) -> Result<Proof, ProveFault>
    requires some { 0 < sums.now.n }
    requires at_most { sums.now.n ≤ most_rows }
    requires same_n { facts.now.n ≡ sums.now.n }
    requires own { AllByRecursion (λ q. q < facts.now.asked.now.rows.n) (own_rows told.own) }
    requires room { IfSome marks.now.form (λ form. facts.now.asked.now.rows.n + (length marks.now.places.items + length (own_rows told.own)) < form.n) }
    requires few { length marks.now.places.items < facts.now.asked.now.rows.n }
    requires marks { AreMarksOf sums.now.n facts.now.asked.now.column facts.now.history.now (suc facts.now.protected.now.people.own) marks.now.places.items marks.now.form }
    requires first { IsFirstTarget sums.now.n facts.now.protected.now facts.now.asked.now.column (map (set_row sums.now.n) (sets_with_asked facts.now.history.now facts.now.asked.now)) told.target told.own }
    requires independent { AreIndependent sums.now.n (kept_sets facts.now.history.now marks.now.places.items facts.now.asked.now.rows.list told.own) }
    requires askers { length (own_rows told.own) ≤ facts.now.protected.now.people.own }
    requires spanned { InSpan (map (set_row sums.now.n) (kept_sets facts.now.history.now marks.now.places.items facts.now.asked.now.rows.list told.own)) (set_row sums.now.n (rows_of facts.now.protected.now told.target)) }
    ensures is { IfOk result (IsSumProof sums.now.n facts.now.history.now facts.now.protected.now facts.now.asked.now) }
    ensures wide { result ≡ Err ProveFault.Wide → IsSumTooWide sums.now.n facts.now.history.now facts.now.protected.now facts.now.asked.now }
    ensures narrow { IfOk result (λ proof. ¬ (IsSumTooWide sums.now.n facts.now.history.now facts.now.protected.now facts.now.asked.now)) }
{
    if let Some(numbers) = numbers_at_once(alloc, sums, marks, facts, told)? {
        return prove_by(alloc, facts, &marks.places, &numbers, told);
    }
    let form = marked_form(sums, marks, facts, told)?;
    prove_target(alloc, facts, &marks.places, &form, told)
}

// What the sets tell first, with the asked one. A row that all would know is found without their form.
fn first_told(sums: &SumColumn, facts: &PublicFacts<'_>) -> Result<Option<Told>, NoMemory>
    requires same_n { facts.now.n ≡ sums.now.n }
    requires answers { sums.now.answers ≡ answers_of facts.now.asked.now.column facts.now.history.now }
    requires people { CountPeople sums.now.n facts.now.protected.now.people }
    requires few_groups { length facts.now.protected.now.groups ≤ most_groups }
    requires denied { IsUnsafeSum sums.now.n sums.now.width facts.now.history.now facts.now.protected.now facts.now.asked.now }
    ensures some { IfOk result (λ found. IfSome found (λ told. IsFirstTarget sums.now.n facts.now.protected.now facts.now.asked.now.column (map (set_row sums.now.n) (sets_with_asked facts.now.history.now facts.now.asked.now)) told.target told.own)) }
    ensures none { IfOk result (λ found. IfNone found ⊥) }
{
    // A column says of itself how many rows there are.
    let _ = sums.n();
    if let Some(row) = told_row(sums, facts.protected, &facts.asked.rows)? {
        return Ok(Some(Told {
            target: Target::Row(row),
            own: None,
        }));
    }
    let basis = basis_with(sums, &facts.asked.rows)?;
    first_target(facts.n, &basis, facts.protected, facts.asked.column)
}

/// The canonical proof that a sum is dangerous.
pub(crate) fn prove_sum(
    alloc: Global,
    sums: &SumColumn,
    marks: &Marks,
    facts: &PublicFacts<'_>,
) -> Result<Proof, ProveFault>
    requires same_n { facts.now.n ≡ sums.now.n }
    requires rows { AllByRecursion (λ r. AreRows sums.now.n r.rows.list) facts.now.history.now }
    requires answers { sums.now.answers ≡ answers_of facts.now.asked.now.column facts.now.history.now }
    requires people { CountPeople sums.now.n facts.now.protected.now.people }
    requires few_groups { length facts.now.protected.now.groups ≤ most_groups }
    requires marks { AreMarksOf sums.now.n facts.now.asked.now.column facts.now.history.now (suc facts.now.protected.now.people.own) marks.now.places.items marks.now.form }
    requires denied { IsUnsafeSum sums.now.n sums.now.width facts.now.history.now facts.now.protected.now facts.now.asked.now }
    ensures is { IfOk result (IsSumProof sums.now.n facts.now.history.now facts.now.protected.now facts.now.asked.now) }
    ensures wide { result ≡ Err ProveFault.Wide → IsSumTooWide sums.now.n facts.now.history.now facts.now.protected.now facts.now.asked.now }
    ensures narrow { IfOk result (λ proof. ¬ (IsSumTooWide sums.now.n facts.now.history.now facts.now.protected.now facts.now.asked.now)) }
{
    pinned_rows();
    directions_of_a_form();
    // A set says of itself that its rows are rows of the table, and a column how many rows there are.
    let _ = facts.asked.rows.n();
    let _ = sums.n();
    match first_told(sums, facts)? {
        Some(told) => prove_told(alloc, sums, marks, facts, told),
        None => unreachable!(),
    }
}
