//! What a sum would give away.
ghost use Rattle.std.specs.Prelude.{slice_get, ◌≡◌, ◌↔◌, ◌≤◌, ◌<◌, ◌∷◌, ◌++◌, [], ℕ, true, false, List, map, length, Option, None, Some, IsTrue, IfOk, IfSome, IfNone};
ghost use Rattle.std.specs.List.{AllByRecursion};
ghost use Rattle.audit_types.specs.Limits.{most_groups, most_rows};
ghost use Rattle.audit_types.specs.Form.{set_row, InSpan, Reduced, HasNarrowForm};
ghost use Rattle.audit_types.specs.Headcount.{CountPeople};
ghost use Rattle.audit_types.specs.Rows.{has_row, IsLeast};
ghost use Rattle.sum_audit.specs.Sets.{sets_of};
ghost use Rattle.denial_proof.specs.declared.proof_parts.Target.TheVariants.{Row, Group};
ghost use Rattle.denial_proof.specs.Certificates.{IsTarget, rows_of};
ghost use Rattle.denial_proof.specs.Weights.{own_rows};
ghost use Rattle.denial_proof.specs.Canonical.{Tells, IsFirstTarget};
ghost use Rattle.denial_proof.specs.Tellers.{IsTeller};
ghost use Rattle.denial_proof.specs.declared.proof_parts.Target.{Target};

use crate::lone_rows::holds;
use crate::proof_parts::Target;
use crate::totals::has_other;
use audit_types::{Askers, Guard, NoMemory, Protected, RowSet};
use sum_audit::SumColumn;
use sum_basis::Basis;

/// The reduced form of the sets with the asked one.
pub(crate) fn basis_with(sums: &SumColumn, rows: &RowSet) -> Result<Basis, NoMemory>
    requires same_n { rows.now.n ≡ sums.now.n }
    requires narrow { HasNarrowForm sums.now.width sums.now.n (sets_of sums.now.answers ++ rows.now.list ∷ []) }
    ensures n { IfOk result (λ basis. basis.n ≡ sums.now.n) }
    ensures form { IfOk result (λ basis. Reduced sums.now.n (sets_of sums.now.answers ++ rows.now.list ∷ []) basis.rows) }
{
    let mut basis = sums.basis().copy()?;
    basis.insert(rows)?;
    Ok(basis)
}

/// The least row whose number all would know with the asked set. No form is made.
pub(crate) fn told_row(
    sums: &SumColumn,
    protected: &Guard,
    rows: &RowSet,
) -> Result<Option<u16>, NoMemory>
    requires same_n { rows.now.n ≡ sums.now.n }
    requires people { CountPeople sums.now.n protected.now.people }
    requires narrow { HasNarrowForm sums.now.width sums.now.n (sets_of sums.now.answers ++ rows.now.list ∷ []) }
    ensures { IfOk result (λ found. IfSome found (λ row. (column : ℕ) → IsFirstTarget sums.now.n protected.now column (map (set_row sums.now.n) (sets_of sums.now.answers ++ rows.now.list ∷ [])) (Row row) None)) }
{
    let shared = protected.rows().shared().over(sums.n());
    sums.basis().unshared_unit_row_with(&shared, rows)
}

/// What a sum would give away, and the row whose number one has to know for it, if all wouldn't know it.
#[derive(Clone, Copy)]
pub(crate) struct Told {
    pub(crate) target: Target,
    pub(crate) own: Option<u16>,
}

// Whether all would know the total of a group, one of the column.
fn is_told(basis: &Basis, entry: &Protected, column: u8) -> bool
    requires same_n { entry.now.rows.n ≡ basis.now.n }
    ensures { IsTrue result ↔ ((entry.now.column ≡ column) × ((row : ℕ) × (has_row entry.now.rows.list row ≡ true) × (has_row (own_rows None) row ≡ false)) × InSpan basis.now.rows (set_row basis.now.n entry.now.rows.list)) }
{
    entry.column == column && has_other(&entry.rows, None) && basis.contains(&entry.rows)
}

// The first protected total that all would know.
fn first_group(n: u16, basis: &Basis, protected: &Guard, column: u8) -> Option<u8>
    requires n { basis.now.n ≡ n }
    requires same_n { AllByRecursion (λ p. p.rows.n ≡ basis.now.n) protected.now.groups }
    requires few { length protected.now.groups ≤ most_groups }
    ensures { IsLeast (λ place. Tells n protected.now column basis.now.rows None (Group place)) result }
{
    for (place, entry) in protected.groups().iter().enumerate() {
        if is_told(basis, entry, column) {
            return Some(place as u8);
        }
    }
    None
}

// The least row whose number all would know.
fn first_row(n: u16, basis: &Basis, protected: &Guard, column: u8) -> Option<u16>
    requires some { 0 < n }
    requires at_most { n ≤ most_rows }
    requires n { basis.now.n ≡ n }
    requires people { CountPeople n protected.now.people }
    ensures { IsLeast (λ row. Tells n protected.now column basis.now.rows None (Row row)) result }
{
    let shared = protected.rows().shared().over(n);
    basis.unshared_unit_row(&shared)
}

// Whether one who knows this row's number, of one person, knows the total over the set, which has another row.
fn is_teller(
    n: u16,
    basis: &Basis,
    several: &RowSet,
    set: &RowSet,
    own: u16,
) -> Result<bool, NoMemory>
    requires at_most { n ≤ most_rows }
    requires n { basis.now.n ≡ n }
    requires several { several.now.n ≡ n }
    requires set { set.now.n ≡ n }
    requires own { own < n }
    ensures { IfOk result (λ told. IsTrue told ↔ IsTeller basis.now several.now.list set.now.list own) }
{
    if several.has(own) {
        return Ok(false);
    }
    let mut others = only_row(n, own);
    others.flip();
    basis.spans_beside(set, &others)
}

// Whether that is so of some row.
fn has_teller(n: u16, basis: &Basis, several: &RowSet, set: &RowSet) -> Result<bool, NoMemory>
    requires n { basis.now.n ≡ n }
    requires several { several.now.n ≡ n }
    requires set { set.now.n ≡ n }
    ensures { IfOk result (λ told. IsTrue told ↔ ((own : ℕ) × IsTeller basis.now several.now.list set.now.list own)) }
{
    basis.spans_beside(set, several)
}

// The least row of which it is so, each looked at.
fn least_teller(
    n: u16,
    basis: &Basis,
    several: &RowSet,
    set: &RowSet,
) -> Result<Option<u16>, NoMemory>
    requires at_most { n ≤ most_rows }
    requires n { basis.now.n ≡ n }
    requires several { several.now.n ≡ n }
    requires set { set.now.n ≡ n }
    ensures { IfOk result (IsLeast (IsTeller basis.now several.now.list set.now.list)) }
{
    for own in 0..n {
        if is_teller(n, basis, several, set, own)? {
            return Ok(Some(own));
        }
    }
    Ok(None)
}

// The least row of which it is so.
fn first_teller(
    n: u16,
    basis: &Basis,
    several: &RowSet,
    set: &RowSet,
) -> Result<Option<u16>, NoMemory>
    requires at_most { n ≤ most_rows }
    requires n { basis.now.n ≡ n }
    requires several { several.now.n ≡ n }
    requires set { set.now.n ≡ n }
    ensures { IfOk result (IsLeast (IsTeller basis.now several.now.list set.now.list)) }
{
    if has_teller(n, basis, several, set)? {
        least_teller(n, basis, several, set)
    } else {
        Ok(None)
    }
}

// The least row of an asker who knows the number of this row.
fn teller_of_row(
    n: u16,
    basis: &Basis,
    protected: &Guard,
    column: u8,
    row: u16,
) -> Result<Option<u16>, NoMemory>
    requires at_most { n ≤ most_rows }
    requires n { basis.now.n ≡ n }
    requires people { CountPeople n protected.now.people }
    requires inside { 0 < protected.now.people.own }
    requires row { row < n }
    ensures { IfOk result (IsLeast (λ own. Tells n protected.now column basis.now.rows (Some own) (Row row))) }
{
    let people = protected.rows();
    if holds(people.beside(), row) {
        return Ok(None);
    }
    let several = people.several().over(n);
    let set = only_row(n, row);
    first_teller(n, basis, &several, &set)
}

// The least row of an asker who knows the total of the entry at this place.
fn teller_of_group(
    n: u16,
    basis: &Basis,
    protected: &Guard,
    column: u8,
    place: usize,
    entry: &Protected,
) -> Result<Option<u16>, NoMemory>
    requires some { 0 < n }
    requires at_most { n ≤ most_rows }
    requires n { basis.now.n ≡ n }
    requires people { CountPeople n protected.now.people }
    requires inside { 0 < protected.now.people.own }
    requires same_n { entry.now.rows.n ≡ n }
    requires there { slice_get protected.now.groups place ≡ Some entry.now }
    ensures { IfOk result (IsLeast (λ own. Tells n protected.now column basis.now.rows (Some own) (Group place))) }
{
    if entry.column != column {
        return Ok(None);
    }
    let several = protected.rows().several().over(n);
    first_teller(n, basis, &several, &entry.rows)
}

// The least row whose number one asker would know, with the least of such askers' rows.
fn first_pair(
    n: u16,
    basis: &Basis,
    protected: &Guard,
    column: u8,
) -> Result<Option<Told>, NoMemory>
    requires at_most { n ≤ most_rows }
    requires n { basis.now.n ≡ n }
    requires people { CountPeople n protected.now.people }
    requires inside { 0 < protected.now.people.own }
    requires no_row { (i : ℕ) → ¬ (Tells n protected.now column basis.now.rows None (Row i)) }
    ensures some { IfOk result (λ found. IfSome found (λ told. IsFirstTarget n protected.now column basis.now.rows told.target told.own)) }
    ensures none { IfOk result (λ found. IfNone found ((i p : ℕ) → ¬ (Tells n protected.now column basis.now.rows (Some p) (Row i)))) }
{
    for row in 0..n {
        if let Some(own) = teller_of_row(n, basis, protected, column, row)? {
            return Ok(Some(Told {
                target: Target::Row(row),
                own: Some(own),
            }));
        }
    }
    Ok(None)
}

// The first group whose total one asker would know, with the least of such askers' rows.
fn first_told_group(
    n: u16,
    basis: &Basis,
    protected: &Guard,
    column: u8,
) -> Result<Option<Told>, NoMemory>
    requires some { 0 < n }
    requires at_most { n ≤ most_rows }
    requires n { basis.now.n ≡ n }
    requires people { CountPeople n protected.now.people }
    requires inside { 0 < protected.now.people.own }
    requires same_n { AllByRecursion (λ p. p.rows.n ≡ basis.now.n) protected.now.groups }
    requires few { length protected.now.groups ≤ most_groups }
    requires no_row { (i : ℕ) → ¬ (Tells n protected.now column basis.now.rows None (Row i)) }
    requires no_pair { (i p : ℕ) → ¬ (Tells n protected.now column basis.now.rows (Some p) (Row i)) }
    requires no_group { (g : ℕ) → ¬ (Tells n protected.now column basis.now.rows None (Group g)) }
    ensures some { IfOk result (λ found. IfSome found (λ told. IsFirstTarget n protected.now column basis.now.rows told.target told.own)) }
    ensures none { IfOk result (λ found. IfNone found ((g p : ℕ) → ¬ (Tells n protected.now column basis.now.rows (Some p) (Group g)))) }
{
    for (place, entry) in protected.groups().iter().enumerate() {
        if let Some(own) = teller_of_group(n, basis, protected, column, place, entry)? {
            return Ok(Some(Told {
                target: Target::Group(place as u8),
                own: Some(own),
            }));
        }
    }
    Ok(None)
}

// What the sets of the form give away first, if all would know no row's number, and nobody of the table asks.
fn first_outside(n: u16, basis: &Basis, protected: &Guard, column: u8) -> Option<Told>
    requires n { basis.now.n ≡ n }
    requires outside { protected.now.people.own ≡ 0 }
    requires same_n { AllByRecursion (λ p. p.rows.n ≡ basis.now.n) protected.now.groups }
    requires few { length protected.now.groups ≤ most_groups }
    requires no_row { (i : ℕ) → ¬ (Tells n protected.now column basis.now.rows None (Row i)) }
    ensures some { IfSome result (λ told. IsFirstTarget n protected.now column basis.now.rows told.target told.own) }
    ensures none { IfNone result ((target : Target) (own : Option ℕ) → ¬ (Tells n protected.now column basis.now.rows own target)) }
{
    match first_group(n, basis, protected, column) {
        Some(place) => Some(Told {
            target: Target::Group(place),
            own: None,
        }),
        None => None,
    }
}

// The first group that is given away, if no row is given away to anybody.
fn first_group_inside(
    n: u16,
    basis: &Basis,
    protected: &Guard,
    column: u8,
) -> Result<Option<Told>, NoMemory>
    requires some { 0 < n }
    requires at_most { n ≤ most_rows }
    requires n { basis.now.n ≡ n }
    requires people { CountPeople n protected.now.people }
    requires inside { 0 < protected.now.people.own }
    requires same_n { AllByRecursion (λ p. p.rows.n ≡ basis.now.n) protected.now.groups }
    requires few { length protected.now.groups ≤ most_groups }
    requires no_row { (i : ℕ) → ¬ (Tells n protected.now column basis.now.rows None (Row i)) }
    requires no_pair { (i p : ℕ) → ¬ (Tells n protected.now column basis.now.rows (Some p) (Row i)) }
    ensures some { IfOk result (λ found. IfSome found (λ told. IsFirstTarget n protected.now column basis.now.rows told.target told.own)) }
    ensures none { IfOk result (λ found. IfNone found ((target : Target) (own : Option ℕ) → ¬ (Tells n protected.now column basis.now.rows own target))) }
{
    match first_group(n, basis, protected, column) {
        Some(place) => Ok(Some(Told {
            target: Target::Group(place),
            own: None,
        })),
        None => first_told_group(n, basis, protected, column),
    }
}

// What the sets of the form give away first, if all would know no row's number, and the people of the table ask.
fn first_inside(
    n: u16,
    basis: &Basis,
    protected: &Guard,
    column: u8,
) -> Result<Option<Told>, NoMemory>
    requires some { 0 < n }
    requires at_most { n ≤ most_rows }
    requires n { basis.now.n ≡ n }
    requires people { CountPeople n protected.now.people }
    requires inside { 0 < protected.now.people.own }
    requires same_n { AllByRecursion (λ p. p.rows.n ≡ basis.now.n) protected.now.groups }
    requires few { length protected.now.groups ≤ most_groups }
    requires no_row { (i : ℕ) → ¬ (Tells n protected.now column basis.now.rows None (Row i)) }
    ensures some { IfOk result (λ found. IfSome found (λ told. IsFirstTarget n protected.now column basis.now.rows told.target told.own)) }
    ensures none { IfOk result (λ found. IfNone found ((target : Target) (own : Option ℕ) → ¬ (Tells n protected.now column basis.now.rows own target))) }
{
    match first_pair(n, basis, protected, column)? {
        Some(told) => Ok(Some(told)),
        None => first_group_inside(n, basis, protected, column),
    }
}

// The same, whoever asks.
fn first_but_rows(
    n: u16,
    basis: &Basis,
    protected: &Guard,
    column: u8,
) -> Result<Option<Told>, NoMemory>
    requires some { 0 < n }
    requires at_most { n ≤ most_rows }
    requires n { basis.now.n ≡ n }
    requires people { CountPeople n protected.now.people }
    requires same_n { AllByRecursion (λ p. p.rows.n ≡ basis.now.n) protected.now.groups }
    requires few { length protected.now.groups ≤ most_groups }
    requires no_row { (i : ℕ) → ¬ (Tells n protected.now column basis.now.rows None (Row i)) }
    ensures some { IfOk result (λ found. IfSome found (λ told. IsFirstTarget n protected.now column basis.now.rows told.target told.own)) }
    ensures none { IfOk result (λ found. IfNone found ((target : Target) (own : Option ℕ) → ¬ (Tells n protected.now column basis.now.rows own target))) }
{
    match protected.rows().askers() {
        Askers::Inside => first_inside(n, basis, protected, column),
        Askers::Outside => Ok(first_outside(n, basis, protected, column)),
    }
}

/// What the sets of the form give away first.
pub(crate) fn first_target(
    n: u16,
    basis: &Basis,
    protected: &Guard,
    column: u8,
) -> Result<Option<Told>, NoMemory>
    requires some { 0 < n }
    requires at_most { n ≤ most_rows }
    requires n { basis.now.n ≡ n }
    requires people { CountPeople n protected.now.people }
    requires same_n { AllByRecursion (λ p. p.rows.n ≡ basis.now.n) protected.now.groups }
    requires few { length protected.now.groups ≤ most_groups }
    ensures some { IfOk result (λ found. IfSome found (λ told. IsFirstTarget n protected.now column basis.now.rows told.target told.own)) }
    ensures none { IfOk result (λ found. IfNone found ((target : Target) (own : Option ℕ) → ¬ (Tells n protected.now column basis.now.rows own target))) }
{
    match first_row(n, basis, protected, column) {
        Some(row) => Ok(Some(Told {
            target: Target::Row(row),
            own: None,
        })),
        None => first_but_rows(n, basis, protected, column),
    }
}

/// The set of one row.
pub(crate) fn only_row(n: u16, row: u16) -> RowSet
    requires at_most { n ≤ most_rows }
    requires row { row < n }
    ensures n { result.n ≡ n }
    ensures rows { result.list ≡ row ∷ [] }
{
    let mut rows = RowSet::new(n);
    rows.add(row);
    rows
}

/// The rows of a target.
pub(crate) fn rows_of(n: u16, protected: &Guard, column: u8, told: Told) -> RowSet
    requires some { 0 < n }
    requires at_most { n ≤ most_rows }
    requires same_n { AllByRecursion (λ p. p.rows.n ≡ n) protected.now.groups }
    requires target { IsTarget n protected.now column told.own told.target }
    ensures n { result.n ≡ n }
    ensures rows { result.list ≡ rows_of protected.now told.target }
{
    match told.target {
        Target::Row(row) => only_row(n, row),
        Target::Group(place) => protected.groups()[place as usize].rows,
    }
}
