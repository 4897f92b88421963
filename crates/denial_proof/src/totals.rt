//! The check of a proof for a column of sums.
ghost use Rattle.std.specs.Prelude.{◌≡◌, ◌↔◌, ℕ, ◌<◌, ◌≤◌, ◌^◌, pos, ◌+ℤ◌, true, false, [], ◌∷◌, IsTrue, length, unsigned_abs, All};
ghost use Rattle.std.specs.List.{AllByRecursion};
ghost use Rattle.audit_types.specs.Limits.{most_rows};
ghost use Rattle.audit_types.specs.Rows.{has_row};
ghost use Rattle.audit_types.specs.Headcount.{AreFew, unguarded};
ghost use Rattle.denial_proof.specs.Weights.{adds, rows_at, sum_at, weights_of, own_in, own_rows, shares_in, share_adds};
ghost use Rattle.denial_proof.specs.Certificates.{NamesRecord, IsSmall, IsAsker, IsTerm, IsTarget, rows_of, ShowsTotal};

use crate::lone_rows::holds;
use crate::proof_parts::{OwnShare, Target, Term};
use crate::public_facts::PublicFacts;
use audit_types::{Answered, Askers, CountedRows, MOST_ROWS, RowSet};

// The greatest size of a multiplier.
const LIMIT: u128 = 1 << 112;

// The most terms of a proof.
const MOST_TERMS: usize = MOST_ROWS as usize;

/// What a proof for a column of sums says: the sets of the terms, and the asked one `count` times, add up to the target, `times` times, and to
/// the share of the row whose number the asker knows.
#[derive(Clone, Copy)]
pub(crate) struct Total<'a> {
    pub(crate) target: Target,
    pub(crate) share: Option<OwnShare>,
    pub(crate) times: i128,
    pub(crate) terms: &'a [Term],
    pub(crate) count: i128,
}

/// Whether the number has a size of at most 2^112.
pub(crate) fn is_small(number: i128) -> bool
    ensures { IsTrue result ↔ IsSmall number }
{
    number.unsigned_abs() <= LIMIT
}

/// Whether the record at this place is of the column.
pub(crate) fn names_record(history: &[Answered], column: u8, place: u32) -> bool
    ensures { IsTrue result ↔ NamesRecord history.now column place }
{
    match history.get(place as usize) {
        Some(record) => record.column == column,
        None => false,
    }
}

fn is_term(facts: &PublicFacts<'_>, term: &Term) -> bool
    ensures { IsTrue result ↔ IsTerm facts.now.history.now facts.now.asked.now.column term.now }
{
    names_record(facts.history, facts.asked.column, term.place) && is_small(term.times)
}

fn are_terms(facts: &PublicFacts<'_>, terms: &[Term]) -> bool
    ensures { IsTrue result ↔ AllByRecursion (IsTerm facts.now.history.now facts.now.asked.now.column) terms.now }
{
    for term in terms {
        if !is_term(facts, term) {
            return false;
        }
    }
    true
}

// Whether this is the own row, if there is one.
fn is_own(own: Option<u16>, row: u16) -> bool
    ensures { IsTrue result ↔ (has_row (own_rows own) row ≡ true) }
{
    match own {
        Some(q) => q == row,
        None => false,
    }
}

// Whether this is a row of one person, who may ask.
fn is_asker(n: u16, people: &CountedRows, row: u16) -> bool
    ensures { IsTrue result ↔ IsAsker n people.now.people row }
{
    // Counted rows say of themselves what the people behind them are.
    let _ = people.n();
    if row >= n {
        return false;
    }
    if holds(people.several(), row) {
        return false;
    }
    match people.askers() {
        Askers::Inside => true,
        Askers::Outside => false,
    }
}

// Whether the group has this row, and it isn't the own one.
fn is_other(group: &RowSet, own: Option<u16>, row: u16) -> bool
    requires row { row < group.now.n }
    ensures { IsTrue result ↔ ((has_row group.now.list row ≡ true) × (has_row (own_rows own) row ≡ false)) }
{
    group.has(row) && !is_own(own, row)
}

/// Whether the group has a row that isn't the own one.
pub(crate) fn has_other(group: &RowSet, own: Option<u16>) -> bool
    ensures { IsTrue result ↔ ((row : ℕ) × (has_row group.now.list row ≡ true) × (has_row (own_rows own) row ≡ false)) }
{
    for row in 0..group.n() {
        if is_other(group, own, row) {
            return true;
        }
    }
    false
}

// Whether this row's number isn't guarded against one who knows that of the own row, if there is one.
fn is_open(people: &CountedRows, own: Option<u16>, row: u16) -> bool
    ensures { IsTrue result ↔ (has_row (unguarded people.now.people (own_rows own)) row ≡ true) }
{
    match own {
        Some(_) => holds(people.beside(), row),
        None => holds(people.shared(), row),
    }
}

// Whether few people stand behind this row for one who knows the number of the own row, if there is one.
fn is_few(people: &CountedRows, own: Option<u16>, row: u16) -> bool
    requires own { length (own_rows own) ≤ people.now.people.own }
    ensures { IsTrue result ↔ AreFew people.now.people (own_rows own) (row ∷ []) }
{
    // Counted rows say of themselves what the people behind them are.
    let _ = people.n();
    !is_open(people, own, row)
}

// Whether this row's number is guarded against one who knows that of the own row, if there is one.
fn is_guarded(n: u16, people: &CountedRows, own: Option<u16>, row: u16) -> bool
    requires own { length (own_rows own) ≤ people.now.people.own }
    ensures { IsTrue result ↔ ((row < n) × (has_row (own_rows own) row ≡ false) × AreFew people.now.people (own_rows own) (row ∷ [])) }
{
    row < n && !is_own(own, row) && is_few(people, own, row)
}

fn is_target(facts: &PublicFacts<'_>, own: Option<u16>, target: Target) -> bool
    requires own { length (own_rows own) ≤ facts.now.protected.now.people.own }
    ensures { IsTrue result ↔ IsTarget facts.now.n facts.now.protected.now facts.now.asked.now.column own target }
{
    match target {
        Target::Row(row) => is_guarded(facts.n, facts.protected.rows(), own, row),
        Target::Group(place) => match facts.protected.groups().get(place as usize) {
            Some(entry) => entry.column == facts.asked.column && has_other(&entry.rows, own),
            None => false,
        },
    }
}

// What a set adds to a row.
fn adds(rows: &RowSet, times: i128, row: u16) -> i128
    requires row { row < rows.now.n }
    ensures adds { result ≡ adds rows.now.list times row }
    ensures small { IsSmall times → IsSmall result }
{
    if rows.has(row) { times } else { 0 }
}

// What the target adds to a row.
fn target_adds(facts: &PublicFacts<'_>, total: &Total<'_>, row: u16) -> i128
    requires row { row < facts.now.n }
    requires target { IsTarget facts.now.n facts.now.protected.now facts.now.asked.now.column (own_in total.now.share) total.now.target }
    ensures adds { result ≡ adds (rows_of facts.now.protected.now total.now.target) total.now.times row }
    ensures small { IsSmall total.now.times → IsSmall result }
{
    match total.target {
        Target::Row(only) => { if only == row { total.times } else { 0 } }
        Target::Group(place) => {
            let entry = &facts.protected.groups()[place as usize];
            adds(&entry.rows, total.times, row)
        }
    }
}

// What the share of the row whose number the asker knows adds to a row.
fn share_adds(share: Option<OwnShare>, row: u16) -> i128
    requires small { AllByRecursion IsSmall (shares_in share) }
    ensures adds { result ≡ share_adds share row }
    ensures small { IsSmall result }
{
    match share {
        Some(OwnShare { own, share }) if own == row => share,
        _ => 0,
    }
}

// What the set of a term adds to a row.
fn term_adds(facts: &PublicFacts<'_>, term: &Term, row: u16) -> i128
    requires row { row < facts.now.n }
    requires term { IsTerm facts.now.history.now facts.now.asked.now.column term.now }
    ensures adds { result ≡ adds (rows_at facts.now.history.now term.now.place) term.now.times row }
    ensures small { IsSmall result }
{
    adds(&facts.history[term.place as usize].rows, term.times, row)
}

// What the asked set and those of the terms add up to in a row.
fn sum_at(facts: &PublicFacts<'_>, total: &Total<'_>, row: u16) -> i128
    requires row { row < facts.now.n }
    requires few { length total.now.terms.now ≤ most_rows }
    requires terms { AllByRecursion (IsTerm facts.now.history.now facts.now.asked.now.column) total.now.terms.now }
    requires small_count { IsSmall total.now.count }
    ensures { result ≡ sum_at (weights_of facts.now.history.now facts.now.asked.now.rows.list total.now.count total.now.terms.now) row }
{
    let mut sum = adds(&facts.asked.rows, total.count, row);
    for term in total.terms {
        sum += term_adds(facts, term, row);
    }
    sum
}

// Whether they add up to the target, and to the share, in a row.
fn adds_up(facts: &PublicFacts<'_>, total: &Total<'_>, row: u16) -> bool
    requires row { row < facts.now.n }
    requires target { IsTarget facts.now.n facts.now.protected.now facts.now.asked.now.column (own_in total.now.share) total.now.target }
    requires small_times { IsSmall total.now.times }
    requires small_share { AllByRecursion IsSmall (shares_in total.now.share) }
    requires few { length total.now.terms.now ≤ most_rows }
    requires terms { AllByRecursion (IsTerm facts.now.history.now facts.now.asked.now.column) total.now.terms.now }
    requires small_count { IsSmall total.now.count }
    ensures { IsTrue result ↔ (sum_at (weights_of facts.now.history.now facts.now.asked.now.rows.list total.now.count total.now.terms.now) row ≡ adds (rows_of facts.now.protected.now total.now.target) total.now.times row +ℤ share_adds total.now.share row) }
{
    sum_at(facts, total, row) == target_adds(facts, total, row) + share_adds(total.share, row)
}

// Whether they do so in each row.
fn add_up(facts: &PublicFacts<'_>, total: &Total<'_>) -> bool
    requires target { IsTarget facts.now.n facts.now.protected.now facts.now.asked.now.column (own_in total.now.share) total.now.target }
    requires small_times { IsSmall total.now.times }
    requires small_share { AllByRecursion IsSmall (shares_in total.now.share) }
    requires few { length total.now.terms.now ≤ most_rows }
    requires terms { AllByRecursion (IsTerm facts.now.history.now facts.now.asked.now.column) total.now.terms.now }
    requires small_count { IsSmall total.now.count }
    ensures { IsTrue result ↔ ((row : ℕ) → row < facts.now.n → sum_at (weights_of facts.now.history.now facts.now.asked.now.rows.list total.now.count total.now.terms.now) row ≡ adds (rows_of facts.now.protected.now total.now.target) total.now.times row +ℤ share_adds total.now.share row) }
{
    for row in 0..facts.n {
        if !adds_up(facts, total, row) {
            return false;
        }
    }
    true
}

// The row whose number the asker knows, if she knows one.
fn own_in(share: Option<OwnShare>) -> Option<u16>
    ensures { result ≡ own_in share }
{
    match share {
        Some(OwnShare { own, .. }) => Some(own),
        None => None,
    }
}

// Whether somebody may know the number of that row, and its share is small.
fn may_ask(facts: &PublicFacts<'_>, share: Option<OwnShare>) -> bool
    ensures askers { IsTrue result → AllByRecursion (IsAsker facts.now.n facts.now.protected.now.people) (own_rows (own_in share)) }
    ensures small { IsTrue result → AllByRecursion IsSmall (shares_in share) }
    ensures both { AllByRecursion (IsAsker facts.now.n facts.now.protected.now.people) (own_rows (own_in share)) → AllByRecursion IsSmall (shares_in share) → IsTrue result }
{
    match share {
        Some(OwnShare { own, share }) => is_asker(facts.n, facts.protected.rows(), own)
            && is_small(share),
        None => true,
    }
}

/// Whether a proof for a column of sums says what is true.
pub(crate) fn shows_total(facts: &PublicFacts<'_>, total: &Total<'_>) -> bool
    ensures { IsTrue result ↔ ShowsTotal facts.now.n facts.now.history.now facts.now.protected.now facts.now.asked.now total.now.target total.now.share total.now.times total.now.terms.now total.now.count }
{
    may_ask(facts, total.share)
        && is_target(facts, own_in(total.share), total.target)
        && total.times > 0
        && is_small(total.times)
        && is_small(total.count)
        && total.terms.len() <= MOST_TERMS
        && are_terms(facts, total.terms)
        && add_up(facts, total)
}
