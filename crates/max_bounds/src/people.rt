//! Whether few people stand behind some rows.
ghost use Rattle.std.specs.Prelude.{◌≡◌, ◌↔◌, ◌+◌, ◌-◌, [], IsTrue};
ghost use Rattle.audit_types.specs.Headcount.{AreFew, count_at};

use audit_types::{Askers, CountedRows, RowSet};

/// How many people are still missing after a row.
pub(crate) fn less_row(missing: u64, counts: &[u64], row: u16) -> u64
    ensures { result ≡ missing - count_at counts.now row }
{
    // A row beyond the counts stands for one person.
    let count = match counts.get(row as usize) {
        Some(count) => *count,
        None => 1,
    };
    missing.saturating_sub(count)
}

/// How many people aren't few.
pub(crate) fn enough(people: &CountedRows) -> u64
    ensures { result ≡ people.now.people.fewest + people.now.people.own }
{
    let known: u64 = match people.askers() {
        Askers::Outside => 0,
        Askers::Inside => 1,
    };
    people.fewest() as u64 + known
}

/// Whether few people stand behind the rows. Most rows are told by the first of them.
pub(crate) fn are_fewer(rows: &RowSet, people: &CountedRows, enough: u64) -> bool
    requires { enough ≡ people.now.people.fewest + people.now.people.own }
    ensures { IsTrue result ↔ AreFew people.now.people [] rows.now.list }
{
    let counts = people.counts();
    let mut missing = enough;
    for row in rows.iter() {
        missing = less_row(missing, counts, row);
        if missing == 0 {
            return false;
        }
    }
    missing > 0
}

/// Whether few people stand behind the rows.
pub fn are_few(rows: &RowSet, people: &CountedRows) -> bool
    ensures { IsTrue result ↔ AreFew people.now.people [] rows.now.list }
{
    are_fewer(rows, people, enough(people))
}
