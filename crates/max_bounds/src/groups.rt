//! Which groups of rows a set has rows of, and which of some rows that are spread over the table: a bit for each.
ghost use Rattle.std.specs.Prelude.{◌≡◌, ◌+◌, ◌<◌, ◌≤◌};
ghost use Rattle.audit_types.specs.Limits.{most_rows, most_words};
ghost use Rattle.audit_types.specs.Rows.{has_row};
ghost use Rattle.max_bounds.specs.Groups.{step_of, AreGroups, IsSample, IsInGroup};

use audit_types::RowSet;

/// The groups that the rows of the set are in. A walk over rows that stand together ends after 64 of them.
pub(crate) fn groups_of(rows: &RowSet) -> u64
    ensures { AreGroups IsInGroup rows.now.list result }
{
    let mut groups: u64 = 0;
    for row in rows.iter() {
        groups |= 1 << (row % 64);
        if groups == u64::MAX {
            return groups;
        }
    }
    groups
}

// An odd step, so that a pattern of the table that comes again every few rows isn't always met at the same place.
fn step_of(n: u16) -> u16
    requires { n ≤ most_rows }
    ensures exact { result ≡ step_of n }
    ensures small { result ≤ most_words + 1 }
{
    2 * ((n + 63) / 128) + 1
}

// Whether a row of the table, or a number past its rows, is a row of the set.
fn has_row(rows: &RowSet, row: u16) -> bool
    ensures { result ≡ has_row rows.now.list row }
{
    row < rows.n() && rows.has(row)
}

/// Which of the sampled rows are in the set.
pub(crate) fn samples_of(rows: &RowSet) -> u64
    ensures { AreGroups (IsSample rows.now.n) rows.now.list result }
{
    let step = step_of(rows.n());
    let mut samples: u64 = 0;
    for number in 0..64 {
        if has_row(rows, number * step) {
            samples |= 1 << number;
        }
    }
    samples
}
