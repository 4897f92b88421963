//! Verdicts on sums of which no group is protected, before and after they are answered, by hand. The width is the greatest.
ghost use Rattle.std.specs.Prelude.{◌≡◌, ◌≤◌};

use audit_types::{
    Askers, ColumnAudit, CountedRows, MOST_REACH, MOST_WIDTH, NoMemory, RowSet, Verdict,
};
use std::alloc::Global;
use sum_audit::SumColumn;

// A row of three, and the next one.
fn pair(first: u16) -> RowSet
    requires { first ≤ 1 }
    ensures { result.n ≡ 3 }
{
    let mut rows = RowSet::new(3);
    rows.add(first);
    rows.add(first + 1);
    rows
}

// The rows 0 and 2, of three.
fn ends() -> RowSet
    ensures { result.n ≡ 3 }
{
    let mut rows = RowSet::new(3);
    rows.add(0);
    rows.add(2);
    rows
}

// Asks for a sum by both calls, and takes its answer if that may be released.
fn ask(column: &mut SumColumn, rows: &RowSet, answer: i64) -> Result<Option<[Verdict; 2]>, NoMemory>
    requires { rows.now.n ≡ column.old.n }
    ensures { column.new.n ≡ column.old.n }
{
    if rows.is_empty() {
        return Ok(None);
    }
    let weighed = column.weigh(rows)?;
    match column.probe(rows)? {
        Verdict::Released => {
            column.accept(rows, answer)?;
            Ok(Some([weighed, Verdict::Released]))
        }
        denied => Ok(Some([weighed, denied])),
    }
}

// What becomes of the sum over rows 0 and 1, of that over rows 1 and 2 after it, and then of that over rows 0 and 2.
fn verdicts(alloc: Global) -> Result<[Option<[Verdict; 2]>; 3], NoMemory> {
    let people = CountedRows::new(3, Vec::new(alloc), 2, Askers::Outside);
    let mut column = SumColumn::new(alloc, people, MOST_WIDTH, MOST_REACH, Vec::new(alloc))?;
    let first = ask(&mut column, &pair(0), 3)?;
    let last = ask(&mut column, &pair(1), 5)?;
    let ends = ask(&mut column, &ends(), 4)?;
    Ok([first, last, ends])
}

// Two sums over two neighbours fix no number, and the third sum would then fix each.
#[test]
fn sums_are_judged_before_they_are_answered(rt: HostRuntime) {
    let released = Some([Verdict::Released, Verdict::Released]);
    let denied = Some([Verdict::DeniedUnsafe, Verdict::DeniedUnsafe]);
    assert!(rt; verdicts(rt.alloc()) == Ok([released, released, denied]));
}
