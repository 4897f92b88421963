//! Growing the journal of a table to rows that came at its end.
ghost use Rattle.std.specs.Prelude.{◌≡◌, ◌≤◌, length, All, IfErr, OnOk};
ghost use Rattle.audit_types.specs.Limits.{most_records};
ghost use Rattle.audit_types.specs.History.{FitsShape};
ghost use Rattle.bench_core.specs.Ends.{EndsBy, refused_as};
ghost use Rattle.bench_core.specs.Stops.{IsOfMemory};
ghost use Rattle.audit_store.specs.Growing.{GrowsFrom, GrowHistoryCause};

use crate::guarded::Guarded;
use crate::starting::audited;
use answer_journal::{JournalRefusal, widen_all};
use audit_types::{Answered, Shape};
use bench_core::End;
use std::alloc::Global;

/// Why a journal has not grown. That it is damaged, or of other columns or more rows, comes before that it has the table's rows already,
/// and this before an answer that isn't true over all rows, or a question that was not to be released over them.
#[derive(Clone, Copy)]
pub enum GrowRefusal {
    /// The journal isn't one that goes on over all rows of the table.
    Journal(JournalRefusal),
    /// The journal has the table's rows.
    NothingNew { rows: u16 },
}

/// The end of a growth that ends as a call on its journal did.
pub(crate) fn of_journal(end: End<JournalRefusal>) -> End<GrowRefusal>
    ensures { result ≡ refused_as GrowRefusal.Journal end }
{
    match end {
        End::Stopped(stop) => End::Stopped(stop),
        End::Refused(refusal) => End::Refused(GrowRefusal::Journal(refusal)),
    }
}

/// Tests that the history of a journal goes on over all rows of the table, and gives its sets so many: it is over the same columns and
/// fewer rows, and legal over all of them.
pub fn may_grow(
    alloc: Global,
    guarded: Guarded,
    kept: &Shape,
    list: &mut [Answered],
) -> Result<(), End<GrowRefusal>>
    requires few { length list.old ≤ most_records }
    requires fit { All (λ r. FitsShape kept.now r.column r.rows) list.old }
    ensures ok { OnOk result (GrowsFrom kept.now list.old guarded) }
    ensures err { IfErr result (EndsBy IsOfMemory (λ refusal. GrowHistoryCause refusal kept.now list.old guarded)) }
{
    let now = guarded.shape();
    if kept.kinds != now.kinds || now.rows < kept.rows {
        let refusal = JournalRefusal::OtherShape { kept: *kept, now };
        return Err(End::Refused(GrowRefusal::Journal(refusal)));
    }
    if kept.rows == now.rows {
        return Err(End::Refused(GrowRefusal::NothingNew { rows: now.rows }));
    }
    widen_all(list, now.rows);
    let (secret, protected) = guarded.apart();
    match audited(alloc, &secret, protected, list) {
        Ok(_) => Ok(()),
        Err(end) => Err(of_journal(end)),
    }
}
