//! Bringing a journal, and a core, up to a longer history.
ghost use Rattle.std.specs.Prelude.{◌≡◌, ◌≤◌, ◌+◌, ◌++◌, List, true, length, take, All, IfErr, OnOk, IsErrOf};
ghost use Rattle.audit_types.specs.Limits.{most_records};
ghost use Rattle.audit_types.specs.declared.records.Answered.{Answered};
ghost use Rattle.audit_types.specs.History.{FitsShape, IsLegal, Table};
ghost use Rattle.bench_core.specs.Calls.{IsQuiet, LeavesOnly, TellsFault};
ghost use Rattle.bench_core.specs.Stops.{IsOfBench};
ghost use Rattle.journal_form.specs.Journal.{StandsAt};
ghost use Rattle.audit_store.specs.Twice.{IsBroughtUp, StandsWithSome, calls_to_bring_up};

use crate::asking::keep;
use crate::sealed::Sealed;
use answer_journal::Journal;
use audit_types::{Answered, NoMemory};
use bench_core::{Bench, Stop};

// The most records of a group.
const MOST_IN_GROUP: usize = 64;

/// Appends the records that a journal lacks, in groups of up to 64. After `NoMemory` some of them may have been appended.
pub fn bring_up<B: Bench>(
    journal: &mut Journal,
    bench: &mut B,
    missing: &[Answered],
) -> Result<(), Stop>
    requires usable { journal.old.usable ≡ true }
    requires fit { All (λ r. FitsShape journal.old.shape r.column r.rows) missing.now }
    requires few { journal.old.count + length missing.now ≤ most_records }
    requires stands { B.told → (history : List Answered) × StandsAt (B.file bench.old) journal.old.shape history journal.old.gate × (length history ≡ journal.old.count) }

    // A crash at any moment leaves the history with some of them, from the first on.
    ensures any_moment { (history : List Answered) → B.told → StandsAt (B.file bench.old) journal.old.shape history journal.old.gate → length history ≡ journal.old.count → IsQuiet B.Bench bench.old
        → LeavesOnly B.Bench bench.old bench.new (IsBroughtUp journal.old.shape history missing.now (B.sent bench.old)) }
    ensures done { (history : List Answered) → B.told → StandsAt (B.file bench.old) journal.old.shape history journal.old.gate → length history ≡ journal.old.count
        → OnOk result (StandsAt (B.file bench.new) journal.new.shape (history ++ missing.now) journal.new.gate) }
    ensures no_memory { (history : List Answered) → B.told → StandsAt (B.file bench.old) journal.old.shape history journal.old.gate → length history ≡ journal.old.count
        → IsErrOf result Stop.NoMemory → StandsWithSome journal.old.shape history missing.now (B.file bench.new) }
    ensures quiet { B.told → IsQuiet B.Bench bench.old → (IsErrOf result Stop.Bench → ⊥) → IsQuiet B.Bench bench.new }
    ensures sent { B.sent bench.new ≡ B.sent bench.old }
    ensures ticks { B.told → OnOk result (B.moment bench.new ≡ B.moment bench.old + calls_to_bring_up missing.now) }
    ensures fault { TellsFault B.Bench bench.old bench.new (IsErrOf result Stop.Bench) }
    ensures ends { IfErr result IsOfBench }

    ensures shape { journal.new.shape ≡ journal.old.shape }
    ensures usable { OnOk result (journal.new.usable ≡ true) }
    ensures counted { OnOk result (journal.new.count ≡ journal.old.count + length missing.now) }
{
    let mut at = 0;
    while at < missing.len() {
        let end = missing.len().min(at + MOST_IN_GROUP);
        keep(journal, bench, &missing[at..end])?;
        at = end;
    }
    Ok(())
}

/// Adds records to the audit of what is sealed, whose history, with them, is legal for some table. On `NoMemory` it may have some of them.
pub fn take_all<S: Drop>(sealed: &mut Sealed<S>, list: &[Answered]) -> Result<(), NoMemory>
    requires { (table : Table) × (table.setting ≡ sealed.old.core.setting) × IsLegal table (sealed.old.core.history ++ list.now) }
    ensures history { OnOk result (sealed.new.core.history ≡ sealed.old.core.history ++ list.now) }
    ensures begins { take (length sealed.old.core.history) sealed.new.core.history ≡ sealed.old.core.history }
    ensures within { length sealed.old.core.history ≤ length sealed.new.core.history }
    ensures setting { sealed.new.core.setting ≡ sealed.old.core.setting }
    ensures secret { sealed.new.secret ≡ sealed.old.secret }
{
    for answered in list {
        sealed.take(answered)?;
    }
    Ok(())
}
