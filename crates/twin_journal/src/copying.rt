//! Writing a journal whole from another one.
ghost use Rattle.std.specs.Prelude.{◌≡◌, ◌≢◌, ◌+◌, ℕ, List, Err, IfErr, OnOk, IsErrOf};
ghost use Rattle.audit_types.specs.declared.records.Answered.{Answered};
ghost use Rattle.audit_types.specs.History.{IsLegal};
ghost use Rattle.bench_core.specs.Calls.{IsQuiet, IsUntouched, LeavesOnly, OnlyReads, TellsFault};
ghost use Rattle.journal_form.specs.Journal.{StandsFor};
ghost use Rattle.answer_journal.specs.Make.{calls_to_make};
ghost use Rattle.answer_journal.specs.Moments.{IsUnmadeOrWhole};
ghost use Rattle.answer_journal.specs.Whole.{HoldsWhole};
ghost use Rattle.audit_store.specs.Starting.{StartCause};
ghost use Rattle.bench_core.specs.Ends.{DoneUnlessStopped, EndsBy, RefusedUnlessStopped, refused_as, turned_end};
ghost use Rattle.bench_core.specs.Stops.{IsOfBenches};
ghost use Rattle.answer_journal.specs.declared.refusals.JournalRefusal.{JournalRefusal};
ghost use Rattle.twin_journal.specs.Copying.{IsKeptFor, IsOfCopy};
ghost use Rattle.twin_journal.specs.Restoring.{IsLost};

use crate::restoring::RestoreRefusal;
use answer_journal::{AlreadyThere, JournalRefusal, write_whole};
use audit_store::{Guarded, Store};
use bench_core::{Bench, End, Stop};
use journal_form::laws::one_reading;
use std::alloc::Global;

// The end of a copy that ends as opening the kept journal did.
fn of_kept(end: End<JournalRefusal>) -> End<RestoreRefusal>
    ensures { result ≡ refused_as RestoreRefusal.Main end }
{
    match end {
        End::Stopped(stop) => End::Stopped(stop),
        End::Refused(refusal) => End::Refused(RestoreRefusal::Main(refusal)),
    }
}

// The end of one that ends as writing the lost journal did.
fn of_lost(end: End<AlreadyThere>) -> End<RestoreRefusal>
    ensures { result ≡ refused_as (λ _. RestoreRefusal.NothingLost) (turned_end end) }
{
    match end {
        End::Stopped(stop) => End::Stopped(stop.turned()),
        End::Refused(AlreadyThere) => End::Refused(RestoreRefusal::NothingLost),
    }
}

/// Writes the lost journal whole from the kept one, if that is a journal of the table with a legal history. Its answers are those of a
/// `restore` whose journal is kept and whose spare is lost. Only a lost file that isn't told can be found to be made.
pub fn copy_journal<K: Bench, L: Bench>(
    alloc: Global,
    guarded: Guarded,
    kept: &mut K,
    lost: &mut L,
) -> Result<(), End<RestoreRefusal>>
    requires lost { L.told → IsLost (L.file lost.old) }

    // The lost one then stands for the history of the kept one, which is only read, and holds it whole.
    ensures done { K.told → L.told → OnOk result ((history : List Answered) × IsKeptFor guarded (K.file kept.old) history × StandsFor (L.file lost.new) guarded.setting.shape history
        × HoldsWhole guarded.setting.shape history (L.file lost.old) (L.file lost.new)) }
    ensures reads { OnlyReads K.Bench kept.old kept.new }

    // Each refusal has its cause in the kept file, and each cause has its refusal; a legal history is never refused.
    ensures cause { (refusal : JournalRefusal) → K.told → result ≡ Err (End.Refused (RestoreRefusal.Main refusal)) → StartCause refusal (K.file kept.old) guarded }
    ensures due { (refusal : JournalRefusal) → K.told → L.told → StartCause refusal (K.file kept.old) guarded → RefusedUnlessStopped (RestoreRefusal.Main refusal) result }
    ensures copies { (history : List Answered) → K.told → L.told → IsKeptFor guarded (K.file kept.old) history → DoneUnlessStopped result }
    ensures already { L.told → IsErrOf result (End.Refused RestoreRefusal.NothingLost) → ⊥ }

    // At every moment the lost file isn't made, or stands for the kept history; if none is kept it isn't called.
    ensures moments { (history : List Answered) → K.told → L.told → IsQuiet L.Bench lost.old → IsKeptFor guarded (K.file kept.old) history
        → LeavesOnly L.Bench lost.old lost.new (IsUnmadeOrWhole guarded.setting.shape history (L.sent lost.old)) }
    ensures apart { K.told → ((history : List Answered) → IsKeptFor guarded (K.file kept.old) history → ⊥) → lost.new ≡ lost.old }
    ensures refused { (refusal : JournalRefusal) → result ≡ Err (End.Refused (RestoreRefusal.Main refusal)) → lost.new ≡ lost.old }
    ensures already_reads { IsErrOf result (End.Refused RestoreRefusal.NothingLost) → OnlyReads L.Bench lost.old lost.new }
    ensures no_memory { IsErrOf result (End.Stopped Stop.NoMemory) → lost.new ≡ lost.old }
    ensures quiet { L.told → IsQuiet L.Bench lost.old → (IsErrOf result (End.Stopped Stop.Spare) → ⊥) → IsQuiet L.Bench lost.new }
    ensures sent { L.sent lost.new ≡ L.sent lost.old }
    ensures kept_ticks { K.told → OnOk result (K.moment kept.new ≡ K.moment kept.old + 2) }
    ensures ticks { L.told → OnOk result (L.moment lost.new ≡ L.moment lost.old + calls_to_make (L.file lost.old)) }
    ensures kept_fault { TellsFault K.Bench kept.old kept.new (IsErrOf result (End.Stopped Stop.Bench)) }
    ensures fault { TellsFault L.Bench lost.old lost.new (IsErrOf result (End.Stopped Stop.Spare)) }
    ensures ends { IfErr result (EndsBy IsOfBenches IsOfCopy) }
{
    one_reading();
    let store = match Store::start(alloc, guarded, kept) {
        Ok(store) => store,
        Err(end) => return Err(of_kept(end)),
    };
    let shape = store.shape();
    match write_whole(alloc, lost, &shape, store.history()) {
        Ok(()) => Ok(()),
        Err(end) => Err(of_lost(end)),
    }
}
