//! Bringing the shorter of two journals up to the longer.
ghost use Rattle.std.specs.Prelude.{◌≡◌, ◌≢◌, ◌≤◌, ◌+◌, ◌-◌, List, ℕ, true, length, drop, Ok, Err, IfErr, OnOk, IsErrOf};
ghost use Rattle.audit_types.specs.declared.records.Answered.{Answered};
ghost use Rattle.audit_types.specs.History.{IsLegal};
ghost use Rattle.bench_core.specs.Calls.{IsQuiet, IsUntouched, LeavesOnly, TellsFault};
ghost use Rattle.journal_form.specs.Journal.{StandsAt};
ghost use Rattle.audit_store.specs.Stores.{IsAsLeft, IsStore, table_of};
ghost use Rattle.audit_store.specs.Twice.{IsJournalOf, calls_to_bring_up};
ghost use Rattle.bench_core.specs.Ends.{EndsBy};
ghost use Rattle.bench_core.specs.Stops.{IsOfBenches};
ghost use Rattle.twin_journal.specs.Twins.{CatchesUp, DifferFirst, IsDiffer, Meet, StandsBetween, missing};

use crate::starting::TwinRefusal;
use answer_journal::Journal;
use audit_store::{Store, agreement, bring_up};
use audit_types::Answered;
use bench_core::{Bench, End, Stop};

// Brings the store up to a longer history of the journal on the spare, or that journal up to the store's, unless they differ.
pub(crate) fn catch_up<B: Bench, S: Bench>(
    store: &mut Store,
    bench: &mut B,
    journal: &mut Journal,
    spare: &mut S,
    list: &[Answered],
) -> Result<(), End<TwinRefusal>>
    requires usable { store.old.usable ≡ true }
    requires other { IsJournalOf store.old.secret.shape list.now journal.old }
    requires legal { IsLegal (table_of store.old) list.now }
    requires stands { B.told → IsAsLeft (B.file bench.old) store.old }
    requires spare_stands { S.told → StandsAt (S.file spare.old) store.old.secret.shape list.now journal.old.gate }

    // One begins the other, and the store's history is then the longer one.
    ensures meet { OnOk result (Meet store.old.history list.now store.new.history) }
    ensures stands { B.told → OnOk result (IsAsLeft (B.file bench.new) store.new) }
    ensures spare_stands { S.told → OnOk result (StandsAt (S.file spare.new) store.new.secret.shape store.new.history journal.new.gate) }
    ensures usable { OnOk result ((store.new.usable ≡ true) × IsJournalOf store.new.secret.shape store.new.history journal.new) }
    ensures table { (store.new.secret ≡ store.old.secret) × (store.new.protected ≡ store.old.protected) }
    ensures is { IsStore store.new }

    // They differ, or a call failed, or memory ran out.
    ensures differ { (place : ℕ) → result ≡ Err (End.Refused (TwinRefusal.Differ place)) → DifferFirst store.old.history list.now place }
    ensures ends { IfErr result (EndsBy IsOfBenches IsDiffer) }

    // At every moment each file stands for a history between its own and the longer one, and at the end, too, if memory ran out. Files
    // that differ are left alone.
    ensures moments { (whole : List Answered) → B.told → IsQuiet B.Bench bench.old → Meet store.old.history list.now whole
        → LeavesOnly B.Bench bench.old bench.new (CatchesUp store.old.secret.shape store.old.history whole (B.sent bench.old)) }
    ensures spare_moments { (whole : List Answered) → S.told → IsQuiet S.Bench spare.old → Meet store.old.history list.now whole
        → LeavesOnly S.Bench spare.old spare.new (CatchesUp store.old.secret.shape list.now whole (S.sent spare.old)) }
    ensures no_memory { (whole : List Answered) → B.told → Meet store.old.history list.now whole → IsErrOf result (End.Stopped Stop.NoMemory)
        → StandsBetween store.old.secret.shape store.old.history whole (B.file bench.new) }
    ensures spare_no_memory { (whole : List Answered) → S.told → Meet store.old.history list.now whole → IsErrOf result (End.Stopped Stop.NoMemory)
        → StandsBetween store.old.secret.shape list.now whole (S.file spare.new) }
    ensures reads { (place : ℕ) → result ≡ Err (End.Refused (TwinRefusal.Differ place)) → (bench.new ≡ bench.old) × (spare.new ≡ spare.old) }
    ensures apart { ((whole : List Answered) → Meet store.old.history list.now whole → ⊥) → (bench.new ≡ bench.old) × (spare.new ≡ spare.old) }
    ensures quiet { B.told → IsQuiet B.Bench bench.old → (IsErrOf result (End.Stopped Stop.Bench) → ⊥) → IsQuiet B.Bench bench.new }
    ensures spare_quiet { S.told → IsQuiet S.Bench spare.old → (IsErrOf result (End.Stopped Stop.Spare) → ⊥) → IsQuiet S.Bench spare.new }
    ensures sent { B.sent bench.new ≡ B.sent bench.old }
    ensures spare_sent { S.sent spare.new ≡ S.sent spare.old }
    ensures ticks { B.told → OnOk result (B.moment bench.new ≡ B.moment bench.old + calls_to_bring_up (missing store.old.history store.new.history)) }
    ensures spare_ticks { S.told → OnOk result (S.moment spare.new ≡ S.moment spare.old + calls_to_bring_up (missing list.now store.new.history)) }

    // If a call of one failed, the other wasn't called.
    ensures main_failed { IsErrOf result (End.Stopped Stop.Bench) → spare.new ≡ spare.old }
    ensures spare_failed { IsErrOf result (End.Stopped Stop.Spare) → bench.new ≡ bench.old }
    ensures fault { TellsFault B.Bench bench.old bench.new (IsErrOf result (End.Stopped Stop.Bench)) }
    ensures spare_fault { TellsFault S.Bench spare.old spare.new (IsErrOf result (End.Stopped Stop.Spare)) }
{
    let history = store.history();
    let place = agreement(history, list);
    if place == list.len() {
        return match bring_up(journal, spare, &history[place..]) {
            Ok(()) => Ok(()),
            Err(stop) => Err(End::Stopped(stop.turned())),
        };
    }
    if place < history.len() {
        return Err(End::Refused(TwinRefusal::Differ {
            place: place as u32,
        }));
    }
    Ok(store.bring_up(bench, &list[place..])?)
}
