//! Writing a lost journal anew.
ghost use Rattle.std.specs.Prelude.{◌≡◌, ◌≢◌, ◌⊎◌, ◌↔◌, ◌+◌, ⊤, List, ℕ, true, Err, IfErr, IfOk, OnOk, OnErr, IsErrOf, IsTrue};
ghost use Rattle.audit_types.specs.declared.records.Answered.{Answered};
ghost use Rattle.bench_core.specs.Causes.{HasCause};
ghost use Rattle.bench_core.specs.Calls.{IsQuiet, IsUntouched, LeavesOnly, OnlyReads, TellsFault};
ghost use Rattle.answer_journal.specs.Make.{calls_to_look};
ghost use Rattle.answer_journal.specs.Moments.{IsMade, IsUnmadeOrWhole};
ghost use Rattle.bench_core.specs.Ends.{DoneUnlessStopped, EndsBy, IsRefused, RefusedUnlessStopped, refused_as, turned_end};
ghost use Rattle.bench_core.specs.Stops.{IsOfBenches};
ghost use Rattle.twin_journal.specs.declared.restoring.RestoreRefusal.{RestoreRefusal};
ghost use Rattle.twin_journal.specs.Restoring.{CanRestore, IsLost, IsLostOf, RestoreCause, Restored, StandForTheSame, TakeCalls, turned_refusal};

use crate::copying::copy_journal;
use answer_journal::{JournalRefusal, look};
use audit_store::Guarded;
use bench_core::{Bench, End, Failed, Stop};
use journal_form::laws::one_reading;
use std::alloc::Global;

/// Why nothing was restored.
#[derive(Clone, Copy)]
pub enum RestoreRefusal {
    /// Both files are made journals.
    NothingLost,
    /// Neither is.
    BothLost,
    /// The spare is lost, and the journal isn't gone on from, though one is made there.
    Main(JournalRefusal),
    /// The journal is lost, and the spare isn't.
    Spare(JournalRefusal),
}

// The end of a restoring that ends as a copy from the spare did: it was lent the spare for the journal.
fn turned(end: End<RestoreRefusal>) -> End<RestoreRefusal>
    ensures { result ≡ refused_as turned_refusal (turned_end end) }
{
    match end {
        End::Stopped(stop) => End::Stopped(stop.turned()),
        End::Refused(refusal) => End::Refused(match refusal {
            RestoreRefusal::Main(refusal) => RestoreRefusal::Spare(refusal),
            RestoreRefusal::Spare(refusal) => RestoreRefusal::Main(refusal),
            other => other,
        }),
    }
}

// Whether a journal is made in the file.
fn is_made<B: Bench>(bench: &mut B) -> Result<bool, Failed>
    ensures made { B.told → IfOk result (λ made. IsTrue made ↔ IsMade (B.file bench.old)) }
    ensures ticks { B.told → OnOk result (B.moment bench.new ≡ B.moment bench.old + calls_to_look (B.file bench.old)) }
    ensures reads { OnlyReads B.Bench bench.old bench.new }
    ensures cause { HasCause (B.faults bench.old) (B.faults bench.new) result }
    ensures last_call { OnErr result (B.last_failed bench.new ≡ true) }
{
    match look(bench)? {
        Some(_) => Ok(false),
        None => Ok(true),
    }
}

/// Writes the one journal that is lost from the other, if that is a journal of the table with a legal history. If the outside
/// stopped it, it may be called again.
pub fn restore<B: Bench, S: Bench>(
    alloc: Global,
    guarded: Guarded,
    bench: &mut B,
    spare: &mut S,
) -> Result<(), End<RestoreRefusal>>
    // Both files then stand for the history of the one that wasn't lost, and for nothing that the other doesn't.
    ensures done { B.told → S.told → OnOk result ((history : List Answered)
        × (Restored guarded (S.file spare.old) (B.file bench.old) (S.file spare.new) (B.file bench.new) history
        ⊎ Restored guarded (B.file bench.old) (S.file spare.old) (B.file bench.new) (S.file spare.new) history)) }
    ensures alike { B.told → S.told → OnOk result (StandForTheSame (B.file bench.new) (S.file spare.new)) }

    // Each refusal has its cause in the files, and each cause has its refusal; if one can be restored it is never refused.
    ensures cause { (refusal : RestoreRefusal) → B.told → S.told → result ≡ Err (End.Refused refusal) → RestoreCause refusal (B.file bench.old) (S.file spare.old) guarded }
    ensures due { (refusal : RestoreRefusal) → B.told → S.told → RestoreCause refusal (B.file bench.old) (S.file spare.old) guarded → RefusedUnlessStopped refusal result }
    ensures restores { B.told → S.told → CanRestore guarded (B.file bench.old) (S.file spare.old) → DoneUnlessStopped result }

    // At every moment the lost file isn't made, or stands for the kept history. A made one stays, and so do both if none can be
    // restored.
    ensures main_moments { (history : List Answered) → B.told → S.told → IsQuiet B.Bench bench.old → IsLostOf guarded (B.file bench.old) (S.file spare.old) history
        → LeavesOnly B.Bench bench.old bench.new (IsUnmadeOrWhole guarded.setting.shape history (B.sent bench.old)) }
    ensures spare_moments { (history : List Answered) → B.told → S.told → IsQuiet S.Bench spare.old → IsLostOf guarded (S.file spare.old) (B.file bench.old) history
        → LeavesOnly S.Bench spare.old spare.new (IsUnmadeOrWhole guarded.setting.shape history (S.sent spare.old)) }
    ensures main_kept { B.told → IsQuiet B.Bench bench.old → IsMade (B.file bench.old) → LeavesOnly B.Bench bench.old bench.new (IsUntouched (B.file bench.old) (B.sent bench.old)) }
    ensures spare_kept { S.told → IsQuiet S.Bench spare.old → IsMade (S.file spare.old) → LeavesOnly S.Bench spare.old spare.new (IsUntouched (S.file spare.old) (S.sent spare.old)) }
    ensures untouched { B.told → S.told → IsQuiet B.Bench bench.old → (CanRestore guarded (B.file bench.old) (S.file spare.old) → ⊥)
        → LeavesOnly B.Bench bench.old bench.new (IsUntouched (B.file bench.old) (B.sent bench.old)) }
    ensures spare_untouched { B.told → S.told → IsQuiet S.Bench spare.old → (CanRestore guarded (B.file bench.old) (S.file spare.old) → ⊥)
        → LeavesOnly S.Bench spare.old spare.new (IsUntouched (S.file spare.old) (S.sent spare.old)) }
    ensures reads { IsRefused result → OnlyReads B.Bench bench.old bench.new × OnlyReads S.Bench spare.old spare.new }
    ensures no_memory { IsErrOf result (End.Stopped Stop.NoMemory) → OnlyReads B.Bench bench.old bench.new × OnlyReads S.Bench spare.old spare.new }
    ensures quiet { B.told → IsQuiet B.Bench bench.old → result ≢ Err (End.Stopped Stop.Bench) → IsQuiet B.Bench bench.new }
    ensures spare_quiet { S.told → IsQuiet S.Bench spare.old → result ≢ Err (End.Stopped Stop.Spare) → IsQuiet S.Bench spare.new }
    ensures sent { B.sent bench.new ≡ B.sent bench.old }
    ensures spare_sent { S.sent spare.new ≡ S.sent spare.old }

    ensures ticks { B.told → S.told → OnOk result ((IsLost (S.file spare.old) × TakeCalls (S.moment spare.old) (S.moment spare.new) (B.moment bench.old) (B.moment bench.new))
        ⊎ (IsLost (B.file bench.old) × TakeCalls (B.moment bench.old) (B.moment bench.new) (S.moment spare.old) (S.moment spare.new))) }
    ensures fault { TellsFault B.Bench bench.old bench.new (IsErrOf result (End.Stopped Stop.Bench)) }
    ensures spare_fault { TellsFault S.Bench spare.old spare.new (IsErrOf result (End.Stopped Stop.Spare)) }
    ensures ends { IfErr result (EndsBy IsOfBenches (λ _. ⊤)) }
{
    one_reading();
    let main_is_made = is_made(bench)?;
    let spare_is_made = match is_made(spare) {
        Ok(made) => made,
        Err(Failed) => return Err(End::Stopped(Stop::Spare)),
    };
    if main_is_made {
        if spare_is_made {
            return Err(End::Refused(RestoreRefusal::NothingLost));
        }
        return copy_journal(alloc, guarded, bench, spare);
    }
    if !spare_is_made {
        return Err(End::Refused(RestoreRefusal::BothLost));
    }
    match copy_journal(alloc, guarded, spare, bench) {
        Ok(()) => Ok(()),
        Err(end) => Err(turned(end)),
    }
}
