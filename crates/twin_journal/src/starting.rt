//! Opening two journals of one table, and asking over both.
ghost use Rattle.std.specs.Prelude.{◌≡◌, ◌≢◌, ◌+◌, ⊤, List, true, Err, IfOk, IfErr, OnOk, IsErrOf};
ghost use Rattle.audit_types.specs.declared.records.Answered.{Answered};
ghost use Rattle.bench_core.specs.Calls.{IsQuiet, IsUntouched, LeavesOnly, OnlyReads, TellsFault};
ghost use Rattle.bench_core.specs.Ends.{DoneUnlessStopped, EndsBy, IsRefused, RefusedUnlessStopped, refused_as, turned_end};
ghost use Rattle.bench_core.specs.Stops.{IsOfBenches};
ghost use Rattle.audit_store.specs.Stores.{IsAsLeft, IsStore, table_of};
ghost use Rattle.answer_journal.specs.declared.refusals.JournalRefusal.{JournalRefusal};
ghost use Rattle.twin_journal.specs.declared.starting.TwinRefusal.{TwinRefusal};
ghost use Rattle.twin_journal.specs.Twins.{CatchesUp, HoldsLegal, IsSpareAsLeft, IsTwin, KeepApart, KeepTogether, KeepWhole, StandsBetween, TwinCause, calls_to_open};

use crate::catching::catch_up;
use answer_journal::{Journal, JournalRefusal};
use audit_store::{Guarded, Keeper, Outcome, Store};
use audit_types::{Answered, Asked};
use bench_core::{Bench, End, Stop};
use journal_form::laws::one_reading;
use std::alloc::Global;
use std::marker::Model;

/// Why two journals were not opened.
#[derive(Clone, Copy)]
pub enum TwinRefusal {
    /// The journal isn't gone on from.
    Main(JournalRefusal),
    /// It is, and the spare isn't.
    Spare(JournalRefusal),
    /// Both are journals of the table, and differ first at the record of this place, from 0.
    Differ { place: u32 },
}

/// A store over the journal on the bench, and a journal of the same answers on a spare.
#[derive(Drop)]
pub struct TwinStore {
    store: Store,
    spare: Journal,
}

impl Model for TwinStore {
    ghost use Rattle.twin_journal.specs.Twins.{TwinContents, IsTwin};

    ghost Value = { TwinContents };

    ghost view = { λ t. record { store = t.store; spare = t.spare } };

    ghost invariant = { λ t. IsTwin (record { store = t.store; spare = t.spare }) };
}

// The end of a start that ends as opening the journal did.
fn of_main(end: End<JournalRefusal>) -> End<TwinRefusal>
    ensures { result ≡ refused_as TwinRefusal.Main end }
{
    match end {
        End::Stopped(stop) => End::Stopped(stop),
        End::Refused(refusal) => End::Refused(TwinRefusal::Main(refusal)),
    }
}

// The end of one that ends as opening the spare did.
fn of_spare(end: End<JournalRefusal>) -> End<TwinRefusal>
    ensures { result ≡ refused_as TwinRefusal.Spare (turned_end end) }
{
    match end {
        End::Stopped(stop) => End::Stopped(stop.turned()),
        End::Refused(refusal) => End::Refused(TwinRefusal::Spare(refusal)),
    }
}

impl TwinStore {
    /// Opens the journal of a table and then the spare, and tests both as `Store::start` does. If one history begins the other the
    /// missing records are appended to the shorter journal, in groups of up to 64; the secrets and the groups are dropped with a
    /// refusal. If memory ran out, some of the missing records may have been appended.
    pub fn start<B: Bench, S: Bench>(
        alloc: Global,
        guarded: Guarded,
        bench: &mut B,
        spare: &mut S,
    ) -> Result<TwinStore, End<TwinRefusal>>
        // The store is that of the longer history, and both files are as it left them.
        ensures store { IfOk result (λ twin. (table_of twin.store ≡ guarded) × (twin.store.usable ≡ true) × IsStore twin.store × IsTwin twin) }
        ensures stands { B.told → IfOk result (λ twin. IsAsLeft (B.file bench.new) twin.store) }
        ensures spare_stands { S.told → IfOk result (λ twin. IsSpareAsLeft (S.file spare.new) twin) }
        ensures together { B.told → S.told → IfOk result (λ twin. KeepWhole guarded (B.file bench.old) (S.file spare.old) twin.store.history) }
        ensures longer { (main other whole : List Answered) → B.told → S.told → KeepTogether guarded (B.file bench.old) (S.file spare.old) main other whole
            → IfOk result (λ twin. twin.store.history ≡ whole) }

        // Each refusal has its cause in the files, and each cause has its refusal; files that keep together are never refused.
        ensures cause { (refusal : TwinRefusal) → B.told → S.told → result ≡ Err (End.Refused refusal) → TwinCause refusal (B.file bench.old) (S.file spare.old) guarded }
        ensures due { (refusal : TwinRefusal) → B.told → S.told → TwinCause refusal (B.file bench.old) (S.file spare.old) guarded → RefusedUnlessStopped refusal result }
        ensures opens { (main other whole : List Answered) → B.told → S.told → KeepTogether guarded (B.file bench.old) (S.file spare.old) main other whole → DoneUnlessStopped result }

        // At every moment each file stands for a history between its own and the whole, and at the end, too, if memory ran out. Files that
        // don't keep together are only read.
        ensures main_moments { (main other whole : List Answered) → B.told → S.told → IsQuiet B.Bench bench.old → KeepTogether guarded (B.file bench.old) (S.file spare.old) main other whole
            → LeavesOnly B.Bench bench.old bench.new (CatchesUp guarded.setting.shape main whole (B.sent bench.old)) }
        ensures spare_moments { (main other whole : List Answered) → B.told → S.told → IsQuiet S.Bench spare.old → KeepTogether guarded (B.file bench.old) (S.file spare.old) main other whole
            → LeavesOnly S.Bench spare.old spare.new (CatchesUp guarded.setting.shape other whole (S.sent spare.old)) }
        ensures no_memory { (main other whole : List Answered) → B.told → S.told → KeepTogether guarded (B.file bench.old) (S.file spare.old) main other whole
            → IsErrOf result (End.Stopped Stop.NoMemory) → StandsBetween guarded.setting.shape main whole (B.file bench.new) × StandsBetween guarded.setting.shape other whole (S.file spare.new) }
        ensures untouched { B.told → S.told → IsQuiet B.Bench bench.old → KeepApart guarded (B.file bench.old) (S.file spare.old)
            → LeavesOnly B.Bench bench.old bench.new (IsUntouched (B.file bench.old) (B.sent bench.old)) }
        ensures spare_untouched { B.told → S.told → IsQuiet S.Bench spare.old → KeepApart guarded (B.file bench.old) (S.file spare.old)
            → LeavesOnly S.Bench spare.old spare.new (IsUntouched (S.file spare.old) (S.sent spare.old)) }
        ensures quiet { B.told → IsQuiet B.Bench bench.old → result ≢ Err (End.Stopped Stop.Bench) → IsQuiet B.Bench bench.new }
        ensures spare_quiet { S.told → IsQuiet S.Bench spare.old → result ≢ Err (End.Stopped Stop.Spare) → IsQuiet S.Bench spare.new }
        ensures sent { B.sent bench.new ≡ B.sent bench.old }
        ensures spare_sent { S.sent spare.new ≡ S.sent spare.old }

        // If the files are refused, both were only read; if the journal is, the spare wasn't called. If a call of one failed, the other was
        // only read; the spare's come after the journal was opened.
        ensures reads { IsRefused result → OnlyReads B.Bench bench.old bench.new × OnlyReads S.Bench spare.old spare.new }
        ensures main_failed { IsErrOf result (End.Stopped Stop.Bench) → OnlyReads S.Bench spare.old spare.new }
        ensures spare_failed { IsErrOf result (End.Stopped Stop.Spare) → OnlyReads B.Bench bench.old bench.new }
        ensures spare_second { B.told → IsErrOf result (End.Stopped Stop.Spare) → HoldsLegal (B.file bench.old) guarded }
        ensures main_first { (refusal : JournalRefusal) → result ≡ Err (End.Refused (TwinRefusal.Main refusal)) → spare.new ≡ spare.old }
        ensures ticks { (main other whole : List Answered) → B.told → S.told → KeepTogether guarded (B.file bench.old) (S.file spare.old) main other whole
            → OnOk result (B.moment bench.new ≡ B.moment bench.old + calls_to_open main whole) }
        ensures spare_ticks { (main other whole : List Answered) → B.told → S.told → KeepTogether guarded (B.file bench.old) (S.file spare.old) main other whole
            → OnOk result (S.moment spare.new ≡ S.moment spare.old + calls_to_open other whole) }
        ensures fault { TellsFault B.Bench bench.old bench.new (IsErrOf result (End.Stopped Stop.Bench)) }
        ensures spare_fault { TellsFault S.Bench spare.old spare.new (IsErrOf result (End.Stopped Stop.Spare)) }
        ensures ends { IfErr result (EndsBy IsOfBenches (λ _. ⊤)) }
    {
        one_reading();
        let mut store = match Store::start(alloc, guarded, bench) {
            Ok(store) => store,
            Err(end) => return Err(of_main(end)),
        };
        let (mut journal, list) = match store.open_other(spare) {
            Ok(found) => found,
            Err(end) => return Err(of_spare(end)),
        };
        catch_up(&mut store, bench, &mut journal, spare, &list)?;
        Ok(TwinStore {
            store,
            spare: journal,
        })
    }

    /// The released records, in order.
    pub fn history(&self) -> &[Answered]
        ensures history { result.now ≡ self.now.store.history }
        ensures is { IsStore self.now.store × IsTwin self.now }
    {
        self.store.history()
    }

    /// Whether questions may be asked. After a refused group they may not.
    pub fn usable(&self) -> bool
        ensures { result ≡ self.now.store.usable }
    {
        self.store.usable()
    }
}

/// A twin store is spared: a group is on its spare and then in its journal before an answer is given.
impl Keeper for TwinStore {
    ghost spared = { Unit {0} };

    ghost store = { λ t. t.store };

    ghost spare_gate = { λ t. t.spare.gate };

    fn ask_group<B: Bench, S: Bench>(
        &mut self,
        bench: &mut B,
        spare: &mut S,
        asked: &[Asked],
    ) -> Result<Vec<Outcome>, Stop> {
        self.store.ask_all(&mut self.spare, bench, spare, asked)
    }
}
