//! The store.
ghost use Rattle.std.specs.Prelude.{◌≡◌, ◌≢◌, ◌≤◌, ◌+◌, ◌++◌, [], ⊤, ℕ, List, true, false, length, take, All, IfOk, IfErr, OnOk, OnErr, IsErrOf, Err};
ghost use Rattle.audit_types.specs.declared.records.Answered.{Answered};
ghost use Rattle.audit_types.specs.History.{FitsShape, IsLegal, setting_of};
ghost use Rattle.bench_core.specs.Calls.{IsQuiet, LeavesOnly, IsUntouched, OnlyReads, TellsFault};
ghost use Rattle.bench_core.specs.Ends.{DoneUnlessStopped, EndsBy, RefusedUnlessStopped};
ghost use Rattle.bench_core.specs.Stops.{IsOfBench, IsOfBenches};
ghost use Rattle.journal_form.specs.Journal.{StandsAt, StandsFor};
ghost use Rattle.answer_journal.specs.Moments.{IsBeforeOrGrown};
ghost use Rattle.audit_types.specs.Widening.{over, widened};
ghost use Rattle.audit_store.specs.Asks.{AsksOn, SpareAsksOn};
ghost use Rattle.audit_store.specs.Growing.{GrowCause, CanGrow};
ghost use Rattle.audit_store.specs.declared.growing.GrowRefusal.{GrowRefusal};
ghost use Rattle.audit_store.specs.Stores.{IsAsLeft, IsStore, table_of};
ghost use Rattle.audit_store.specs.Twice.{IsBroughtUp, IsJournalOf, StandsWithSome, calls_to_bring_up};
ghost use Rattle.table_load.specs.Cells.{IsSecret};
ghost use Rattle.audit_store.specs.Starting.{StartCause};
ghost use Rattle.answer_journal.specs.declared.refusals.JournalRefusal.{JournalRefusal};

use crate::ahead::Ahead;
use crate::asking::{decide_all, keep_ready, made_ready};
use crate::bringing::{bring_up, take_all};
use crate::growing::{GrowRefusal, may_grow, of_journal};
use crate::guarded::Guarded;
use crate::sealed::Sealed;
use crate::starting::opened;
use answer_journal::{Journal, JournalRefusal};
use audit_core::{Core, Outcome};
use audit_types::{Answered, Asked, Guard, Shape};
use bench_core::{Bench, End, Failed, Stop};
use std::alloc::Global;
use std::marker::Model;
use table_load::Secret;

/// The secrets of a table, the audit of their columns, and the journal of what was released.
#[derive(Drop)]
pub struct Store {
    alloc: Global,
    sealed: Sealed<Secret>,
    // How many of the audit's records were released. It may have more, after a refusal.
    released: u32,
    journal: Journal,
    usable: bool,
}

impl Model for Store {
    ghost use Rattle.std.specs.Prelude.{take};
    ghost use Rattle.audit_store.specs.Stores.{StoreContents, IsStore, IsAuditedBy};
    ghost use Rattle.table_load.specs.Database.{secret_table};

    ghost Value = { StoreContents };

    ghost view = { λ s. record { secret = s.sealed.secret; protected = s.sealed.core.setting.protected; history = take s.released s.sealed.core.history; journal = s.journal; usable = s.usable } };

    ghost invariant = { λ s. IsStore (record { secret = s.sealed.secret; protected = s.sealed.core.setting.protected; history = take s.released s.sealed.core.history; journal = s.journal; usable = s.usable }) × IsAuditedBy (secret_table s.sealed.secret s.sealed.core.setting.protected) s.sealed.core s.released s.usable };
}

impl Store {
    /// Opens the journal of a table, and tests that it is that of the table. The refusals come in the order of
    /// `JournalRefusal`. The secrets and the groups are dropped with a refusal. The file isn't written.
    pub fn start<B: Bench>(
        alloc: Global,
        guarded: Guarded,
        bench: &mut B,
    ) -> Result<Store, End<JournalRefusal>>
        // The store is that of the file's history, which is legal.
        ensures store { IfOk result (λ store. (table_of store ≡ guarded) × (store.usable ≡ true) × IsStore store) }
        ensures stands { B.told → IfOk result (λ store. IsAsLeft (B.file bench.old) store) }

        // Each refusal has its cause in the file, and each cause has its refusal; a legal history is never refused.
        ensures cause { (refusal : JournalRefusal) → B.told → result ≡ Err (End.Refused refusal) → StartCause refusal (B.file bench.old) guarded }
        ensures due { (refusal : JournalRefusal) → B.told → StartCause refusal (B.file bench.old) guarded → RefusedUnlessStopped refusal result }
        ensures opens { (history : List Answered) → B.told → StandsFor (B.file bench.old) guarded.setting.shape history → IsLegal guarded history → DoneUnlessStopped result }

        // Nothing is written and nothing sent.
        ensures reads { OnlyReads B.Bench bench.old bench.new }
        ensures ticks { B.told → OnOk result (B.moment bench.new ≡ B.moment bench.old + 2) }
        ensures fault { TellsFault B.Bench bench.old bench.new (IsErrOf result (End.Stopped Stop.Bench)) }
        ensures ends { IfErr result (EndsBy IsOfBench (λ _. ⊤)) }
    {
        let (journal, list) = Journal::read_back(alloc, bench)?;
        let sealed = opened(alloc, guarded, &journal.shape(), &list)?;
        Ok(Store {
            alloc,
            sealed,
            released: journal.count(),
            journal,
            usable: true,
        })
    }

    /// Grows the journal of a table to rows that came at its end, if its history is legal over all of them. The refusals come in
    /// the order of `GrowRefusal`, and of `JournalRefusal`. All memory is taken before the first write. The secrets and the groups are dropped in every case.
    pub fn grow<B: Bench>(
        alloc: Global,
        guarded: Guarded,
        bench: &mut B,
    ) -> Result<(), End<GrowRefusal>>
        // Each refusal has its cause in the file, and each cause has its refusal; a history that is legal over all rows is never
        // refused.
        ensures cause { (refusal : GrowRefusal) → B.told → result ≡ Err (End.Refused refusal) → GrowCause refusal (B.file bench.old) guarded }
        ensures due { (refusal : GrowRefusal) → B.told → GrowCause refusal (B.file bench.old) guarded → RefusedUnlessStopped refusal result }
        ensures grows { B.told → CanGrow (B.file bench.old) guarded → DoneUnlessStopped result }

        // The file then stands for the history over all rows. A crash at any moment leaves it over the old rows, or over all.
        ensures done { B.told → OnOk result ((grown : CanGrow (B.file bench.old) guarded) × StandsFor (B.file bench.new) guarded.setting.shape (widened guarded.setting.shape.rows grown.history)) }
        ensures any_moment { B.told → IsQuiet B.Bench bench.old → (grown : CanGrow (B.file bench.old) guarded)
            → LeavesOnly B.Bench bench.old bench.new (IsBeforeOrGrown (over grown.rows guarded.setting.shape) grown.history guarded.setting.shape.rows (B.sent bench.old)) }

        // If it can't grow, nothing is written, at any moment; nor if memory runs out.
        ensures untouched { B.told → IsQuiet B.Bench bench.old → (CanGrow (B.file bench.old) guarded → ⊥)
            → LeavesOnly B.Bench bench.old bench.new (IsUntouched (B.file bench.old) (B.sent bench.old)) }
        ensures kept { OnErr result (result ≢ Err (End.Stopped Stop.Bench) → B.file bench.new ≡ B.file bench.old) }
        ensures quiet { B.told → IsQuiet B.Bench bench.old → result ≢ Err (End.Stopped Stop.Bench) → IsQuiet B.Bench bench.new }

        ensures sent { B.sent bench.new ≡ B.sent bench.old }
        ensures ticks { B.told → OnOk result (B.moment bench.new ≡ B.moment bench.old + 6) }
        ensures fault { TellsFault B.Bench bench.old bench.new (IsErrOf result (End.Stopped Stop.Bench)) }
        ensures ends { IfErr result (EndsBy IsOfBench (λ _. ⊤)) }
    {
        match Journal::read_back(alloc, bench) {
            Ok((mut journal, mut list)) => {
                let kept = journal.shape();
                let rows = guarded.shape().rows;
                may_grow(alloc, guarded, &kept, &mut list)?;
                journal.append_growth(bench, rows)?;
                Ok(())
            }
            Err(end) => Err(of_journal(end)),
        }
    }

    /// Decides up to 64 questions in order, each after the history and the answers before it in the group. The records of
    /// the answers are kept before an answer is given: they are appended as one group to the other journal, if there is one, and then
    /// to the store's own, in four calls of each bench. All memory is taken before the first of them. After a refusal the store
    /// isn't usable.
    pub fn ask_all<A: Ahead, B: Bench, S: Bench>(
        &mut self,
        ahead: &mut A,
        bench: &mut B,
        spare: &mut S,
        asked: &[Asked],
    ) -> Result<Vec<Outcome>, Stop>
        requires usable { self.old.usable ≡ true }
        requires ahead { A.spared → IsJournalOf self.old.secret.shape self.old.history (A.journal ahead.old) }
        requires few { length asked.now ≤ 64 }
        requires fit { All (λ a. FitsShape self.old.secret.shape a.column a.rows) asked.now }
        requires stands { B.told → IsAsLeft (B.file bench.old) self.old }
        requires spare_stands { A.spared → S.told → StandsAt (S.file spare.old) self.old.secret.shape self.old.history (A.journal ahead.old).gate }

        // One outcome for each question, and their records are kept. A crash at any moment leaves the history before, or that with the
        // records of the group; after a refusal the history is as it was.
        ensures asks { AsksOn B.Bench self.old self.new asked.now result bench.old bench.new }

        // The same of the spare, if there is one, which comes first. Else it isn't called.
        ensures spare { SpareAsksOn B.Bench S.Bench (A.spared × S.told) self.old self.new (A.journal ahead.old).gate (A.journal ahead.new).gate asked.now result bench.old bench.new spare.old spare.new }
        ensures ahead { A.spared → OnOk result (IsJournalOf self.new.secret.shape self.new.history (A.journal ahead.new)) }
        ensures own { IsErrOf result Stop.Spare → A.spared }
        ensures untouched { (A.spared → ⊥) → spare.new ≡ spare.old }
        ensures ends { IfErr result IsOfBenches }
    {
        self.usable = false;
        let outcomes = decide_all(self.alloc, &mut self.sealed, asked)?;
        let group = &self.sealed.core().history()[self.released as usize..];
        let ready = made_ready(&self.journal, group)?;
        match ahead.keep_ahead(spare, &ready) {
            Ok(()) => {}
            Err(Failed) => return Err(Stop::Spare),
        }
        match keep_ready(&mut self.journal, bench, &ready) {
            Ok(()) => {}
            Err(Failed) => return Err(Stop::Bench),
        }
        self.released = self.sealed.core().history().len() as u32;
        self.usable = true;
        Ok(outcomes)
    }

    /// Opens another journal of the store's table, and tests it as `start` does: the refusals come in the same order. Records with which
    /// the store's history begins are legal, and not tested again.
    pub fn open_other<S: Bench>(
        &self,
        spare: &mut S,
    ) -> Result<(Journal, Vec<Answered>), End<JournalRefusal>>
        requires usable { self.now.usable ≡ true }

        // It is that of the file's history, which is legal.
        ensures journal { IfOk result (λ r. IsJournalOf self.now.secret.shape r.1.items r.0) }
        ensures legal { IfOk result (λ r. IsLegal (table_of self.now) r.1.items) }
        ensures stands { S.told → IfOk result (λ r. StandsAt (S.file spare.old) self.now.secret.shape r.1.items r.0.gate) }

        // Each refusal has its cause in the file, and each cause has its refusal; a legal history is never refused.
        ensures cause { (refusal : JournalRefusal) → S.told → result ≡ Err (End.Refused refusal) → StartCause refusal (S.file spare.old) (table_of self.now) }
        ensures due { (refusal : JournalRefusal) → S.told → StartCause refusal (S.file spare.old) (table_of self.now) → RefusedUnlessStopped refusal result }
        ensures opens { (history : List Answered) → S.told → StandsFor (S.file spare.old) self.now.secret.shape history → IsLegal (table_of self.now) history → DoneUnlessStopped result }

        // Nothing is written and nothing sent.
        ensures reads { OnlyReads S.Bench spare.old spare.new }
        ensures ticks { S.told → OnOk result (S.moment spare.new ≡ S.moment spare.old + 2) }
        ensures fault { TellsFault S.Bench spare.old spare.new (IsErrOf result (End.Stopped Stop.Bench)) }
        ensures ends { IfErr result (EndsBy IsOfBench (λ _. ⊤)) }
    {
        self.sealed.open_other(self.alloc, spare)
    }

    /// Goes on with records that its journal lacks, and brings that up to them, in groups of up to 64. They aren't decided again.
    /// After a refusal the store isn't usable, and some of them may have been appended.
    pub fn bring_up<B: Bench>(&mut self, bench: &mut B, missing: &[Answered]) -> Result<(), Stop>
        requires usable { self.old.usable ≡ true }
        requires legal { IsLegal (table_of self.old) (self.old.history ++ missing.now) }
        requires stands { B.told → IsAsLeft (B.file bench.old) self.old }

        ensures history { OnOk result (self.new.history ≡ self.old.history ++ missing.now) }
        ensures stands { B.told → OnOk result (IsAsLeft (B.file bench.new) self.new) }
        ensures usable { OnOk result (self.new.usable ≡ true) }
        ensures kept { OnErr result ((self.new.history ≡ self.old.history) × (self.new.usable ≡ false)) }
        ensures secret { self.new.secret ≡ self.old.secret }
        ensures protected { self.new.protected ≡ self.old.protected }
        ensures is { IsStore self.new }

        // A crash at any moment leaves the history with some of them, from the first on.
        ensures any_moment { B.told → IsQuiet B.Bench bench.old
            → LeavesOnly B.Bench bench.old bench.new (IsBroughtUp self.old.secret.shape self.old.history missing.now (B.sent bench.old)) }
        ensures no_memory { B.told → IsErrOf result Stop.NoMemory → StandsWithSome self.old.secret.shape self.old.history missing.now (B.file bench.new) }
        ensures quiet { B.told → IsQuiet B.Bench bench.old → (IsErrOf result Stop.Bench → ⊥) → IsQuiet B.Bench bench.new }
        ensures sent { B.sent bench.new ≡ B.sent bench.old }
        ensures ticks { B.told → OnOk result (B.moment bench.new ≡ B.moment bench.old + calls_to_bring_up missing.now) }
        ensures fault { TellsFault B.Bench bench.old bench.new (IsErrOf result Stop.Bench) }
        ensures ends { IfErr result IsOfBench }
    {
        self.usable = false;
        take_all(&mut self.sealed, missing)?;
        bring_up(&mut self.journal, bench, missing)?;
        self.released = self.sealed.core().history().len() as u32;
        self.usable = true;
        Ok(())
    }

    /// Whether questions may be asked. After a refused `ask_all` they may not.
    pub fn usable(&self) -> bool
        ensures { result ≡ self.now.usable }
    {
        self.usable
    }

    /// The released records, in order.
    pub fn history(&self) -> &[Answered]
        ensures history { result.now ≡ self.now.history }
        ensures is { IsStore self.now }
    {
        &self.sealed.core().history()[..self.released as usize]
    }

    /// The number of rows of the table, and what each secret column answers.
    pub fn shape(&self) -> Shape
        ensures shape { result ≡ self.now.secret.shape }
        ensures is { IsSecret self.now.secret }
    {
        self.sealed.shape()
    }

    /// What is guarded of the table.
    pub fn protected(&self) -> &Guard
        ensures { result.now ≡ self.now.protected }
    {
        self.sealed.core().protected()
    }

    /// The audit of the columns. While the store is usable its history is `history()`; after a refusal it begins with it.
    pub fn core(&self) -> &Core
        ensures setting { result.now.setting ≡ setting_of self.now.secret.shape self.now.protected }
        ensures begins { take (length self.now.history) result.now.history ≡ self.now.history }
        ensures same { self.now.usable ≡ true → result.now.history ≡ self.now.history }
    {
        self.sealed.core()
    }
}
