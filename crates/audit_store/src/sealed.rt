//! What is guarded, behind the audit that decides what may be told of it.
ghost use Rattle.std.specs.Prelude.{◌≡◌, ◌≤◌, ◌+◌, ◌++◌, [], ◌∷◌, ⊤, List, length, All, OnOk, OnErr, IfOk, IfErr, Err, IsErrOf};
ghost use Rattle.audit_types.specs.declared.records.Answered.{Answered};
ghost use Rattle.audit_types.specs.declared.records.Verdict.TheVariants.{Released};
ghost use Rattle.audit_types.specs.Limits.{most_records};
ghost use Rattle.audit_types.specs.Judgement.{IsWithinWidth};
ghost use Rattle.audit_types.specs.History.{FitsShape, IsLegal, IsPossibleHistory, IsDecisionAfter, known_of, setting_of, list_of};
ghost use Rattle.audit_types.specs.Shapes.{kind_at};
ghost use Rattle.audit_types.specs.Truth.{truth};
ghost use Rattle.answer_journal.specs.declared.refusals.JournalRefusal.{JournalRefusal};
ghost use Rattle.bench_core.specs.Calls.{OnlyReads, TellsFault};
ghost use Rattle.bench_core.specs.Ends.{DoneUnlessStopped, EndsBy, RefusedUnlessStopped};
ghost use Rattle.bench_core.specs.Stops.{IsOfBench, IsOfMemory};
ghost use Rattle.journal_form.specs.Journal.{StandsAt, StandsFor};
ghost use Rattle.table_load.specs.Cells.{IsSecret};
ghost use Rattle.audit_store.specs.Starting.{HistoryCause, StartCause};
ghost use Rattle.audit_store.specs.Stores.{table_by};
ghost use Rattle.audit_store.specs.Twice.{IsJournalOf};

use crate::agreeing::agreement;
use crate::starting::audited;
use answer_journal::{Journal, JournalRefusal};
use audit_core::Core;
use audit_types::{Answered, Asked, NoMemory, Shape, Verdict};
use bench_core::{Bench, End, Stop};
use std::alloc::Global;
use table_load::Secret;

/// Secrets, and the audit of their columns. Nothing gives the secrets back: what decides and what keeps records is the same for every
/// type of theirs, so it can't read them, and `truth` reads them of a released question alone.
#[derive(Drop)]
pub struct Sealed<S> {
    secret: S,
    core: Core,
}

impl<S: Drop> Sealed<S> {
    /// Seals the secrets.
    pub fn new(secret: S, core: Core) -> Sealed<S>
        ensures secret { result.secret ≡ secret }
        ensures core { result.core ≡ core }
    {
        Sealed { secret, core }
    }

    /// The audit of the columns.
    pub fn core(&self) -> &Core
        ensures { result.now ≡ self.now.core }
    {
        &self.core
    }

    /// The verdict on a question.
    pub fn weigh(&mut self, asked: &Asked) -> Result<Verdict, NoMemory>
        requires fits { FitsShape self.old.core.setting.shape asked.now.column asked.now.rows }
        ensures decided { IfOk result (λ verdict. IsPossibleHistory self.old.core.setting self.old.core.history → IsDecisionAfter self.old.core.setting self.old.core.history asked.now.column asked.now.rows.list verdict) }
        ensures same { self.new ≡ self.old }
    {
        self.core.weigh(asked)
    }

    /// Adds a record to the audit. On `NoMemory` its history is as before.
    pub fn take(&mut self, answered: &Answered) -> Result<(), NoMemory>
        requires fits { FitsShape self.old.core.setting.shape answered.now.column answered.now.rows }
        requires narrow { IsWithinWidth (known_of self.old.core.setting self.old.core.history answered.now.column) answered.now.rows.list }
        ensures ok { OnOk result (self.new.core ≡ record self.old.core { history = self.old.core.history ++ answered.now ∷ [] }) }
        ensures err { OnErr result (self.new.core ≡ self.old.core) }
        ensures secret { self.new.secret ≡ self.old.secret }
    {
        self.core.take(answered)
    }
}

impl Sealed<Secret> {
    /// The number of rows, and what each secret column answers.
    pub fn shape(&self) -> Shape
        ensures shape { result ≡ self.now.secret.shape }
        ensures is { IsSecret self.now.secret }
    {
        self.secret.shape()
    }

    /// The true answer to a question. It has to be released after what was answered, and nothing can keep it from being told.
    pub fn truth(&self, asked: &Asked) -> i64
        requires fits { FitsShape self.now.secret.shape asked.now.column asked.now.rows }
        requires released { IsDecisionAfter self.now.core.setting self.now.core.history asked.now.column asked.now.rows.list Released }
        ensures { result ≡ truth (kind_at self.now.secret.shape asked.now.column) (list_of self.now.secret.lists asked.now.column) asked.now.rows.list }
    {
        self.secret.truth(asked.column, &asked.rows)
    }

    // Tests that the history of a journal of this shape is that of the table. One with which the history of the audit begins, which is
    // legal, isn't tested again.
    fn test_other(
        &self,
        alloc: Global,
        kept: &Shape,
        list: &[Answered],
    ) -> Result<(), End<JournalRefusal>>
        requires setting { self.now.core.setting ≡ setting_of self.now.secret.shape self.now.core.setting.protected }
        requires legal { IsLegal (table_by self.now.secret self.now.core) self.now.core.history }
        requires few { length list.now ≤ most_records }
        requires fit { All (λ r. FitsShape kept.now r.column r.rows) list.now }
        ensures ok { OnOk result ((kept.now ≡ self.now.secret.shape) × IsLegal (table_by self.now.secret self.now.core) list.now) }
        ensures err { IfErr result (EndsBy IsOfMemory (λ refusal. HistoryCause refusal kept.now list.now (table_by self.now.secret self.now.core))) }
        ensures due { (refusal : JournalRefusal) → HistoryCause refusal kept.now list.now (table_by self.now.secret self.now.core) → RefusedUnlessStopped refusal result }
        ensures opens { kept.now ≡ self.now.secret.shape → IsLegal (table_by self.now.secret self.now.core) list.now → DoneUnlessStopped result }
    {
        let now = self.secret.shape();
        if *kept != now {
            return Err(End::Refused(JournalRefusal::OtherShape { kept: *kept, now }));
        }
        if agreement(self.core.history(), list) == list.len() {
            return Ok(());
        }
        let Ok(protected) = self.core.protected().copy(alloc) else {
            return Err(End::Stopped(Stop::NoMemory));
        };
        audited(alloc, &self.secret, protected, list)?;
        Ok(())
    }

    /// Opens another journal of the table, and tests it as a store's own is tested: the refusals come in the same order. Records with
    /// which the history of the audit begins are legal, and not tested again.
    pub fn open_other<B: Bench>(
        &self,
        alloc: Global,
        spare: &mut B,
    ) -> Result<(Journal, Vec<Answered>), End<JournalRefusal>>
        requires setting { self.now.core.setting ≡ setting_of self.now.secret.shape self.now.core.setting.protected }
        requires legal { IsLegal (table_by self.now.secret self.now.core) self.now.core.history }

        // It is that of the file's history, which is legal.
        ensures journal { IfOk result (λ found. IsJournalOf self.now.secret.shape found.1.items found.0) }
        ensures legal { IfOk result (λ found. IsLegal (table_by self.now.secret self.now.core) found.1.items) }
        ensures stands { B.told → IfOk result (λ found. StandsAt (B.file spare.old) self.now.secret.shape found.1.items found.0.gate) }

        // Each refusal has its cause in the file, and each cause has its refusal; a legal history is never refused.
        ensures cause { (refusal : JournalRefusal) → B.told → result ≡ Err (End.Refused refusal) → StartCause refusal (B.file spare.old) (table_by self.now.secret self.now.core) }
        ensures due { (refusal : JournalRefusal) → B.told → StartCause refusal (B.file spare.old) (table_by self.now.secret self.now.core) → RefusedUnlessStopped refusal result }
        ensures opens { (history : List Answered) → B.told → StandsFor (B.file spare.old) self.now.secret.shape history → IsLegal (table_by self.now.secret self.now.core) history → DoneUnlessStopped result }

        // Nothing is written and nothing sent.
        ensures reads { OnlyReads B.Bench spare.old spare.new }
        ensures ticks { B.told → OnOk result (B.moment spare.new ≡ B.moment spare.old + 2) }
        ensures fault { TellsFault B.Bench spare.old spare.new (IsErrOf result (End.Stopped Stop.Bench)) }
        ensures ends { IfErr result (EndsBy IsOfBench (λ _. ⊤)) }
    {
        let (journal, list) = Journal::read_back(alloc, spare)?;
        self.test_other(alloc, &journal.shape(), &list)?;
        Ok((journal, list))
    }
}
