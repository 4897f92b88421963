//! Deciding questions, and keeping the records of their answers.
ghost use Rattle.std.specs.Prelude.{◌≡◌, ◌≤◌, ◌+◌, ◌++◌, [], List, true, length, take, All, IfOk, IfErr, OnOk, OnErr, IsErrOf};
ghost use Rattle.std.specs.Option.{option_to_list};
ghost use Rattle.audit_types.specs.Limits.{most_records};
ghost use Rattle.audit_types.specs.declared.records.Answered.{Answered};
ghost use Rattle.audit_types.specs.History.{FitsShape, IsLegal};
ghost use Rattle.audit_core.specs.Outcomes.{IsOutcome, AreOutcomes, record_of, records_made};
ghost use Rattle.bench_core.specs.Calls.{TellsFault};
ghost use Rattle.bench_core.specs.Causes.{HasCause};
ghost use Rattle.bench_core.specs.Stops.{IsOfBench};
ghost use Rattle.journal_form.specs.Journal.{StandsAt};
ghost use Rattle.table_load.specs.Database.{secret_table};
ghost use Rattle.audit_store.specs.Twice.{IsReadyOver, MayAppend, WasAppended, group_of};

use crate::sealed::Sealed;
use answer_journal::{Journal, Ready};
use audit_core::Outcome;
use audit_core::laws::released_records;
use audit_types::laws::true_answers;
use audit_types::{Answered, Asked, MOST_RECORDS, NoMemory, Verdict};
use bench_core::{Bench, Failed, Stop};
use std::alloc::Global;
use table_load::Secret;

/// What becomes of a question after the records of the core. The decision reads no secret, and the answer is read after it.
pub fn outcome_of(sealed: &mut Sealed<Secret>, asked: &Asked) -> Result<Outcome, NoMemory>
    requires same_shape { sealed.old.core.setting.shape ≡ sealed.old.secret.shape }
    requires legal { IsLegal (secret_table sealed.old.secret sealed.old.core.setting.protected) sealed.old.core.history }
    requires fits { FitsShape sealed.old.secret.shape asked.now.column asked.now.rows }
    ensures outcome { IfOk result (λ outcome. IsOutcome (secret_table sealed.old.secret sealed.old.core.setting.protected) sealed.old.core.history asked.now outcome) }
    ensures same { sealed.new ≡ sealed.old }
{
    true_answers();
    // The secrets say of themselves that they are a table's.
    let _ = sealed.shape();
    if sealed.core().history().len() >= MOST_RECORDS {
        return Ok(Outcome::Full);
    }
    match sealed.weigh(asked) {
        Ok(Verdict::Released) => Ok(Outcome::Answer(sealed.truth(asked))),
        Ok(Verdict::DeniedUnsafe) => Ok(Outcome::Denied(Verdict::DeniedUnsafe)),
        Ok(Verdict::DeniedWide) => Ok(Outcome::Denied(Verdict::DeniedWide)),
        Err(NoMemory) => Err(NoMemory),
    }
}

// Decides a question after the records of the core, which takes the record of an answer.
fn decide(sealed: &mut Sealed<Secret>, asked: &Asked) -> Result<Outcome, NoMemory>
    requires same_shape { sealed.old.core.setting.shape ≡ sealed.old.secret.shape }
    requires legal { IsLegal (secret_table sealed.old.secret sealed.old.core.setting.protected) sealed.old.core.history }
    requires fits { FitsShape sealed.old.secret.shape asked.now.column asked.now.rows }
    ensures outcome { IfOk result (λ outcome. IsOutcome (secret_table sealed.old.secret sealed.old.core.setting.protected) sealed.old.core.history asked.now outcome) }
    ensures history { IfOk result (λ outcome. sealed.new.core.history ≡ sealed.old.core.history ++ option_to_list (record_of asked.now outcome)) }
    ensures legal { OnOk result (IsLegal (secret_table sealed.old.secret sealed.old.core.setting.protected) sealed.new.core.history) }
    ensures kept { OnErr result (sealed.new.core.history ≡ sealed.old.core.history) }
    ensures setting { sealed.new.core.setting ≡ sealed.old.core.setting }
    ensures secret { sealed.new.secret ≡ sealed.old.secret }
{
    released_records();
    match outcome_of(sealed, asked)? {
        Outcome::Answer(answer) => {
            let answered = Answered {
                column: asked.column,
                rows: asked.rows,
                answer,
            };
            sealed.take(&answered)?;
            Ok(Outcome::Answer(answer))
        }
        Outcome::Denied(verdict) => Ok(Outcome::Denied(verdict)),
        Outcome::Full => Ok(Outcome::Full),
    }
}

/// Decides questions in order, each after the records of the core and of the questions before it. The core takes each
/// record at once, and may have some of them after `NoMemory`.
pub fn decide_all(
    alloc: Global,
    sealed: &mut Sealed<Secret>,
    asked: &[Asked],
) -> Result<Vec<Outcome>, NoMemory>
    requires same_shape { sealed.old.core.setting.shape ≡ sealed.old.secret.shape }
    requires legal { IsLegal (secret_table sealed.old.secret sealed.old.core.setting.protected) sealed.old.core.history }
    requires fit { All (λ a. FitsShape sealed.old.secret.shape a.column a.rows) asked.now }
    ensures outcomes { IfOk result (λ v. AreOutcomes (secret_table sealed.old.secret sealed.old.core.setting.protected) sealed.old.core.history asked.now v.items) }
    ensures history { IfOk result (λ v. sealed.new.core.history ≡ sealed.old.core.history ++ records_made asked.now v.items) }
    ensures few { IfOk result (λ v. length (records_made asked.now v.items) ≤ length asked.now) }
    ensures legal { OnOk result (IsLegal (secret_table sealed.old.secret sealed.old.core.setting.protected) sealed.new.core.history) }
    ensures begins { take (length sealed.old.core.history) sealed.new.core.history ≡ sealed.old.core.history }
    ensures within { length sealed.old.core.history ≤ length sealed.new.core.history }
    ensures setting { sealed.new.core.setting ≡ sealed.old.core.setting }
    ensures secret { sealed.new.secret ≡ sealed.old.secret }
{
    let mut outcomes = Vec::with_capacity(alloc, asked.len())?;
    for question in asked {
        let outcome = decide(sealed, question)?;
        outcomes.push_reserved(outcome);
    }
    Ok(outcomes)
}

/// Makes a group ready, if there are records. It serves every journal of the same shape.
pub fn made_ready(journal: &Journal, group: &[Answered]) -> Result<Option<Ready>, NoMemory>
    requires group { length group.now ≤ 64 }
    requires fit { All (λ r. FitsShape journal.now.shape r.column r.rows) group.now }
    ensures over { IfOk result (λ ready. IsReadyOver journal.now.shape ready) }
    ensures group { IfOk result (λ ready. group_of ready ≡ group.now) }
{
    if group.is_empty() {
        return Ok(None);
    }
    let ready = journal.ready(group)?;
    Ok(Some(ready))
}

/// Appends a group that is ready to the journal, if there is one. It takes no memory.
pub fn keep_ready<B: Bench>(
    journal: &mut Journal,
    bench: &mut B,
    ready: &Option<Ready>,
) -> Result<(), Failed>
    requires usable { journal.old.usable ≡ true }
    requires over { IsReadyOver journal.old.shape ready.now }
    requires few { journal.old.count + length (group_of ready.now) ≤ most_records }
    requires stands { B.told → (history : List Answered) × StandsAt (B.file bench.old) journal.old.shape history journal.old.gate × (length history ≡ journal.old.count) }

    ensures any_moment { MayAppend B.Bench journal.old (group_of ready.now) bench.old bench.new }
    ensures appended { OnOk result (WasAppended B.Bench journal.old journal.new (group_of ready.now) bench.old bench.new) }
    ensures unasked { group_of ready.now ≡ [] → OnOk result (bench.new ≡ bench.old) }
    ensures sent { B.sent bench.new ≡ B.sent bench.old }
    ensures cause { HasCause (B.faults bench.old) (B.faults bench.new) result }
    ensures last_call { OnErr result (B.last_failed bench.new ≡ true) }
    ensures shape { journal.new.shape ≡ journal.old.shape }
{
    match ready {
        Some(ready) => {
            journal.append_ready(bench, ready)?;
            Ok(())
        }
        None => Ok(()),
    }
}

/// Appends records to the journal as one group, if there are any. All memory is taken before the first call of the
/// bench.
pub fn keep<B: Bench>(journal: &mut Journal, bench: &mut B, group: &[Answered]) -> Result<(), Stop>
    requires usable { journal.old.usable ≡ true }
    requires group { length group.now ≤ 64 }
    requires fit { All (λ r. FitsShape journal.old.shape r.column r.rows) group.now }
    requires few { journal.old.count + length group.now ≤ most_records }
    requires stands { B.told → (history : List Answered) × StandsAt (B.file bench.old) journal.old.shape history journal.old.gate × (length history ≡ journal.old.count) }

    ensures any_moment { MayAppend B.Bench journal.old group.now bench.old bench.new }
    ensures appended { OnOk result (WasAppended B.Bench journal.old journal.new group.now bench.old bench.new) }
    ensures unasked { group.now ≡ [] → OnOk result (bench.new ≡ bench.old) }
    ensures sent { B.sent bench.new ≡ B.sent bench.old }
    ensures no_memory { IsErrOf result Stop.NoMemory → bench.new ≡ bench.old }
    ensures fault { TellsFault B.Bench bench.old bench.new (IsErrOf result Stop.Bench) }
    ensures shape { journal.new.shape ≡ journal.old.shape }
    ensures ends { IfErr result IsOfBench }
{
    let ready = made_ready(journal, group)?;
    keep_ready(journal, bench, &ready)?;
    Ok(())
}
