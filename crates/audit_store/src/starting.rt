//! Opening the journal of a table.
ghost use Rattle.std.specs.Prelude.{◌≡◌, ◌<◌, ◌≤◌, true, false, Ok, length, All, IfOk, IfErr, OnOk};
ghost use Rattle.audit_types.specs.Limits.{most_records};
ghost use Rattle.audit_types.specs.History.{Protection, FitsShape, AreProtected, IsLegal, IsPossibleHistory, IsDecisionAfter, IsJudgementAfter, setting_of};
ghost use Rattle.audit_types.specs.declared.records.Answered.{Answered};
ghost use Rattle.audit_types.specs.declared.records.Verdict.TheVariants.{Released};
ghost use Rattle.audit_types.specs.Minima.{as_it_stands};
ghost use Rattle.audit_types.specs.Shapes.{columns, is_least};
ghost use Rattle.bench_core.specs.Ends.{DoneUnlessStopped, EndsBy, RefusedUnlessStopped};
ghost use Rattle.bench_core.specs.Stops.{IsOfMemory};
ghost use Rattle.answer_journal.specs.declared.refusals.JournalRefusal.{JournalRefusal};
ghost use Rattle.audit_store.specs.Starting.{AreTrue, HistoryCause, IsSealed, TellsIllegal};
ghost use Rattle.table_load.specs.Database.{secret_table};

use crate::guarded::Guarded;
use crate::sealed::Sealed;
use answer_journal::JournalRefusal;
use audit_core::Core;
use audit_core::laws::released_records;
use audit_types::laws::true_answers;
use audit_types::{Answered, Asked, Guard, NoMemory, Shape, Verdict};
use bench_core::End;
use std::alloc::Global;
use sum_basis::laws::sets_have_one_form;
use table_load::Secret;

// A number that was kept as the table has it.
fn as_it_stands(least: bool, number: i64) -> i128
    ensures { result ≡ as_it_stands least number }
{
    if least {
        -i128::from(number)
    } else {
        i128::from(number)
    }
}

// What is told of a record for which the table gives another answer.
fn untrue(secret: &Secret, place: u32, answered: &Answered, now: i64) -> JournalRefusal
    requires { answered.now.column < columns secret.now.shape }
    ensures { result ≡ JournalRefusal.Untrue place (as_it_stands (is_least secret.now.shape answered.now.column) answered.now.answer)
        (as_it_stands (is_least secret.now.shape answered.now.column) now) }
{
    let least = secret.shape().is_least(answered.column);
    JournalRefusal::Untrue {
        place,
        kept: as_it_stands(least, answered.answer),
        now: as_it_stands(least, now),
    }
}

// Looks for the first record whose answer isn't the true one.
fn test_truth(secret: &Secret, list: &[Answered]) -> Result<(), JournalRefusal>
    requires fit { All (λ r. FitsShape secret.now.shape r.column r.rows) list.now }
    requires few { length list.now ≤ most_records }
    ensures ok { (protected : Protection) → OnOk result (AreTrue (secret_table secret.now protected) list.now) }
    ensures err { (protected : Protection) → IfErr result (λ refusal. HistoryCause refusal secret.now.shape list.now (secret_table secret.now protected)) }
{
    for (place, answered) in list.iter().enumerate() {
        let now = secret.truth(answered.column, &answered.rows);
        if now != answered.answer {
            return Err(untrue(secret, place as u32, answered, now));
        }
    }
    Ok(())
}

// Whether the question of a record is released after the records of the core.
fn is_released(core: &mut Core, answered: &Answered) -> Result<bool, NoMemory>
    requires fits { FitsShape core.old.setting.shape answered.now.column answered.now.rows }
    requires possible { IsPossibleHistory core.old.setting core.old.history }
    ensures yes { result ≡ Ok true → IsDecisionAfter core.old.setting core.old.history answered.now.column answered.now.rows.list Released }
    ensures no { result ≡ Ok false → ¬ (IsDecisionAfter core.old.setting core.old.history answered.now.column answered.now.rows.list Released) }
    ensures judged { result ≡ Ok false → ¬ (IsJudgementAfter core.old.setting core.old.history answered.now.column answered.now.rows.list Released) }
    ensures same { core.new ≡ core.old }
{
    sets_have_one_form();
    let asked = Asked {
        column: answered.column,
        rows: answered.rows,
    };
    match core.weigh(&asked)? {
        Verdict::Released => Ok(true),
        Verdict::DeniedUnsafe => Ok(false),
        Verdict::DeniedWide => Ok(false),
    }
}

// What is told of a record whose question isn't released after the records of the core.
fn illegal(core: &Core, place: u32, answered: &Answered) -> Result<JournalRefusal, NoMemory>
    requires fits { FitsShape core.now.setting.shape answered.now.column answered.now.rows }
    requires possible { IsPossibleHistory core.now.setting core.now.history }
    requires denied { ¬ (IsJudgementAfter core.now.setting core.now.history answered.now.column answered.now.rows.list Released) }
    ensures { IfOk result (TellsIllegal core.now place answered.now) }
{
    let asked = Asked {
        column: answered.column,
        rows: answered.rows,
    };
    let group = core.blame(&asked)?;
    Ok(JournalRefusal::Illegal { place, group })
}

// Decides each record's question after the records before it, as it was decided when it was answered.
fn replay(
    alloc: Global,
    secret: &Secret,
    protected: Guard,
    list: &[Answered],
) -> Result<Core, End<JournalRefusal>>
    requires groups { AreProtected secret.now.shape protected }
    requires fit { All (λ r. FitsShape secret.now.shape r.column r.rows) list.now }
    requires few { length list.now ≤ most_records }
    requires are_true { AreTrue (secret_table secret.now protected) list.now }
    ensures ok { IfOk result (λ core. (core ≡ record { setting = setting_of secret.now.shape protected; history = list.now }) × IsLegal (secret_table secret.now protected) list.now) }
    ensures err { IfErr result (EndsBy IsOfMemory (λ refusal. HistoryCause refusal secret.now.shape list.now (secret_table secret.now protected))) }
{
    true_answers();
    released_records();
    let mut core = Core::new(alloc, secret.shape(), protected)?;
    for (place, answered) in list.iter().enumerate() {
        let released = is_released(&mut core, answered)?;
        if !released {
            let refusal = illegal(&core, place as u32, answered)?;
            return Err(End::Refused(refusal));
        }
        core.take(answered)?;
    }
    Ok(core)
}

/// Tests that a history is that of the secrets' table: every answer is true, and every question was to be released.
pub fn audited(
    alloc: Global,
    secret: &Secret,
    protected: Guard,
    list: &[Answered],
) -> Result<Core, End<JournalRefusal>>
    requires groups { AreProtected secret.now.shape protected }
    requires fit { All (λ r. FitsShape secret.now.shape r.column r.rows) list.now }
    requires few { length list.now ≤ most_records }
    ensures ok { IfOk result (λ core. (core ≡ record { setting = setting_of secret.now.shape protected; history = list.now }) × IsLegal (secret_table secret.now protected) list.now) }
    ensures err { IfErr result (EndsBy IsOfMemory (λ refusal. HistoryCause refusal secret.now.shape list.now (secret_table secret.now protected))) }
{
    match test_truth(secret, list) {
        Ok(()) => replay(alloc, secret, protected, list),
        Err(refusal) => Err(End::Refused(refusal)),
    }
}

/// Tests that the history of a journal of this shape is that of the table, and seals the secrets with the audit of it.
pub fn opened(
    alloc: Global,
    guarded: Guarded,
    kept: &Shape,
    list: &[Answered],
) -> Result<Sealed<Secret>, End<JournalRefusal>>
    requires few { length list.now ≤ most_records }
    requires fit { All (λ r. FitsShape kept.now r.column r.rows) list.now }
    ensures ok { IfOk result (λ sealed. IsSealed guarded list.now sealed.secret sealed.core) }
    ensures same { OnOk result (kept.now ≡ guarded.setting.shape) }
    ensures err { IfErr result (EndsBy IsOfMemory (λ refusal. HistoryCause refusal kept.now list.now guarded)) }
    ensures due { (refusal : JournalRefusal) → HistoryCause refusal kept.now list.now guarded → RefusedUnlessStopped refusal result }
    ensures opens { kept.now ≡ guarded.setting.shape → IsLegal guarded list.now → DoneUnlessStopped result }
{
    let now = guarded.shape();
    if *kept != now {
        return Err(End::Refused(JournalRefusal::OtherShape { kept: *kept, now }));
    }
    let (secret, protected) = guarded.apart();
    let core = audited(alloc, &secret, protected, list)?;
    Ok(Sealed::new(secret, core))
}
