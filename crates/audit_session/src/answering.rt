//! Answering a group: its questions are decided and kept, and then its replies are sent.
ghost use Rattle.std.specs.Prelude.{◌≡◌, ◌≢◌, ◌≤◌, ◌+◌, ◌++◌, List, ℕ, true, false, length, drop, All, IfErr, OnOk, OnErr, IsErr, IsErrOf, Err};
ghost use Rattle.std.specs.List.{flat_map};
ghost use Rattle.std.specs.Vec.{vec_capacity};
ghost use Rattle.bench_core.specs.Causes.{HasCause};
ghost use Rattle.bench_core.specs.Bench.{AppendsFront, Elapses, Sending};
ghost use Rattle.bench_core.specs.Calls.{IsQuiet, LeavesOnly, TellsFault};
ghost use Rattle.bench_core.specs.Stops.{IsOfBenches};
ghost use Rattle.bench_core.specs.declared.stops.Stop.{Stop};
ghost use Rattle.journal_form.specs.Journal.{StandsAt};
ghost use Rattle.audit_store.specs.Stores.{IsAsLeft, IsStore, calls_for, table_of};
ghost use Rattle.line_wire.specs.Reply.{reply_bytes, IsInRange};
ghost use Rattle.question_plan.specs.Plans.{CanBeServed};
ghost use Rattle.question_plan.specs.Replies.{IsReplyOf};
ghost use Rattle.audit_session.specs.Groups.{AnswersGroup, AreTold, BothInGroup, CanAllBeTold, DecidesGroup, InGroup, SpareAnswersOn, StandsOn, questions_of, stands_of};

use crate::gathering::Group;
use audit_store::{Keeper, Outcome};
use bench_core::{Bench, Failed, Stop};
use line_wire::{Reply, write_reply};
use question_plan::laws::told_outcomes;
use question_plan::{Plan, tell};

// The replies of a group, in order.
fn tell_all(plans: &[Plan], outcomes: &[Outcome], replies: &mut Vec<Reply>)
    requires can { CanAllBeTold plans.now outcomes.now }
    requires room { length plans.now ≤ vec_capacity replies.old }
    ensures told { AreTold plans.now outcomes.now replies.new.items }
    ensures in_range { All IsInRange replies.new.items }
    ensures room { vec_capacity replies.new ≡ vec_capacity replies.old }
{
    replies.clear();
    let mut decided = 0;
    for plan in plans {
        match plan {
            Plan::Ready(reply) => replies.push_reserved(*reply),
            Plan::Ask { take, people, .. } => {
                replies.push_reserved(tell(*take, *people, outcomes[decided]));
                decided += 1;
            }
        }
    }
}

// Decides a group: its records are in the journal, and its replies are at hand.
fn decide<K: Keeper, B: Bench, S: Bench>(
    keeper: &mut K,
    bench: &mut B,
    spare: &mut S,
    group: &mut Group,
) -> Result<(), Stop>
    requires usable { (K.store keeper.old).usable ≡ true }
    requires is { IsStore (K.store keeper.old) }
    requires few { length group.old.plans.items ≤ 64 }
    requires served { All (CanBeServed (K.store keeper.old).secret.shape) group.old.plans.items }
    requires questions { group.old.asked.items ≡ questions_of group.old.plans.items }
    requires room { length group.old.plans.items ≤ vec_capacity group.old.replies }
    requires stands { B.told → IsAsLeft (B.file bench.old) (K.store keeper.old) }
    requires spare_stands { K.spared → S.told → StandsAt (S.file spare.old) (K.store keeper.old).secret.shape (K.store keeper.old).history (K.spare_gate keeper.old) }
    ensures decides { OnOk result (DecidesGroup B.Bench bench.old bench.new (table_of (K.store keeper.old)) (K.store keeper.old).history (K.store keeper.new).history group.old.plans.items group.new.replies.items) }
    ensures in_range { OnOk result (All IsInRange group.new.replies.items) }
    ensures stands { OnOk result (StandsOn B.Bench bench.old bench.new (K.store keeper.new)) }
    ensures err { OnErr result (((K.store keeper.new).history ≡ (K.store keeper.old).history) × ((K.store keeper.new).usable ≡ false)) }
    ensures no_memory { IsErrOf result Stop.NoMemory → bench.new ≡ bench.old }
    ensures moments { B.told → IsQuiet B.Bench bench.old
        → LeavesOnly B.Bench bench.old bench.new (InGroup (IsReplyOf (table_of (K.store keeper.old))) (stands_of (K.store keeper.old).secret.shape) (K.store keeper.old).history group.old.plans.items (B.sent bench.old)) }
    ensures sent { B.sent bench.new ≡ B.sent bench.old }
    ensures room { vec_capacity group.new.replies ≡ vec_capacity group.old.replies }
    ensures plans { group.new.plans.items ≡ group.old.plans.items }
    ensures table { ((K.store keeper.new).secret ≡ (K.store keeper.old).secret) × ((K.store keeper.new).protected ≡ (K.store keeper.old).protected) }
    ensures is { IsStore (K.store keeper.new) }
    ensures fault { TellsFault B.Bench bench.old bench.new (IsErrOf result Stop.Bench) }
    ensures ends { IfErr result IsOfBenches }
    ensures spare { SpareAnswersOn S.Bench (K.spared × S.told) (K.store keeper.old) (K.store keeper.new) (K.spare_gate keeper.new) group.old.plans.items result spare.old spare.new }
    ensures both { K.spared → B.told → S.told → IsQuiet B.Bench bench.old → IsQuiet S.Bench spare.old → IsErr result → (image other : List ℕ) → B.leaves bench.new image → S.leaves spare.new other
        → BothInGroup (IsReplyOf (table_of (K.store keeper.old))) (stands_of (K.store keeper.old).secret.shape) (K.store keeper.old).history group.old.plans.items (B.sent bench.old) (B.sent bench.new) image other }
    ensures spare_first { IsErrOf result Stop.Spare → bench.new ≡ bench.old }
    ensures own { IsErrOf result Stop.Spare → K.spared }
    ensures untouched { (K.spared → ⊥) → spare.new ≡ spare.old }
{
    told_outcomes();
    let outcomes = keeper.ask_group(bench, spare, &group.asked)?;
    tell_all(&group.plans, &outcomes, &mut group.replies);
    Ok(())
}

// Sends a reply, in one call.
fn send_reply<B: Bench>(bench: &mut B, reply: &Reply) -> Result<(), Failed>
    requires { IsInRange reply.now }
    ensures all { B.told → OnOk result (B.sent bench.new ≡ B.sent bench.old ++ reply_bytes reply.now) }
    ensures file { B.file bench.new ≡ B.file bench.old }
    ensures crash { (image : List ℕ) → B.leaves bench.new image → B.leaves bench.old image }
    ensures time { Elapses (B.moment bench.old) (B.moment bench.new) (B.since bench.old) (B.since bench.new) (Sending (B.leaves bench.new) (B.sent bench.old) (reply_bytes reply.now)) }
    ensures ticks { B.told → OnOk result (B.moment bench.new ≡ B.moment bench.old + 1) }
    ensures cause { HasCause (B.faults bench.old) (B.faults bench.new) result }
    ensures last_call { OnErr result (B.last_failed bench.new ≡ true) }
{
    let mut out = [0u8; 64];
    let count = write_reply(reply, &mut out);
    bench.send(&out[..count])
}

// Sends the replies of a group, one call for each.
fn send_all<B: Bench>(bench: &mut B, replies: &[Reply]) -> Result<(), Failed>
    requires in_range { All IsInRange replies.now }
    ensures all { B.told → OnOk result (B.sent bench.new ≡ B.sent bench.old ++ flat_map reply_bytes replies.now) }
    ensures file { B.file bench.new ≡ B.file bench.old }
    ensures crash { (image : List ℕ) → B.leaves bench.new image → B.leaves bench.old image }
    ensures moments { B.told → IsQuiet B.Bench bench.old
        → LeavesOnly B.Bench bench.old bench.new (λ image sent. (image ≡ B.file bench.old) × AppendsFront (B.sent bench.old) (flat_map reply_bytes replies.now) sent) }
    ensures ticks { B.told → OnOk result (B.moment bench.new ≡ B.moment bench.old + length replies.now) }
    ensures cause { HasCause (B.faults bench.old) (B.faults bench.new) result }
    ensures last_call { OnErr result (B.last_failed bench.new ≡ true) }
{
    for reply in replies {
        send_reply(bench, reply)?;
    }
    Ok(())
}

/// Answers a group: the records of its answers are on the spare, if the keeper is spared, and in the journal before the first of its
/// replies is sent.
pub(crate) fn answer<K: Keeper, B: Bench, S: Bench>(
    keeper: &mut K,
    bench: &mut B,
    spare: &mut S,
    group: &mut Group,
) -> Result<(), Stop>
    requires usable { (K.store keeper.old).usable ≡ true }
    requires is { IsStore (K.store keeper.old) }
    requires few { length group.old.plans.items ≤ 64 }
    requires served { All (CanBeServed (K.store keeper.old).secret.shape) group.old.plans.items }
    requires questions { group.old.asked.items ≡ questions_of group.old.plans.items }
    requires room { length group.old.plans.items ≤ vec_capacity group.old.replies }
    requires stands { B.told → IsAsLeft (B.file bench.old) (K.store keeper.old) }
    requires spare_stands { K.spared → S.told → StandsAt (S.file spare.old) (K.store keeper.old).secret.shape (K.store keeper.old).history (K.spare_gate keeper.old) }
    ensures answers { OnOk result (AnswersGroup B.Bench bench.old bench.new (table_of (K.store keeper.old)) (K.store keeper.old).history (K.store keeper.new).history group.old.plans.items) }
    ensures stands { OnOk result (StandsOn B.Bench bench.old bench.new (K.store keeper.new)) }
    ensures moments { B.told → IsQuiet B.Bench bench.old
        → LeavesOnly B.Bench bench.old bench.new (InGroup (IsReplyOf (table_of (K.store keeper.old))) (stands_of (K.store keeper.old).secret.shape) (K.store keeper.old).history group.old.plans.items (B.sent bench.old)) }
    ensures left { B.told → (K.store keeper.new).usable ≡ true → IsAsLeft (B.file bench.new) (K.store keeper.new) }
    ensures no_memory { result ≡ Err Stop.NoMemory → (bench.new ≡ bench.old) × ((K.store keeper.new).history ≡ (K.store keeper.old).history) }
    ensures room { vec_capacity group.new.replies ≡ vec_capacity group.old.replies }
    ensures table { ((K.store keeper.new).secret ≡ (K.store keeper.old).secret) × ((K.store keeper.new).protected ≡ (K.store keeper.old).protected) }
    ensures is { IsStore (K.store keeper.new) }
    ensures fault { TellsFault B.Bench bench.old bench.new (result ≡ Err Stop.Bench) }
    ensures spare { SpareAnswersOn S.Bench (K.spared × S.told) (K.store keeper.old) (K.store keeper.new) (K.spare_gate keeper.new) group.old.plans.items result spare.old spare.new }
    ensures both { K.spared → B.told → S.told → IsQuiet B.Bench bench.old → IsQuiet S.Bench spare.old → (image other : List ℕ) → B.leaves bench.new image → S.leaves spare.new other
        → BothInGroup (IsReplyOf (table_of (K.store keeper.old))) (stands_of (K.store keeper.old).secret.shape) (K.store keeper.old).history group.old.plans.items (B.sent bench.old) (B.sent bench.new) image other }
    ensures spare_first { result ≡ Err Stop.Spare → (bench.new ≡ bench.old) × ((K.store keeper.new).history ≡ (K.store keeper.old).history) }
    ensures own { result ≡ Err Stop.Spare → K.spared }
    ensures untouched { (K.spared → ⊥) → spare.new ≡ spare.old }
    ensures ends { IfErr result IsOfBenches }
{
    decide(keeper, bench, spare, group)?;
    send_all(bench, &group.replies)?;
    Ok(())
}
