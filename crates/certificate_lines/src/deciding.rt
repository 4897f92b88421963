//! The line for a plan.
ghost use Rattle.std.specs.Prelude.{OnOk};
ghost use Rattle.audit_types.specs.History.{FitsShape, IsDecisionAfter};
ghost use Rattle.audit_types.specs.declared.records.Verdict.TheVariants.{DeniedUnsafe};
ghost use Rattle.denial_proof.specs.Denied.{IsLegalIn};
ghost use Rattle.certificate_lines.specs.Provers.{AreProversOf};
ghost use Rattle.question_plan.specs.Plans.{CanBeServed};
ghost use Rattle.certificate_lines.specs.Explained.{IsCertificate, IsLineFor, IsLineOf};

use crate::provers::Provers;
use crate::texts::{write_proof, write_words};
use audit_core::Core;
use audit_types::laws::true_answers;
use audit_types::{Asked, NoMemory, Verdict};
use denial_proof::ProveFault;
use line_wire::{Reply, Take};
use question_plan::{Due, Plan, due_of_reply, is_full, verdict_line};
use std::alloc::Global;

// Writes the certificate of a question that is denied as unsafe.
fn write_certificate(
    alloc: Global,
    core: &Core,
    take: Take,
    asked: &Asked,
    provers: &mut Provers,
    line: &mut Vec<u8>,
) -> Result<(), NoMemory>
    requires legal { IsLegalIn core.now.setting core.now.history }
    requires question { FitsShape core.now.setting.shape asked.now.column asked.now.rows }
    requires denied { IsDecisionAfter core.now.setting core.now.history asked.now.column asked.now.rows.list DeniedUnsafe }
    requires provers { AreProversOf core.now.setting core.now.history provers.old }
    ensures line { OnOk result (IsCertificate core.now.setting core.now.history take asked.now line.new.items) }
    ensures provers { AreProversOf core.now.setting core.now.history provers.new }
{
    match provers.prove(alloc, core, asked) {
        Ok(proof) => Ok(write_proof(line, take, &proof)?),
        Err(ProveFault::Wide) => Ok(write_words(
            line,
            b"{\"verdict\":\"unsafe\",\"proof\":\"wide\"}\n",
        )?),
        Err(ProveFault::NoMemory) => Err(NoMemory),
    }
}

// Writes the line for the verdict on a question.
fn write_verdict(
    alloc: Global,
    core: &Core,
    take: Take,
    asked: &Asked,
    verdict: Verdict,
    provers: &mut Provers,
    line: &mut Vec<u8>,
) -> Result<(), NoMemory>
    requires legal { IsLegalIn core.now.setting core.now.history }
    requires question { FitsShape core.now.setting.shape asked.now.column asked.now.rows }
    requires decided { IsDecisionAfter core.now.setting core.now.history asked.now.column asked.now.rows.list verdict }
    requires provers { AreProversOf core.now.setting core.now.history provers.old }
    ensures line { OnOk result (IsLineFor core.now.setting core.now.history take asked.now verdict line.new.items) }
    ensures provers { AreProversOf core.now.setting core.now.history provers.new }
{
    match verdict {
        Verdict::Released => Ok(write_words(line, verdict_line(Due::Released))?),
        Verdict::DeniedUnsafe => write_certificate(alloc, core, take, asked, provers, line),
        Verdict::DeniedWide => Ok(write_words(line, verdict_line(Due::Wide))?),
    }
}

/// Writes the line for a plan after the records of the core, in place of what the buffer held.
pub(crate) fn write_line(
    alloc: Global,
    core: &Core,
    plan: &Plan,
    provers: &mut Provers,
    line: &mut Vec<u8>,
) -> Result<(), NoMemory>
    requires legal { IsLegalIn core.now.setting core.now.history }
    requires served { CanBeServed core.now.setting.shape plan.now }
    requires provers { AreProversOf core.now.setting core.now.history provers.old }
    ensures line { OnOk result (IsLineOf core.now.setting core.now.history plan.now line.new.items) }
    ensures provers { AreProversOf core.now.setting core.now.history provers.new }
{
    true_answers();
    match plan {
        Plan::Ready(reply) => Ok(write_words(line, verdict_line(due_of_reply(reply)))?),
        Plan::Ask { .. } if is_full(core) => {
            Ok(write_words(line, verdict_line(due_of_reply(&Reply::Full)))?)
        }
        Plan::Ask { take, asked, .. } => {
            let verdict = core.decide(asked)?;
            write_verdict(alloc, core, *take, asked, verdict, provers, line)
        }
    }
}
