//! The provers that are kept from line to line.
ghost use Rattle.std.specs.Prelude.{◌≡◌, ◌<◌, List, Err, IfOk, IfSome};
ghost use Rattle.audit_types.specs.declared.records.Answered.{Answered};
ghost use Rattle.audit_types.specs.History.{Setting, FitsShape, IsDecisionAfter};
ghost use Rattle.audit_types.specs.Shapes.{columns};
ghost use Rattle.audit_types.specs.declared.records.Verdict.TheVariants.{DeniedUnsafe};
ghost use Rattle.denial_proof.specs.Canonical.{IsCanonical, IsTooWide};
ghost use Rattle.denial_proof.specs.Denied.{IsLegalIn};
ghost use Rattle.denial_proof.specs.Provers.{IsProverOf};
ghost use Rattle.certificate_lines.specs.Provers.{AreProversOf};

use audit_core::{ColumnRef, Core};
use audit_types::{Asked, NoMemory};
use denial_proof::{Proof, ProveFault, Prover};
use std::alloc::Global;

/// The prover of the column of sums, and that of the column of maxima, for which one was needed last. One of sums may take 32 MiB,
/// so no two of these are kept; one of maxima is small.
#[derive(Drop)]
pub(crate) struct Provers {
    sums: Option<Prover>,
    maxima: Option<Prover>,
}

// The prover of a column: the one that was kept, or a new one. That of another column is dropped first.
fn prover_of(
    alloc: Global,
    core: &Core,
    column: u8,
    kept: Option<Prover>,
) -> Result<Prover, NoMemory>
    requires legal { IsLegalIn core.now.setting core.now.history }
    requires column { column < columns core.now.setting.shape }
    requires kept { IfSome kept (IsProverOf core.now.setting core.now.history) }
    ensures prover { IfOk result (IsProverOf core.now.setting core.now.history) }
    ensures column { IfOk result (λ prover. prover.column ≡ column) }
{
    if let Some(prover) = kept {
        if prover.column() == column {
            return Ok(prover);
        }
    }
    Prover::new(alloc, core, column)
}

// The proof of a question that is denied as unsafe, by the prover of its column, which is kept.
fn prove_by(
    alloc: Global,
    core: &Core,
    asked: &Asked,
    kept: &mut Option<Prover>,
) -> Result<Proof, ProveFault>
    requires legal { IsLegalIn core.now.setting core.now.history }
    requires question { FitsShape core.now.setting.shape asked.now.column asked.now.rows }
    requires denied { IsDecisionAfter core.now.setting core.now.history asked.now.column asked.now.rows.list DeniedUnsafe }
    requires kept { IfSome kept.old (IsProverOf core.now.setting core.now.history) }
    ensures canonical { IfOk result (IsCanonical core.now.setting core.now.history asked.now) }
    ensures wide { result ≡ Err ProveFault.Wide → IsTooWide core.now.setting core.now.history asked.now }
    ensures narrow { IfOk result (λ proof. ¬ (IsTooWide core.now.setting core.now.history asked.now)) }
    ensures kept { IfSome kept.new (IsProverOf core.now.setting core.now.history) }
{
    let prover = prover_of(alloc, core, asked.column, kept.take())?;
    let proved = prover.prove(core, asked);
    *kept = Some(prover);
    proved
}

impl Provers {
    /// None is kept.
    pub(crate) fn new() -> Provers
        ensures { (setting : Setting) (history : List Answered) → AreProversOf setting history result }
    {
        Provers {
            sums: None,
            maxima: None,
        }
    }

    /// The canonical proof of a question that is denied as unsafe, by the prover of its column, which is kept.
    pub(crate) fn prove(
        &mut self,
        alloc: Global,
        core: &Core,
        asked: &Asked,
    ) -> Result<Proof, ProveFault>
        requires legal { IsLegalIn core.now.setting core.now.history }
        requires question { FitsShape core.now.setting.shape asked.now.column asked.now.rows }
        requires denied { IsDecisionAfter core.now.setting core.now.history asked.now.column asked.now.rows.list DeniedUnsafe }
        requires kept { AreProversOf core.now.setting core.now.history self.old }
        ensures canonical { IfOk result (IsCanonical core.now.setting core.now.history asked.now) }
        ensures wide { result ≡ Err ProveFault.Wide → IsTooWide core.now.setting core.now.history asked.now }
        ensures narrow { IfOk result (λ proof. ¬ (IsTooWide core.now.setting core.now.history asked.now)) }
        ensures kept { AreProversOf core.now.setting core.now.history self.new }
    {
        match core.column(asked.column) {
            ColumnRef::Sum(_) => prove_by(alloc, core, asked, &mut self.sums),
            ColumnRef::Max(_) => prove_by(alloc, core, asked, &mut self.maxima),
        }
    }
}
