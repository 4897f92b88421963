//! The canonical proof of one denial alone.
ghost use Rattle.std.specs.Prelude.{◌≡◌, Err, IfOk};
ghost use Rattle.audit_types.specs.declared.records.Verdict.TheVariants.{DeniedUnsafe};
ghost use Rattle.audit_types.specs.History.{FitsShape, IsDecisionAfter};
ghost use Rattle.denial_proof.specs.Certificates.{IsProof};
ghost use Rattle.denial_proof.specs.Canonical.{IsCanonical, IsTooWide};
ghost use Rattle.denial_proof.specs.Denied.{IsLegalIn};

use crate::proof_parts::{Proof, ProveFault};
use crate::prover::Prover;
use audit_core::Core;
use audit_types::Asked;
use std::alloc::Global;

/// The canonical proof of a question that is denied as unsafe, made from nothing. `check_proof` says yes to it. For many questions after
/// one history start with `Prover::new`.
pub fn prove(alloc: Global, core: &Core, asked: &Asked) -> Result<Proof, ProveFault>
    requires legal { IsLegalIn core.now.setting core.now.history }
    requires question { FitsShape core.now.setting.shape asked.now.column asked.now.rows }
    requires denied { IsDecisionAfter core.now.setting core.now.history asked.now.column asked.now.rows.list DeniedUnsafe }
    ensures canonical { IfOk result (IsCanonical core.now.setting core.now.history asked.now) }
    ensures proof { IfOk result (IsProof core.now.setting core.now.history asked.now) }

    // There is none exactly if it is too wide.
    ensures wide { result ≡ Err ProveFault.Wide → IsTooWide core.now.setting core.now.history asked.now }
    ensures narrow { IfOk result (λ proof. ¬ (IsTooWide core.now.setting core.now.history asked.now)) }
{
    Prover::new(alloc, core, asked.column)?.prove(core, asked)
}
