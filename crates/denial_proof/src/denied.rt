//! What a legal history and a denial as unsafe say. Each function computes nothing: its contract is the law.
ghost use Rattle.denial_proof.specs.Denied.{LegalSumsAreNarrow, DeniedSumsAreUnsafe, DeniedMaximaAreUnsafe};

/// The sets of a column of sums stay narrow in a legal history.
pub(crate) fn legal_sums()
    ensures { LegalSumsAreNarrow }
{
    audit_core::laws::narrow_fronts();
}

/// The sets of a denied sum give something away, and what its canonical proof is made from holds of them.
pub(crate) fn denied_sums()
    ensures { DeniedSumsAreUnsafe }
{
    audit_types::laws::true_answers();
    audit_core::laws::free_numbers();
    sum_audit::laws::dangerous_sums();
    sum_audit::laws::pinned_rows();
}

/// Some candidate for a denied maximum is possible and leaves a lone row that isn't shared, where none was lone before.
pub(crate) fn denied_maxima()
    ensures { DeniedMaximaAreUnsafe }
{
    audit_core::laws::free_numbers();
    max_audit::laws::dangerous_by_candidates();
}
