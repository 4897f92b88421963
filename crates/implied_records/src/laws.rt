//! The laws of kept records. Each function computes nothing: its contract is the law.
ghost use Rattle.implied_records.specs.Follows.{FollowsIfTold};
ghost use Rattle.implied_records.specs.Laws.{ImpliedBySpan, ImpliedByExtremes, OneIsKept, SameListsAgree, SameForms, SameDecisions, KeptIsLegal};

/// A sum is implied by those before it exactly when the row of its set lies in their span.
pub fn implied_sums()
    ensures { ImpliedBySpan }
{
    sum_audit::laws::dangerous_sums();
}

/// A maximum is implied by those before it exactly when their bounds and extreme rows force it.
pub fn implied_maxima()
    ensures { ImpliedByExtremes }
{
    audit_types::laws::greatest();
    max_bounds::laws::upper_bounds();
    max_audit::laws::possible_by_extreme_rows();
}

/// If some numbers give the answers, an answer follows from them exactly if all numbers that give them give it: what `follows` tells is what
/// `kept` leaves out.
pub fn following()
    ensures { FollowsIfTold }
{
    audit_types::laws::greatest();
    max_bounds::laws::upper_bounds();
    max_audit::laws::possible_by_extreme_rows();
    implied_sums();
    implied_maxima();
}

/// Of a history one list of records is kept, and the same lists agree with it.
pub fn kept_records()
    ensures one { OneIsKept }
    ensures lists { SameListsAgree }
{}

/// The records that are kept of a legal history have the same reduced forms and are legal, and every question is decided alike
/// after them, with the same protected groups.
pub fn kept_of_legal()
    ensures forms { SameForms }
    ensures decisions { SameDecisions }
    ensures legal { KeptIsLegal }
{
    audit_types::laws::true_answers();
    sum_basis::laws::forms_are_unique();
    sum_basis::laws::every_row_space_has_a_form();
    sum_basis::laws::span_keeps_form();
    sum_basis::laws::one_more_set();
    implied_sums();
    audit_core::laws::released_records();
}
