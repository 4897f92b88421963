//! Laws of answered maxima. Each function computes nothing: its contract is the law.
ghost use Rattle.max_audit.specs.Knowing.{FewOrOpen, FewOrAny};
ghost use Rattle.max_audit.specs.Laws.{PossibleByExtremes, FixedByLoneRows, HighestAgrees, LoneOrLowered, LoneOrFree, DangerousByFewPeople, DangerousByCandidates, DangerousByExtremes};

/// Answered maxima are possible exactly if each has an extreme row: one whose upper bound is the answer.
pub fn possible_by_extreme_rows()
    ensures { PossibleByExtremes }
{}

/// A number is the same in every list that agrees exactly if its row is the only extreme row of some answer.
pub fn fixed_by_lone_rows()
    ensures { FixedByLoneRows }
{}

/// Two lists show that a row which isn't lone is free: each row at its bound, and the same with this row less by one.
pub fn others_are_free()
    ensures highest { HighestAgrees }
    ensures lowered { LoneOrLowered }
    ensures free { LoneOrFree }
{}

/// Few people stand behind the extreme rows of some answer, or all that is guarded is open to each asker: other lists give the same answers, have
/// her number, and differ. What few people have may be anything up to a high end, and to each answer over a set with one of their rows.
pub fn open_to_askers()
    ensures guarded { FewOrOpen }
    ensures range { FewOrAny }
{}

/// A maximum is dangerous exactly if some answer to it is possible and leaves few people behind the extreme rows of some answer.
pub fn dangerous_by_few_people()
    ensures { DangerousByFewPeople }
{}

/// A maximum is dangerous exactly if a candidate, an earlier answer, the number above one or the number below all, is possible and leaves few
/// people behind the extreme rows of some answer. So finitely many answers stand for all whole numbers.
pub fn dangerous_by_candidates()
    ensures { DangerousByCandidates }
{}

/// A maximum is dangerous exactly if each answer has an extreme row, and few people stand behind the extreme rows of some answer, or behind the highest
/// rows of the set, or behind those that the set leaves of some answer, where each answer that loses all of its own is lower. No candidate is
/// tried, and the list of answers may be one that no table gives.
pub fn dangerous_by_extremes()
    ensures { DangerousByExtremes }
{}
