//! Laws that show the definitions right. Each function computes nothing: its contract is the law.
ghost use Rattle.audit_types.specs.Laws.{SameSetInAnyOrder, SameTruthInAnyOrder, GreatestIsBoundAndReached};
ghost use Rattle.audit_types.specs.Minima.{LeastByGreatest, LeastIsBoundAndReached, TwinsNegated};
ghost use Rattle.audit_types.specs.Laws.{TrueAnswersKeepAgreement, SomeAnswerStaysPossible, LegalIsPossible};
ghost use Rattle.audit_types.specs.PeopleLaws.{TruthIsOverPeople, PeopleAreCounted, PeopleMayDiffer, UndisclosedHidesPeople, DangerIsThatOfPeople, AnotherMakesUp};
ghost use Rattle.audit_types.specs.Laws.{OneRowIsDangerous, OtherColumnsTellNothing, OwnAnswersDecide, OneCanonicalDirection};

/// The order in which the rows of a set were added changes neither the set nor the truth over it.
pub fn rows_in_any_order()
    ensures set { SameSetInAnyOrder }
    ensures truth { SameTruthInAnyOrder }
{}

/// No number over a set is above its greatest, and one of the set's rows has it.
pub fn greatest()
    ensures { GreatestIsBoundAndReached }
{}

/// The least number over a set is the greatest of the negated ones, negated; no number of the set is below it, and one of its rows
/// has it. Numbers that give the same maxima as the negated ones, and differ from them in a row, give the same minima when they are
/// negated themselves, and differ in that row.
pub fn minima()
    ensures greatest { LeastByGreatest }
    ensures least { LeastIsBoundAndReached }
    ensures twins { TwinsNegated }
{
    greatest();
}

/// A question that is answered truly leaves a possible history, so a legal history is possible.
pub fn true_answers()
    ensures agreement { TrueAnswersKeepAgreement }
    ensures possible { SomeAnswerStaysPossible }
    ensures legal { LegalIsPossible }
{}

/// A sum or a maximum over one person's row is dangerous after every possible history: its answer is the row's number.
pub fn one_row()
    ensures { OneRowIsDangerous }
{}

/// Danger depends on nothing but the column's own answers.
pub fn own_answers()
    ensures others { OtherColumnsTellNothing }
    ensures own { OwnAnswersDecide }
{}

/// A row has at most one canonical direction, whoever computes it.
pub fn canonical_direction()
    ensures { OneCanonicalDirection }
{}

/// An answer over lines is the answer over all people behind them, and so is their number. If nothing that is guarded of the lines is
/// disclosed, no number of any person behind them is. And a question over lines is dangerous exactly if it would be over the people.
pub fn people_behind_lines()
    ensures truth { TruthIsOverPeople }
    ensures counted { PeopleAreCounted }
    ensures differ { PeopleMayDiffer }
    ensures hidden { UndisclosedHidesPeople }
    ensures dangerous { DangerIsThatOfPeople }
{}

/// Within a range another one of several people behind a row makes up for a change of one's number: she has as much less as it is more, and so both
/// may change as far as they lie inside; or she has the greatest number, and so one may have any that isn't above it.
pub fn people_behind_one_row()
    ensures { AnotherMakesUp }
{}
