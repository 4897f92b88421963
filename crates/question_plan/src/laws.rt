//! Laws of the replies that are due. Each function computes nothing: its contract is the law.
ghost use Rattle.question_plan.specs.Laws.{RepliesKeepLegal, OutcomesCanBeTold, SomeReplyTells, OnePlanIsMade, AskedQuestionsFit, OneDecisionIsMade, OneJudgementIsMade, OneAnswerIsTold, OneReplyIsDue, DecidedAlike, EqualAnswersEqualReplies};

/// Answering lines keeps a history legal: each record that a reply makes may follow those before it.
pub fn answered_lines()
    ensures { RepliesKeepLegal }
{
    schema_json::laws::secret_columns();
    audit_core::laws::released_records();
}

/// What becomes of a question that a plan asks can be told, and some reply tells it.
pub fn told_outcomes()
    ensures can { OutcomesCanBeTold }
    ensures some { SomeReplyTells }
{
    table_load::sizes_of_answers();
}

/// A line comes to one plan.
pub fn one_plan()
    ensures { OnePlanIsMade }
{
    predicate_lang::one_meaning();
}

/// A question that a line comes to is one of the table.
pub fn asked_questions()
    ensures { AskedQuestionsFit }
{
    schema_json::laws::secret_columns();
}

/// A question is decided in one way after a history.
pub fn one_decision()
    ensures { OneDecisionIsMade }
{
    sum_basis::laws::sets_have_one_form();
}

/// A question is judged in one way after a history.
pub fn one_judgement()
    ensures { OneJudgementIsMade }
{
    sum_basis::laws::sets_have_one_form();
}

/// A reply tells one answer to a question.
pub fn one_answer()
    ensures { OneAnswerIsTold }
{}

/// One reply is due to a line after a history.
pub fn one_reply()
    ensures { OneReplyIsDue }
{
    predicate_lang::one_meaning();
    sum_basis::laws::sets_have_one_form();
}

/// Over tables that differ in their secrets alone the replies to a line after one history are equal, or both tell the answer
/// to one question: whether it is answered doesn't depend on the secrets. If the answers are equal, so are the replies.
pub fn decided_alike()
    ensures alike { DecidedAlike }
    ensures equal { EqualAnswersEqualReplies }
{
    predicate_lang::one_meaning();
    sum_basis::laws::sets_have_one_form();
}
