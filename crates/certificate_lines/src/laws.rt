//! Laws of what is sent for the lines of an input. Each function computes nothing: its contract is the law.
ghost use Rattle.certificate_lines.specs.Laws.{FirstLinesAreDue, LinesAreOne, OneLineIsDue};

/// One line is due to a counted line after a legal history, and it depends on no secret. So the text of an input is one, and a
/// front of it is that of its first lines.
pub fn one_text()
    ensures due { OneLineIsDue }
    ensures one { LinesAreOne }
    ensures first { FirstLinesAreDue }
{
    denial_proof::laws::one_proof();
    question_plan::laws::one_plan();
    question_plan::laws::asked_questions();
    question_plan::laws::one_decision();
}
