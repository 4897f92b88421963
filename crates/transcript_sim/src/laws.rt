//! Laws of verdicts. Each function computes nothing: its contract is the law.
ghost use Rattle.transcript_sim.specs.Laws.{OneReplyIsCalledFor, OneVerdictIsDue, VerdictsAreOne, FirstLinesHaveVerdicts};

/// A question calls for one reply after the answers that were shown before it, and an exchange has one verdict. So a
/// transcript in which every reply agrees has one list of verdicts, and so have its first lines.
pub fn one_verdict()
    ensures called { OneReplyIsCalledFor }
    ensures due { OneVerdictIsDue }
    ensures one { VerdictsAreOne }
    ensures first { FirstLinesHaveVerdicts }
{
    line_wire::laws::one_reply();
    question_plan::laws::one_plan();
    question_plan::laws::one_judgement();
    question_plan::laws::one_answer();
}
