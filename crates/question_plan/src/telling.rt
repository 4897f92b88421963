//! Telling what became of a question.
ghost use Rattle.std.specs.Prelude.{◌<◌, ◌≤◌};
ghost use Rattle.audit_types.specs.Limits.{most_answer};
ghost use Rattle.line_wire.specs.Reply.{IsInRange};
ghost use Rattle.question_plan.specs.Plans.{CanBeTold};
ghost use Rattle.question_plan.specs.Replies.{TellsOutcome};

use crate::averages::average;
use audit_core::Outcome;
use audit_types::Verdict;
use line_wire::{Reply, Take};

/// The reply that tells the outcome of a question over so many people.
pub fn tell(take: Take, people: u64, outcome: Outcome) -> Reply
    requires somebody { 0 < people }
    requires at_most { people ≤ most_answer }
    requires told { CanBeTold take outcome }
    ensures tells { TellsOutcome take people outcome result }
    ensures in_range { IsInRange result }
{
    match outcome {
        Outcome::Answer(answer) => match take {
            Take::Sum => Reply::Sum(answer),
            Take::Avg => average(answer, people),
            Take::Max => Reply::Max(answer),
            // The numbers are kept negated.
            Take::Min => Reply::Min(-answer),
        },
        Outcome::Denied(Verdict::DeniedUnsafe) => Reply::Unsafe,
        Outcome::Denied(Verdict::DeniedWide) => Reply::Wide,
        Outcome::Denied(Verdict::Released) => unreachable!(),
        Outcome::Full => Reply::Full,
    }
}
