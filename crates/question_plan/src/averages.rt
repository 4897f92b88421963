//! Averages in lowest terms.
ghost use Rattle.std.specs.Prelude.{◌≡◌, ◌<◌, ◌≤◌, pos, unsigned_abs, int_div};
ghost use Rattle.std.specs.Int.{IsGcd};
ghost use Rattle.audit_types.specs.Limits.{most_answer};
ghost use Rattle.line_wire.specs.Reply.{IsInRange};
ghost use Rattle.line_wire.specs.declared.question.Take.TheVariants.{Avg};
ghost use Rattle.question_plan.specs.Replies.{Tells};

use int_rows::gcd;
use line_wire::Reply;

fn divisor_of(sum: i64, people: u64) -> u64
    requires somebody { 0 < people }
    requires small { unsigned_abs sum ≤ most_answer }
    requires at_most { people ≤ most_answer }
    ensures divisor { IsGcd (unsigned_abs sum) people result }
    ensures positive { 0 < result }
    ensures at_most { result ≤ people }
{
    gcd(i128::from(sum), i128::from(people)) as u64
}

fn quotient(sum: i64, divisor: u64) -> i64
    requires positive { 0 < divisor }
    requires at_most { divisor ≤ most_answer }
    ensures { result ≡ int_div sum (pos divisor) }
{
    sum / divisor as i64
}

/// The average of a sum over so many people.
pub(crate) fn average(sum: i64, people: u64) -> Reply
    requires somebody { 0 < people }
    requires at_most { people ≤ most_answer }
    requires small { unsigned_abs sum ≤ most_answer }
    ensures tells { Tells Avg people sum result }
    ensures in_range { IsInRange result }
{
    let divisor = divisor_of(sum, people);
    Reply::Avg {
        num: quotient(sum, divisor),
        den: people / divisor,
    }
}
