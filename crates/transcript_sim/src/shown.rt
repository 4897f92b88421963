//! What a reply comes to that was shown.
ghost use Rattle.std.specs.Prelude.{◌≡◌, ◌<◌, ◌≤◌, ◌*ℤ◌, ℤ, pos, unsigned_abs, int_div, int_rem, MatchOption};
ghost use Rattle.audit_types.specs.Limits.{most_answer};
ghost use Rattle.line_wire.specs.Lines.{text};
ghost use Rattle.line_wire.specs.Reply.{IsInRange};
ghost use Rattle.question_plan.specs.Replies.{Tells};
ghost use Rattle.transcript_sim.specs.Steps.{ComesTo};

use crate::expecting::Expected;
use audit_types::{Answered, MOST_NUMBER, MOST_ROWS};
use line_wire::{Reply, Take, read_reply};

// The greatest size of an answer.
const MOST_ANSWER: u128 = MOST_ROWS as u128 * MOST_NUMBER as u128;

/// What a reply comes to that was shown.
#[derive(Clone, Copy)]
pub(crate) enum Shown {
    /// It agrees, and makes this record, if it makes one.
    Agrees(Option<Answered>),
    Disagrees,
}

fn product(num: i64, people: u64) -> i128
    ensures { result ≡ num *ℤ pos people }
{
    i128::from(num) * i128::from(people)
}

fn quotient(sum: i128, den: u64) -> i128
    requires { 0 < den }
    ensures { result ≡ int_div sum (pos den) }
{
    sum / i128::from(den)
}

fn remainder(sum: i128, den: u64) -> i128
    requires { 0 < den }
    ensures { result ≡ int_rem sum (pos den) }
{
    sum % i128::from(den)
}

// The number, if it may be an answer.
fn as_answer(number: i128) -> Option<i64>
    ensures { MatchOption result (most_answer < unsigned_abs number) (λ answer. (answer ≡ number) × (unsigned_abs number ≤ most_answer)) }
{
    if number.unsigned_abs() > MOST_ANSWER {
        return None;
    }
    Some(number as i64)
}

// The sum over so many people of which this is the average, if it is a whole number that may be an answer.
fn sum_of_average(num: i64, den: u64, people: u64) -> Option<i64>
    requires some { 0 < den }
    ensures { MatchOption result ((sum : ℤ) → 0 < people → num *ℤ pos people ≡ sum *ℤ pos den → ¬ (unsigned_abs sum ≤ most_answer)) (λ sum. (0 < people) × (num *ℤ pos people ≡ sum *ℤ pos den) × (unsigned_abs sum ≤ most_answer)) }
{
    if people == 0 {
        return None;
    }
    let shares = product(num, people);
    if remainder(shares, den) != 0 {
        return None;
    }
    as_answer(quotient(shares, den))
}

// The answer over so many people that a reply tells, if it is in range.
fn answer_told(take: Take, people: u64, reply: Reply) -> Option<i64>
    requires in_range { IsInRange reply }
    ensures { MatchOption result ((answer : ℤ) → unsigned_abs answer ≤ most_answer → ¬ (Tells take people answer reply)) (λ answer. Tells take people answer reply × (unsigned_abs answer ≤ most_answer)) }
{
    match (take, reply) {
        (Take::Sum, Reply::Sum(sum)) => Some(sum),
        (Take::Avg, Reply::Avg { num, den }) => sum_of_average(num, den, people),
        (Take::Max, Reply::Max(max)) => Some(max),
        // The numbers are kept negated.
        (Take::Min, Reply::Min(min)) => Some(-min),
        _ => None,
    }
}

impl Expected {
    /// What a line comes to that was shown to a question which calls for this.
    pub(crate) fn shown(&self, line: &[u8]) -> Shown
        ensures { ComesTo (text line.now) self.now result }
    {
        let Some(told) = read_reply(line) else {
            return Shown::Disagrees;
        };
        match self {
            Expected::Only(reply) if told == *reply => Shown::Agrees(None),
            Expected::Only(_) => Shown::Disagrees,
            Expected::Answer {
                take,
                people,
                asked,
                ..
            } => match answer_told(*take, *people, told) {
                Some(answer) => Shown::Agrees(Some(Answered {
                    column: asked.column,
                    rows: asked.rows,
                    answer,
                })),
                None => Shown::Disagrees,
            },
        }
    }
}
