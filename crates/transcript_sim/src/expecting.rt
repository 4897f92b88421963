//! What a question calls for, by the answers that were shown before it.
ghost use Rattle.std.specs.Prelude.{◌≡◌, IfOk};
ghost use Rattle.audit_types.specs.History.{FitsShape};
ghost use Rattle.question_plan.specs.Plans.{CanBeServed};
ghost use Rattle.transcript_sim.specs.Steps.{CanBeTaken};
ghost use Rattle.transcript_sim.specs.Verdicts.{CalledBy, CallsFor, due_of, line_of};

use audit_core::Core;
use audit_types::{Asked, NoMemory, Verdict};
use implied_records::follows;
use line_wire::{Reply, Take};
use question_plan::{Due, Plan, due_of_reply, is_full, verdict_line};

/// What the reply to a question has to be.
#[derive(Clone, Copy)]
pub(crate) enum Expected {
    /// This reply and no other. It makes no record.
    Only(Reply),
    /// An answer, told as what is taken of the column, over so many people, and whether it follows from the answers before it.
    Answer {
        take: Take,
        people: u64,
        asked: Asked,
        follows: bool,
    },
}

impl Expected {
    /// The verdict on the question.
    pub(crate) fn due(&self) -> Due
        ensures { result ≡ due_of self.now }
    {
        match self {
            Expected::Only(reply) => due_of_reply(reply),
            Expected::Answer { .. } => Due::Released,
        }
    }

    /// The line that is sent for the question: its verdict, and that an answer isn't new.
    pub(crate) fn line(&self) -> &'static [u8]
        ensures { result.now ≡ line_of self.now }
    {
        match self {
            Expected::Only(reply) => verdict_line(due_of_reply(reply)),
            Expected::Answer { follows: false, .. } => verdict_line(Due::Released),
            Expected::Answer { follows: true, .. } => b"{\"verdict\":\"released\",\"new\":false}\n",
        }
    }
}

// What the verdict on a question calls for: an answer, or the reply that refuses one.
fn called_by(core: &Core, take: Take, people: u64, asked: Asked, verdict: Verdict) -> Expected
    requires { FitsShape core.now.setting.shape asked.column asked.rows }
    ensures { CalledBy core.now.setting core.now.history take people asked verdict result }
{
    match verdict {
        Verdict::Released => Expected::Answer {
            take,
            people,
            asked,
            follows: follows(core, &asked),
        },
        Verdict::DeniedUnsafe => Expected::Only(Reply::Unsafe),
        Verdict::DeniedWide => Expected::Only(Reply::Wide),
    }
}

/// What the question of a plan calls for after the records of the core. The core keeps what it found for the answer to come; no
/// secret is read.
pub(crate) fn expected_of(core: &mut Core, plan: Plan) -> Result<Expected, NoMemory>
    requires { CanBeServed core.old.setting.shape plan }
    ensures calls { IfOk result (CallsFor core.old.setting core.old.history plan) }
    ensures can { IfOk result (CanBeTaken core.old.setting core.old.history) }
    ensures same { core.new ≡ core.old }
{
    match plan {
        Plan::Ready(reply) => Ok(Expected::Only(reply)),
        Plan::Ask { .. } if is_full(core) => Ok(Expected::Only(Reply::Full)),
        Plan::Ask {
            take,
            people,
            asked,
        } => {
            let verdict = core.weigh(&asked)?;
            Ok(called_by(core, take, people, asked, verdict))
        }
    }
}
