//! The verdict that a line is due, and the line that is sent for it.
ghost use Rattle.std.specs.Prelude.{◌≡◌};
ghost use Rattle.question_plan.specs.Dues.{verdict_bytes, word_of, due_of_reply};

use line_wire::Reply;
use std::fmt;

/// The verdict on a line: whether it is answered, and if not, why.
#[derive(Clone, Copy, PartialEq, Eq, Drop)]
pub enum Due {
    /// A count, which the public columns answer.
    Counted,
    /// It isn't a question, or not one that can be decided.
    Refused,
    /// A question of a secret column that is answered.
    Released,
    /// Its answer would give a secret away.
    Unsafe,
    /// It needs numbers that are too wide to decide over.
    Wide,
}

// The word for a verdict.
fn word_of(due: &Due) -> &'static str
    ensures { result.now ≡ word_of due.now }
{
    match due {
        Due::Counted => "count",
        Due::Refused => "refused",
        Due::Released => "released",
        Due::Unsafe => "unsafe",
        Due::Wide => "wide",
    }
}

impl fmt::Display for Due {
    ghost use Rattle.std.specs.Prelude.{Some};

    ghost output = { λ due. Some (word_of due) };

    fn fmt<W: fmt::Write>(&self, f: &mut fmt::Formatter<W>) -> fmt::Result {
        f.write_str(word_of(self))
    }
}

/// The line that is sent for a verdict, its line feed included.
pub fn verdict_line(due: Due) -> &'static [u8]
    ensures { result.now ≡ verdict_bytes due }
{
    match due {
        Due::Counted => b"{\"verdict\":\"count\"}\n",
        Due::Refused => b"{\"verdict\":\"refused\"}\n",
        Due::Released => b"{\"verdict\":\"released\"}\n",
        Due::Unsafe => b"{\"verdict\":\"unsafe\"}\n",
        Due::Wide => b"{\"verdict\":\"wide\"}\n",
    }
}

/// The verdict that a reply gives if it isn't an answer.
pub fn due_of_reply(reply: &Reply) -> Due
    ensures { result ≡ due_of_reply reply.now }
{
    match reply {
        Reply::Count(_) => Due::Counted,
        Reply::Unsafe => Due::Unsafe,
        Reply::Wide => Due::Wide,
        _ => Due::Refused,
    }
}
