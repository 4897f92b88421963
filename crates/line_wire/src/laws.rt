//! Laws of lines. Each function computes nothing: its contract is the law.
ghost use Rattle.std.specs.Prelude.{◌≡◌, List, ℕ};
ghost use Rattle.line_wire.specs.ReadLines.{NoLineIsRead, OneLineIsRead, MoreLinesAreRead};
ghost use Rattle.line_wire.specs.Reply.{IsReply};
ghost use Rattle.line_wire.specs.declared.reply.Reply.{Reply};

/// The lines that a cutter takes one after another are the first counted lines of its input, and what is left has the
/// others.
pub fn lines_in_turn()
    ensures none { NoLineIsRead }
    ensures one { OneLineIsRead }
    ensures more { MoreLinesAreRead }
{}

/// A line is at most one reply.
pub fn one_reply()
    ensures { (line : List ℕ) (a b : Reply) → IsReply line a → IsReply line b → a ≡ b }
{}
