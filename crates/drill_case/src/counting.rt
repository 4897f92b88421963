//! Counting the lines that were sent.
ghost use Rattle.std.specs.Prelude.{◌≡◌, ◌≤◌, length};
ghost use Rattle.drill_case.specs.Tallies.{lines_in, IsTallyOf};

use crate::kinds::kind_of;
use crate::tallies::{NOTHING, Tally};

/// Counts the lines of the bytes that were sent. A line without a line feed at the end is one; an empty line is none.
pub(crate) fn tally(sent: &[u8]) -> Tally
    requires { length (lines_in sent.now) ≤ 65536 }
    ensures { IsTallyOf (lines_in sent.now) result }
{
    let mut tally = NOTHING;
    for line in sent.split(|byte| *byte == b'\n') {
        if !line.is_empty() {
            tally.count(kind_of(line));
        }
    }
    tally
}
