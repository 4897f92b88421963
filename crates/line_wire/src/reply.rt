//! Replies and their bytes.
ghost use Rattle.std.specs.Prelude.{◌≡◌, ◌≤◌, ◌<◌, ◌+◌, ◌++◌, length, take, codes};
ghost use Rattle.line_wire.specs.Reply.{reply_bytes, numbered, average, denied, refused, IsInRange};

use crate::edits::put;
use itoa::{Buffer, Integer};

/// What is sent for one counted line.
#[derive(Clone, Copy, PartialEq, Eq)]
pub enum Reply {
    /// So many people stand behind the rows that satisfy the condition.
    Count(u64),
    /// The sum of a column over the rows that satisfy the condition.
    Sum(i64),
    /// This sum divided by the people behind these rows, in lowest terms.
    Avg { num: i64, den: u64 },
    /// The maximum of a column over these rows.
    Max(i64),
    /// The minimum of a column over these rows.
    Min(i64),
    /// The answer would give a secret away.
    Unsafe,
    /// The answer would need numbers that are too wide to decide over.
    Wide,
    /// The line isn't a question.
    Line,
    /// The line is too long to be read.
    Long,
    /// The question's column isn't one of the schema's.
    Column,
    /// The question's column is not of the kind that the question takes.
    Kind,
    /// The condition goes wrong at this byte of its text.
    Condition { at: u32 },
    /// No row satisfies the condition.
    Empty,
    /// The history has no room for one more record.
    Full,
}

// Writes a piece after what stands before `at`, and answers the place after it.
fn append(out: &mut [u8; 64], at: usize, piece: &[u8]) -> usize
    requires { at + length piece.now ≤ 64 }
    ensures at { result ≡ at + length piece.now }
    ensures bytes { take result out.new ≡ take at out.old ++ piece.now }
{
    put(out, at, piece);
    at + piece.len()
}

fn write_number<I: Integer>(out: &mut [u8; 64], front: &[u8], number: I) -> usize
    requires { length front.now + I.MAX_STR_LEN ≤ 61 }
    ensures count { result < 64 }
    ensures bytes { take result out.new ≡ numbered front.now (I.text number) }
{
    let mut buffer = Buffer::new();
    let at = append(out, 0, front);
    let at = append(out, at, buffer.format(number).as_bytes());
    append(out, at, b"}\n")
}

fn write_average(out: &mut [u8; 64], num: i64, den: u64) -> usize
    ensures count { result < 64 }
    ensures bytes { take result out.new ≡ average num den }
{
    let mut buffer = Buffer::new();
    let at = append(out, 0, b"{\"num\":");
    let at = append(out, at, buffer.format(num).as_bytes());
    let at = append(out, at, b",\"den\":");
    let at = append(out, at, buffer.format(den).as_bytes());
    append(out, at, b"}\n")
}

fn write_denial(out: &mut [u8; 64], why: &[u8]) -> usize
    requires { length why.now ≤ 40 }
    ensures count { result < 64 }
    ensures bytes { take result out.new ≡ denied why.now }
{
    let at = append(out, 0, b"{\"denied\":\"");
    let at = append(out, at, why);
    append(out, at, b"\"}\n")
}

fn write_refusal(out: &mut [u8; 64], why: &[u8]) -> usize
    requires { length why.now ≤ 40 }
    ensures count { result < 64 }
    ensures bytes { take result out.new ≡ refused why.now }
{
    let at = append(out, 0, b"{\"refused\":\"");
    let at = append(out, at, why);
    append(out, at, b"\"}\n")
}

/// Writes the bytes of a reply (docs/FORMATS.md), its line feed included, into the front of `out`, and answers how many
/// they are.
pub fn write_reply(reply: &Reply, out: &mut [u8; 64]) -> usize
    requires { IsInRange reply.now }
    ensures count { result < 64 }
    ensures bytes { take result out.new ≡ reply_bytes reply.now }
{
    match reply {
        Reply::Count(count) => write_number(out, b"{\"count\":", *count),
        Reply::Sum(sum) => write_number(out, b"{\"sum\":", *sum),
        Reply::Avg { num, den } => write_average(out, *num, *den),
        Reply::Max(max) => write_number(out, b"{\"max\":", *max),
        Reply::Min(min) => write_number(out, b"{\"min\":", *min),
        Reply::Unsafe => write_denial(out, b"unsafe"),
        Reply::Wide => write_denial(out, b"wide"),
        Reply::Line => write_refusal(out, b"line"),
        Reply::Long => write_refusal(out, b"long"),
        Reply::Column => write_refusal(out, b"column"),
        Reply::Kind => write_refusal(out, b"kind"),
        Reply::Condition { at } => write_number(out, b"{\"refused\":\"where\",\"at\":", *at),
        Reply::Empty => write_refusal(out, b"empty"),
        Reply::Full => write_refusal(out, b"full"),
    }
}
