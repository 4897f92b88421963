//! Lines to replies.
ghost use Rattle.std.specs.Prelude.{◌==◌, decimal, ◌≡◌, ◌<◌, ◌^◌, ◌↔◌, ℕ, ℤ, [], ◌∷◌, ◌++◌, unsigned_abs, List, Some, option_map, IsTrue, IsSome, IfSome, IfNone, MatchOption, codes};
ghost use Rattle.std.specs.Fmt.{signed_decimal};
ghost use Rattle.std.specs.List.{All, position};
ghost use Rattle.line_wire.specs.Reply.{IsReply};

use crate::range::is_in_range;
use crate::reply::{Reply, write_reply};

// The replies that are one word.
const WORDS: [Reply; 8] = [
    Reply::Unsafe,
    Reply::Wide,
    Reply::Line,
    Reply::Long,
    Reply::Column,
    Reply::Kind,
    Reply::Empty,
    Reply::Full,
];

// Whether what was written is the line and a line feed.
fn is_line(written: &[u8], line: &[u8]) -> bool
    ensures { IsTrue result ↔ (written.now ≡ line.now ++ 10 ∷ []) }
{
    match written.split_last() {
        Some((end, bytes)) => *end == b'\n' && bytes == line,
        None => false,
    }
}

fn is_reply(line: &[u8], reply: &Reply) -> bool
    ensures { IsTrue result ↔ IsReply line.now reply.now }
{
    if !is_in_range(reply) {
        return false;
    }
    let mut out = [0u8; 64];
    let count = write_reply(reply, &mut out);
    is_line(&out[..count], line)
}

fn confirmed(line: &[u8], reply: Reply) -> Option<Reply>
    ensures { MatchOption result (IsReply line.now reply → ⊥) (λ found. IsReply line.now found) }
{
    if is_reply(line, &reply) {
        Some(reply)
    } else {
        None
    }
}

fn between<'a>(line: &'a [u8], front: &[u8], end: &[u8]) -> Option<&'a [u8]>
    ensures { (piece : List ℕ) → line.now ≡ front.now ++ (piece ++ end.now) → option_map (λ p. p.now) result ≡ Some piece }
{
    match line.strip_prefix(front) {
        Some(behind) => behind.strip_suffix(end),
        None => None,
    }
}

fn number_of(piece: &[u8]) -> Option<i64>
    ensures { (number : ℤ) → unsigned_abs number < 2 ^ 63 → piece.now ≡ signed_decimal number → result ≡ Some number }
{
    match str::from_utf8(piece) {
        Ok(text) => text.parse().ok(),
        Err(_) => None,
    }
}

// The number between a front and an end. It may be written in other ways than replies write it.
fn number_between(line: &[u8], front: &[u8], end: &[u8]) -> Option<i64>
    ensures { (number : ℤ) → unsigned_abs number < 2 ^ 63 → line.now ≡ front.now ++ (signed_decimal number ++ end.now) → result ≡ Some number }
{
    match between(line, front, end) {
        Some(piece) => number_of(piece),
        None => None,
    }
}

// The number without a sign between a front and an end. It may be written in other ways than replies write it.
fn size_between(line: &[u8], front: &[u8], end: &[u8]) -> Option<u64>
    ensures { (size : ℕ) → size < 2 ^ 63 → line.now ≡ front.now ++ (decimal size ++ end.now) → result ≡ Some size }
{
    match number_between(line, front, end) {
        Some(number) => u64::try_from(number).ok(),
        None => None,
    }
}

// The place of a byte between a front and an end, as such a number.
fn place_between(line: &[u8], front: &[u8], end: &[u8]) -> Option<u32>
    ensures { (place : ℕ) → place < 2 ^ 32 → line.now ≡ front.now ++ (decimal place ++ end.now) → result ≡ Some place }
{
    match size_between(line, front, end) {
        Some(size) => u32::try_from(size).ok(),
        None => None,
    }
}

fn read_word(line: &[u8], words: &[Reply]) -> Option<Reply>
    ensures found { IfSome result (IsReply line.now) }
    ensures none { IfNone result (All (λ reply. IsReply line.now reply → ⊥) words.now) }
{
    words.iter().find(|reply| is_reply(line, reply)).copied()
}

fn read_count(line: &[u8]) -> Option<Reply>
    ensures found { IfSome result (IsReply line.now) }
    ensures none { IfNone result ((count : ℕ) → IsReply line.now (Reply.Count count) → ⊥) }
{
    let count = size_between(line, b"{\"count\":", b"}")?;
    confirmed(line, Reply::Count(count))
}

fn read_sum(line: &[u8]) -> Option<Reply>
    ensures found { IfSome result (IsReply line.now) }
    ensures none { IfNone result ((sum : ℤ) → IsReply line.now (Reply.Sum sum) → ⊥) }
{
    let sum = number_between(line, b"{\"sum\":", b"}")?;
    confirmed(line, Reply::Sum(sum))
}

fn first_comma(line: &[u8]) -> Option<usize>
    ensures { result ≡ position (λ b. b == 44) line.now }
{
    line.iter().position(|b| *b == b',')
}

fn read_average(line: &[u8]) -> Option<Reply>
    ensures found { IfSome result (IsReply line.now) }
    ensures none { IfNone result ((num : ℤ) (den : ℕ) → IsReply line.now (Reply.Avg num den) → ⊥) }
{
    let comma = first_comma(line)?;
    let num = number_between(&line[..comma], b"{\"num\":", b"")?;
    let den = size_between(&line[comma..], b",\"den\":", b"}")?;
    confirmed(line, Reply::Avg { num, den })
}

fn read_max(line: &[u8]) -> Option<Reply>
    ensures found { IfSome result (IsReply line.now) }
    ensures none { IfNone result ((max : ℤ) → IsReply line.now (Reply.Max max) → ⊥) }
{
    let max = number_between(line, b"{\"max\":", b"}")?;
    confirmed(line, Reply::Max(max))
}

fn read_min(line: &[u8]) -> Option<Reply>
    ensures found { IfSome result (IsReply line.now) }
    ensures none { IfNone result ((min : ℤ) → IsReply line.now (Reply.Min min) → ⊥) }
{
    let min = number_between(line, b"{\"min\":", b"}")?;
    confirmed(line, Reply::Min(min))
}

fn read_condition(line: &[u8]) -> Option<Reply>
    ensures found { IfSome result (IsReply line.now) }
    ensures none { IfNone result ((at : ℕ) → IsReply line.now (Reply.Condition at) → ⊥) }
{
    let at = place_between(line, b"{\"refused\":\"where\",\"at\":", b"}")?;
    confirmed(line, Reply::Condition { at })
}

/// The reply that a line, without its line feed, is: `write_reply` writes that line, and for no other reply.
pub fn read_reply(line: &[u8]) -> Option<Reply>
    // A reply that is read is in range, and written so.
    ensures found { IfSome result (IsReply line.now) }
    // A reply in range that is written so is read, and no other one.
    ensures only { (reply : Reply) → IsReply line.now reply → result ≡ Some reply }
{
    // A form is read only if the ones before it aren't the line's. Those of most lines come first.
    if let Some(reply) = read_sum(line) {
        return Some(reply);
    }
    if let Some(reply) = read_max(line) {
        return Some(reply);
    }
    if let Some(reply) = read_min(line) {
        return Some(reply);
    }
    if let Some(reply) = read_word(line, &WORDS) {
        return Some(reply);
    }
    if let Some(reply) = read_count(line) {
        return Some(reply);
    }
    if let Some(reply) = read_average(line) {
        return Some(reply);
    }
    read_condition(line)
}
