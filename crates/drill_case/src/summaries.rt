//! The one line of a drill.
ghost use Rattle.std.specs.Prelude.{◌≡◌, ◌≤◌, ◌+◌, ◌++◌, decimal, length, take};
ghost use Rattle.drill_case.specs.Tallies.{summary_line};

use crate::tallies::Tally;
use itoa::Buffer;

// Writes a piece at `at`, and answers the place after it.
fn append(out: &mut [u8; 160], at: usize, piece: &[u8]) -> usize
    requires { at + length piece.now ≤ 160 }
    ensures at { result ≡ at + length piece.now }
    ensures bytes { take result out.new ≡ take at out.old ++ piece.now }
{
    out[at..at + piece.len()].copy_from_slice(piece);
    at + piece.len()
}

// Writes what names a number, and the number after it.
fn append_number(out: &mut [u8; 160], at: usize, name: &[u8], number: u32) -> usize
    requires { at + length name.now + 10 ≤ 160 }
    ensures at { result ≤ at + length name.now + 10 }
    ensures bytes { take result out.new ≡ take at out.old ++ name.now ++ decimal number }
{
    let mut buffer = Buffer::new();
    let at = append(out, at, name);
    append(out, at, buffer.format(number).as_bytes())
}

/// Writes the summary of a drill over so many rows into the front of `out`, its line feed included, and answers how many
/// bytes it has.
pub(crate) fn summary(rows: u16, tally: &Tally, out: &mut [u8; 160]) -> usize
    ensures count { result ≤ 160 }
    ensures bytes { take result out.new ≡ summary_line rows tally.now }
{
    let at = append_number(out, 0, b"{\"rows\":", u32::from(rows));
    let at = append_number(out, at, b",\"asked\":", tally.asked);
    let at = append_number(out, at, b",\"released\":", tally.released);
    let at = append_number(out, at, b",\"unsafe\":", tally.denied_unsafe);
    let at = append_number(out, at, b",\"wide\":", tally.denied_wide);
    let at = append_number(out, at, b",\"refused\":", tally.refused);
    append(out, at, b"}\n")
}
