//! Edits of a buffer of fixed size.
ghost use Rattle.std.specs.Prelude.{◌≡◌, ◌+◌, ◌-◌, ◌<◌, ◌≤◌, ◌++◌, length, take, drop, slice_range, IfOk, true, OnErr};
ghost use Rattle.bench_core.specs.Causes.{HasCause};
ghost use Rattle.bench_core.specs.Source.{Reads};

use bench_core::{Failed, Source};

/// Writes a piece over what stands at `at`.
pub fn put(bytes: &mut [u8], at: usize, piece: &[u8])
    requires { at + length piece.now ≤ length bytes.old }
    ensures front { take (at + length piece.now) bytes.new ≡ take at bytes.old ++ piece.now }
    ensures len { length bytes.new ≡ length bytes.old }
{
    bytes[at..at + piece.len()].copy_from_slice(piece);
}

/// Moves the bytes from `start` up to `stop` to the place `to`, and leaves what stands after that place.
pub fn move_bytes(bytes: &mut [u8], start: usize, stop: usize, to: usize)
    requires range { (start ≤ stop) × (stop ≤ length bytes.old) }
    requires room { to + (stop - start) ≤ length bytes.old }
    ensures moved { slice_range bytes.new to (to + (stop - start)) ≡ slice_range bytes.old start stop }
    ensures behind { drop (to + (stop - start)) bytes.new ≡ drop (to + (stop - start)) bytes.old }
    ensures len { length bytes.new ≡ length bytes.old }
{
    if start != to {
        bytes.copy_within(start..stop, to);
    }
}

/// Reads the next bytes of a source to the place `at`, and leaves what stands before it.
pub fn read_to<P: Source>(source: &mut P, bytes: &mut [u8], at: usize) -> Result<usize, Failed>
    requires { at < length bytes.old }
    ensures before { take at bytes.new ≡ take at bytes.old }
    ensures bound { IfOk result (λ count. at + count ≤ length bytes.new) }
    ensures bytes { P.told → Reads (P.left source.old) (P.left source.new) result (drop at bytes.new) }
    ensures cause { HasCause (P.faults source.old) (P.faults source.new) result }
    ensures last_call { OnErr result (P.last_failed source.new ≡ true) }
    ensures len { length bytes.new ≡ length bytes.old }
{
    source.read(&mut bytes[at..])
}
