//! A source in memory that never fails.
ghost use Rattle.std.specs.Prelude.{◌≡◌, ◌<◌, ◌≤◌, ◌+◌, ◌-◌, List, ℕ, length, false, IfOk, IsOk, OnOk, is_err, min, take, drop};
ghost use Rattle.bench_core.specs.Causes.{HasCause};
ghost use Rattle.bench_core.specs.Source.{Reads};

use crate::{Failed, Source};
use std::marker::Model;

/// Gives at each read as many of its bytes as the buffer takes, or all that are left if these are fewer.
#[derive(Drop)]
pub struct SteadySource {
    bytes: Vec<u8>,
    from: usize,
}

impl Model for SteadySource {
    ghost Value = { List ℕ };

    ghost view = { λ s. drop s.from s.bytes.items };

    ghost invariant = { λ s. s.from ≤ length s.bytes.items };
}

impl SteadySource {
    /// Makes a source of these bytes.
    pub fn new(bytes: Vec<u8>) -> Self
        ensures { result ≡ bytes.items }
    {
        SteadySource { bytes, from: 0 }
    }
}

// Copies the front of `bytes` into the front of `buf`, at most `most` of them and as many as there is room for.
pub(crate) fn copy_front(bytes: &[u8], most: usize, buf: &mut [u8]) -> usize
    ensures count { result ≡ min (min (length buf.old) most) (length bytes.now) }
    ensures copied { take result buf.new ≡ take result bytes.now }
{
    let count = buf.len().min(most).min(bytes.len());
    buf[..count].copy_from_slice(&bytes[..count]);
    count
}

impl Source for SteadySource {
    ghost told = { Unit {0} };

    ghost left = { λ s. s };

    ghost faults = { λ _. 0 };

    ghost last_failed = { λ _. false };

    fn read(&mut self, buf: &mut [u8]) -> Result<usize, Failed>
        requires { 0 < length buf.old }
        ensures bound { IfOk result (λ count. count ≤ length buf.new) }
        ensures bytes { Unit {0} → Reads self.old self.new result buf.new }
        ensures cause { HasCause 0 0 result }
        ensures last_call { false ≡ is_err result }

        ensures steady { IsOk result }
        ensures all { IfOk result (λ count. count ≡ min (length buf.old) (length self.old)) }
    {
        let count = copy_front(&self.bytes[self.from..], usize::MAX, buf);
        self.from += count;
        Ok(count)
    }
}
