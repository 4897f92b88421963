//! A source in memory that gives its bytes in small pieces and fails at stated calls.
ghost use Rattle.std.specs.Prelude.{◌≡◌, ◌↔◌, ◌<◌, ◌≤◌, ◌+◌, ◌-◌, ◌^◌, List, ℕ, length, false, IfOk, IsErr, OnErr, OnOk, is_err, min, take, drop};
ghost use Rattle.std.specs.List.{Contains};
ghost use Rattle.bench_core.specs.Causes.{HasCause, next_count};
ghost use Rattle.bench_core.specs.Source.{Reads};

use crate::steady_source::copy_front;
use crate::{Failed, Source};
use std::marker::Model;

/// Gives its bytes a few at a time. Its calls are numbered from 0, and those whose number is among the ones to fail do.
#[derive(Drop)]
pub struct MemorySource {
    bytes: Vec<u8>,
    from: usize,
    most: usize,
    failing: Vec<u64>,
    calls: u64,
    faults: u64,
    last_failed: bool,
}

impl Model for MemorySource {
    ghost use Rattle.std.specs.Prelude.{◌<◌, ◌≤◌, length, drop};
    ghost use Rattle.bench_core.specs.SourceContents.{SourceContents};

    ghost Value = { SourceContents };

    ghost view = { λ s. record { left = drop s.from s.bytes.items; most = s.most; failing = s.failing.items; calls = s.calls; faults = s.faults; last_failed = s.last_failed } };

    ghost invariant = { λ s. (s.from ≤ length s.bytes.items) × (0 < s.most) };
}

impl MemorySource {
    /// Makes a source of these bytes that gives at most `most` of them at a read, and fails at the calls in `failing`.
    pub fn new(bytes: Vec<u8>, most: usize, failing: Vec<u64>) -> Self
        requires { 0 < most }
        ensures given { (result.left ≡ bytes.items) × (result.most ≡ most) × (result.failing ≡ failing.items) }
        ensures fresh { (result.calls ≡ 0) × (result.faults ≡ 0) × (result.last_failed ≡ false) }
    {
        MemorySource {
            bytes,
            from: 0,
            most,
            failing,
            calls: 0,
            faults: 0,
            last_failed: false,
        }
    }
}

impl Source for MemorySource {
    ghost told = { Unit {0} };

    ghost left = { λ s. s.left };

    ghost faults = { λ s. s.faults };

    ghost last_failed = { λ s. s.last_failed };

    fn read(&mut self, buf: &mut [u8]) -> Result<usize, Failed>
        requires { 0 < length buf.old }
        ensures bound { IfOk result (λ count. count ≤ length buf.new) }
        ensures bytes { Unit {0} → Reads self.old.left self.new.left result buf.new }
        ensures cause { HasCause self.old.faults self.new.faults result }
        ensures last_call { self.new.last_failed ≡ is_err result }

        // It fails exactly at the calls that it was given, and counts each of these.
        ensures fails { IsErr result ↔ Contains self.old.failing self.old.calls }
        ensures count { IfOk result (λ count. count ≡ min (min (length buf.old) self.old.most) (length self.old.left)) }
        ensures counted { OnErr result (self.new.faults ≡ next_count self.old.faults) }
        ensures uncounted { OnOk result (self.new.faults ≡ self.old.faults) }
        ensures calls { self.new.calls ≡ next_count self.old.calls }
        ensures same { (self.new.most ≡ self.old.most) × (self.new.failing ≡ self.old.failing) }
    {
        let call = self.calls;
        self.calls = call.saturating_add(1);
        self.last_failed = self.failing.contains(&call);
        if self.last_failed {
            self.faults = self.faults.saturating_add(1);
            return Err(Failed);
        }
        let count = copy_front(&self.bytes[self.from..], self.most, buf);
        self.from += count;
        Ok(count)
    }
}
