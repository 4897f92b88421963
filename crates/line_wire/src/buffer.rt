//! The bytes that were taken from a source: those of the line that is being read, and those not yet given.
ghost use Rattle.std.specs.Prelude.{◌≡◌, ◌<◌, ◌≤◌, ◌+◌, ◌-◌, ◌++◌, [], List, ℕ, length, take, drop, IfOk, OnErr, min, slice_range, true};
ghost use Rattle.bench_core.specs.Causes.{HasCause};
ghost use Rattle.bench_core.specs.Source.{Reads};
ghost use Rattle.line_wire.specs.Lines.{without_return, kept};

use crate::edits::{move_bytes, read_to};
use audit_types::NoMemory;
use bench_core::{Failed, Source};
use std::alloc::Global;
use std::marker::Model;

/// The most bytes that a line may have.
pub const LONGEST: usize = 8192;

// One byte more of a line tells that it is too long.
const KEPT: usize = 8193;

const SIZE: usize = 65536;

/// A buffer of fixed size. The line stands from `start` up to `stop`, what isn't given yet from `from` up to `end`.
#[derive(Drop)]
pub struct Buffer {
    bytes: Vec<u8>,
    start: usize,
    stop: usize,
    from: usize,
    end: usize,
}

impl Model for Buffer {
    ghost use Rattle.std.specs.Prelude.{◌≡◌, ◌≤◌, ◌+◌, length, slice_range};
    ghost use Rattle.line_wire.specs.Buffer.{Held};

    ghost Value = { Held };

    ghost view = { λ b. record { line = slice_range b.bytes.items b.start b.stop; pending = slice_range b.bytes.items b.from b.end } };

    ghost invariant = { λ b. (b.start ≤ b.stop) × (b.stop ≤ b.start + 8193) × (b.stop ≤ b.from) × (b.from ≤ b.end) × (b.end ≤ 65536) × (length b.bytes.items ≡ 65536) };
}

impl Buffer {
    pub fn new(alloc: Global) -> Result<Self, NoMemory>
        ensures { IfOk result (λ buffer. (buffer.line ≡ []) × (buffer.pending ≡ [])) }
    {
        match vec![in alloc; 0; SIZE] {
            Ok(bytes) => Ok(Buffer {
                bytes,
                start: 0,
                stop: 0,
                from: 0,
                end: 0,
            }),
            Err(_) => Err(NoMemory),
        }
    }

    pub fn line(&self) -> &[u8]
        ensures bytes { result.now ≡ self.now.line }
        ensures bound { length self.now.line ≤ 8193 }
    {
        &self.bytes[self.start..self.stop]
    }

    pub fn pending(&self) -> &[u8]
        ensures bytes { result.now ≡ self.now.pending }
        ensures bound { length self.now.pending ≤ 65536 }
    {
        &self.bytes[self.from..self.end]
    }

    /// Begins a new line.
    pub fn clear(&mut self)
        ensures line { self.new.line ≡ [] }
        ensures pending { self.new.pending ≡ self.old.pending }
    {
        self.start = self.from;
        self.stop = self.from;
    }

    /// Gives one byte that isn't part of the line.
    pub fn skip(&mut self)
        requires { 0 < length self.old.pending }
        ensures line { self.new.line ≡ self.old.line }
        ensures pending { self.new.pending ≡ drop 1 self.old.pending }
    {
        self.from += 1;
    }

    /// Gives the next bytes to the line, which keeps as many as there is room for. Nothing is copied, unless a byte was
    /// skipped after the line.
    pub fn add(&mut self, count: usize)
        requires { count ≤ length self.old.pending }
        ensures line { self.new.line ≡ kept (self.old.line ++ take count self.old.pending) }
        ensures pending { self.new.pending ≡ drop count self.old.pending }
    {
        let len = self.stop - self.start;
        if len == KEPT {
            self.from += count;
            return;
        }
        let start = self.from - len;
        move_bytes(&mut self.bytes, self.start, self.stop, start);
        self.start = start;
        self.stop = self.from + count.min(KEPT - len);
        self.from += count;
    }

    /// Drops one carriage return at the end of the line.
    pub fn drop_return(&mut self)
        ensures line { self.new.line ≡ without_return self.old.line }
        ensures pending { self.new.pending ≡ self.old.pending }
    {
        if self.start < self.stop && self.bytes[self.stop - 1] == b'\r' {
            self.stop -= 1;
        }
    }

    /// Reads the next bytes, as many as there is room for after the line.
    pub fn fill<P: Source>(&mut self, source: &mut P) -> Result<usize, Failed>
        requires { self.old.pending ≡ [] }
        ensures line { self.new.line ≡ self.old.line }
        ensures count { IfOk result (λ count. (count ≡ length self.new.pending) × (count ≤ 65536)) }
        ensures none { OnErr result (self.new.pending ≡ []) }
        ensures bytes { P.told → Reads (P.left source.old) (P.left source.new) result self.new.pending }
        ensures cause { HasCause (P.faults source.old) (P.faults source.new) result }
        ensures last_call { OnErr result (P.last_failed source.new ≡ true) }
    {
        let len = self.stop - self.start;
        move_bytes(&mut self.bytes, self.start, self.stop, 0);
        self.start = 0;
        self.stop = len;
        self.from = len;
        self.end = len;
        let count = read_to(source, &mut self.bytes, len)?;
        self.end = len + count;
        Ok(count)
    }
}
