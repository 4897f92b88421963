//! The cutter of lines.
ghost use Rattle.std.specs.Prelude.{◌≡◌, ◌≢◌, ◌<◌, ◌≤◌, ◌+◌, ◌-◌, ◌++◌, [], List, ℕ, length, take, drop, Err, IfOk, IfErr, OnOk, OnErr, MatchOption, false, true};
ghost use Rattle.bench_core.specs.Causes.{HasCause, Rose};
ghost use Rattle.bench_core.specs.Source.{Reads};
ghost use Rattle.bench_core.specs.declared.stops.Stop.{Stop};
ghost use Rattle.line_wire.specs.Lines.{line_of, counted_lines, whole_lines, most_input};
ghost use Rattle.line_wire.specs.Cutter.{IsFeedless, IsFirstFeed};

use crate::buffer::{Buffer, LONGEST};
use audit_types::NoMemory;
use bench_core::{Failed, Source, Stop};
use memchr::memchr;
use std::alloc::Global;
use std::marker::Model;

// The most bytes of an input that are given.
const MOST_INPUT: u64 = 1 << 30;

/// What a call of the cutter gives.
#[derive(Clone, Copy)]
pub enum Next {
    /// A line, which `text` shows.
    Line,
    /// A line of more than 8,192 bytes.
    Long,
    /// The input has ended.
    End,
}

/// Cuts the bytes of one source into counted lines (docs/FORMATS.md). Hand in the same source at every call.
#[derive(Drop)]
pub struct Lines {
    buffer: Buffer,
    taken: u64,
    ended: bool,
}

impl Model for Lines {
    ghost use Rattle.std.specs.Prelude.{◌≤◌, ◌+◌, length};
    ghost use Rattle.line_wire.specs.Lines.{most_input};
    ghost use Rattle.line_wire.specs.Cutter.{Cutter};

    ghost Value = { Cutter };

    ghost view = { λ l. record { taken = l.taken; pending = l.buffer.pending; ended = l.ended; text = l.buffer.line } };

    ghost invariant = { λ l. (length l.buffer.pending ≤ l.taken) × (l.taken ≤ most_input + length l.buffer.pending) × (length l.buffer.pending ≤ 65536) };
}

// How far the bytes at hand were given: up to a line feed, all of them, or all below the limit.
#[derive(Drop)]
enum Step {
    Fed,
    Dry,
    Over,
}

impl Lines {
    ghost use Rattle.line_wire.specs.Cutter.{IsWithin};
    ghost use Rattle.line_wire.specs.Steps.{Passes, Gives, GivesLast, Answers, Stops, StopsWithin, ShowsText, Advances, Counts};

    /// Makes a cutter that has taken nothing. All its memory is taken here.
    pub fn new(alloc: Global) -> Result<Self, NoMemory>
        ensures { IfOk result (λ lines. (lines.taken ≡ 0) × (lines.pending ≡ []) × (lines.ended ≡ false) × (lines.text ≡ [])) }
    {
        Ok(Lines {
            buffer: Buffer::new(alloc)?,
            taken: 0,
            ended: false,
        })
    }

    /// The line that was given last, without its carriage return, if `Line` was the last answer. Otherwise it is
    /// empty.
    pub fn text(&self) -> &[u8]
        ensures { result.now ≡ self.now.text }
    {
        self.buffer.line()
    }

    /// Gives the first counted line of the rest: of the bytes taken and not yet given, and those left in the source.
    pub fn next<P: Source>(&mut self, source: &mut P) -> Result<Next, Stop>
        // It is the same source at every call.
        requires same { P.told → self.old.ended ≡ true → P.left source.old ≡ [] }

        ensures answer { P.told → IfOk result (λ next. Answers next (self.old.pending ++ P.left source.old) self.new (P.left source.new)) }
        ensures counted { P.told → IfOk result (λ next. Counts next (counted_lines (self.old.pending ++ P.left source.old)) self.new.text (counted_lines (self.new.pending ++ P.left source.new))) }
        ensures stop { P.told → IfErr result (λ stop. Stops stop (self.old.pending ++ P.left source.old) self.new (P.left source.new)) }
        ensures stop_within { IfErr result (λ stop. StopsWithin stop self.new) }
        ensures text { ShowsText result self.new.text }
        ensures same { P.told → self.new.ended ≡ true → P.left source.new ≡ [] }
        ensures taken { P.told → self.new.taken + length (P.left source.new) ≡ self.old.taken + length (P.left source.old) }

        // A line takes at least one byte, and no more bytes are given than the limit.
        ensures advances { IfOk result (Advances self.old self.new) }
        ensures within { self.new.taken ≤ most_input + length self.new.pending }

        // It doesn't give up by itself, and passes over no failed read.
        ensures later { P.faults source.old ≤ P.faults source.new }
        ensures steady { result ≢ Err Stop.Input → P.faults source.new ≡ P.faults source.old }
        ensures input { result ≡ Err Stop.Input → Rose (P.faults source.old) (P.faults source.new) }
        ensures last_call { result ≡ Err Stop.Input → P.last_failed source.new ≡ true }

        // Nothing is read while a whole line is at hand.
        ensures at_hand { whole_lines self.old.pending ≢ [] → source.new ≡ source.old }

        // Once a read gave 0, no call reads again.
        ensures once { self.old.ended ≡ true → (source.new ≡ source.old) × (self.new.ended ≡ true) × (result ≡ Err Stop.Input → ⊥) }
    {
        self.clear();
        loop {
            match self.absorb() {
                Step::Over => return self.stop_at_limit(),
                Step::Fed => match self.finish() {
                    Some(next) => return Ok(next),
                    None => {}
                },
                Step::Dry if self.ended => return Ok(self.last()),
                Step::Dry => match self.refill(source) {
                    Ok(()) => {}
                    Err(Failed) => return Err(Stop::Input),
                },
            }
        }
    }

    // Begins a new line.
    fn clear(&mut self)
        ensures text { self.new.text ≡ [] }
        ensures within { IsWithin self.new }
        ensures same { (self.new.taken ≡ self.old.taken) × (self.new.ended ≡ self.old.ended) × (self.new.pending ≡ self.old.pending) }
    {
        self.buffer.clear();
    }

    // Refuses what is past the limit. No line is begun.
    fn stop_at_limit(&mut self) -> Result<Next, Stop>
        ensures refuses { result ≡ Err Stop.Limit }
        ensures text { self.new.text ≡ [] }
        ensures same { (self.new.taken ≡ self.old.taken) × (self.new.ended ≡ self.old.ended) × (self.new.pending ≡ self.old.pending) }
    {
        self.clear();
        Err(Stop::Limit)
    }

    // Gives the bytes at hand up to the first line feed, or all of them if there is none.
    fn absorb(&mut self) -> Step
        ensures passes { Passes result self.old self.new }
        ensures within { IsWithin self.old × IsWithin self.new }
        ensures same { (self.new.taken ≡ self.old.taken) × (self.new.ended ≡ self.old.ended) }
    {
        let pending = self.buffer.pending();
        let given = self.taken - pending.len() as u64;
        let room = (MOST_INPUT - given) as usize;
        let count = pending.len().min(room);
        let over = count < pending.len();
        if let Some(at) = feed_at(&pending[..count]) {
            self.buffer.add(at);
            self.buffer.skip();
            return Step::Fed;
        }
        self.buffer.add(count);
        if over {
            return Step::Over;
        }
        Step::Dry
    }

    // What the line that was read counts as.
    fn finish(&mut self) -> Option<Next>
        ensures counts { MatchOption result ((line_of self.old.text ≡ []) × (self.new.text ≡ [])) (λ next. Gives next self.new.text (line_of self.old.text)) }
        ensures same { (self.new.taken ≡ self.old.taken) × (self.new.ended ≡ self.old.ended) × (self.new.pending ≡ self.old.pending) }
    {
        if self.buffer.line().len() > LONGEST {
            self.buffer.clear();
            return Some(Next::Long);
        }
        self.buffer.drop_return();
        if self.buffer.line().is_empty() {
            None
        } else {
            Some(Next::Line)
        }
    }

    // What the line that was read counts as at the end of the input.
    fn last(&mut self) -> Next
        ensures gives { GivesLast result self.new.text (line_of self.old.text) }
        ensures same { (self.new.taken ≡ self.old.taken) × (self.new.ended ≡ self.old.ended) × (self.new.pending ≡ self.old.pending) }
    {
        match self.finish() {
            Some(next) => next,
            None => Next::End,
        }
    }

    // Reads the next bytes. After a failed read no line is begun.
    fn refill<P: Source>(&mut self, source: &mut P) -> Result<(), Failed>
        requires dry { self.old.pending ≡ [] }
        requires within { self.old.taken ≤ most_input }
        ensures bytes { P.told → OnOk result (P.left source.old ≡ self.new.pending ++ P.left source.new) }
        ensures ended { P.told → OnOk result (self.new.ended ≡ true → P.left source.old ≡ []) }
        ensures failed { P.told → OnErr result (P.left source.new ≡ P.left source.old) }
        ensures kept { OnErr result ((self.new.taken ≡ self.old.taken) × (self.new.ended ≡ self.old.ended) × (self.new.pending ≡ []) × (self.new.text ≡ [])) }
        ensures cause { HasCause (P.faults source.old) (P.faults source.new) result }
        ensures last_call { OnErr result (P.last_failed source.new ≡ true) }
        ensures within { IsWithin self.new }
        ensures taken { OnOk result (self.new.taken ≡ self.old.taken + length self.new.pending) }
        ensures grows { OnOk result (self.new.ended ≡ false → self.old.taken < self.new.taken) }
        ensures text { OnOk result (self.new.text ≡ self.old.text) }
    {
        let count = match self.buffer.fill(source) {
            Ok(count) => count,
            Err(failed) => {
                self.clear();
                return Err(failed);
            }
        };
        self.taken += count as u64;
        self.ended = count == 0;
        Ok(())
    }
}

// The place of the first line feed.
fn feed_at(bytes: &[u8]) -> Option<usize>
    ensures { MatchOption result (IsFeedless bytes.now) (IsFirstFeed bytes.now) }
{
    memchr(b'\n', bytes)
}
