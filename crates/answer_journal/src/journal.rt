//! The journal of a table's answers.
ghost use Rattle.std.specs.Prelude.{◌≡◌, ◌<◌, ◌≤◌, ◌+◌, ◌++◌, ℕ, List, true, false, length, All, IfOk, IfErr, OnOk, OnErr, IsErrOf};
ghost use Rattle.audit_types.specs.Limits.{most_records};
ghost use Rattle.audit_types.specs.declared.records.Answered.{Answered};
ghost use Rattle.audit_types.specs.History.{FitsShape};
ghost use Rattle.bench_core.specs.Causes.{HasCause};
ghost use Rattle.bench_core.specs.Calls.{IsQuiet, LeavesOnly, TellsFault};
ghost use Rattle.bench_core.specs.Stops.{IsOfBench};
ghost use Rattle.journal_form.specs.Journal.{StandsAt};
ghost use Rattle.answer_journal.specs.Contents.{IsJournal, ReadyContents};
ghost use Rattle.answer_journal.specs.Append.{AppendsGroup, AppendsGrowth};
ghost use Rattle.answer_journal.specs.Moments.{IsBeforeOrAfter, IsBeforeOrGrown};
ghost use Rattle.audit_types.specs.Widening.{over, widened};
ghost use Rattle.journal_form.specs.Group.{IsMoreRows};

use crate::append::append_bytes;
use crate::ready::Ready;
use audit_types::{Answered, NoMemory, Shape};
use bench_core::{Bench, Failed, Stop};
use journal_form::laws::bytes_of_records;
use journal_form::{GROWTH_SIZE, write_growth};
use std::alloc::Global;
use std::marker::Model;

/// Where the journal of a bench ends, so that the next group may be appended there.
#[derive(Drop)]
pub struct Journal {
    alloc: Global,
    shape: Shape,
    count: u32,
    gate: u64,
    usable: bool,
}

impl Model for Journal {
    ghost use Rattle.answer_journal.specs.Contents.{JournalContents, IsJournal};

    ghost Value = { JournalContents };

    ghost view = { λ j. record { shape = j.shape; count = j.count; gate = j.gate; usable = j.usable } };

    ghost invariant = { λ j. IsJournal (record { shape = j.shape; count = j.count; gate = j.gate; usable = j.usable }) };
}

impl Journal {
    // A journal that ends at this gate.
    pub(crate) fn ending_at(alloc: Global, shape: Shape, count: u32, gate: u64) -> Journal
        requires { IsJournal (record { shape = shape; count = count; gate = gate; usable = true }) }
        ensures { result ≡ record { shape = shape; count = count; gate = gate; usable = true } }
    {
        Journal {
            alloc,
            shape,
            count,
            gate,
            usable: true,
        }
    }

    /// Whether a group may be appended. After a failed append it may not.
    pub fn usable(&self) -> bool
        ensures { result ≡ self.now.usable }
    {
        self.usable
    }

    /// The shape that the journal's header names, with the rows in force at its end.
    pub fn shape(&self) -> Shape
        ensures shape { result ≡ self.now.shape }
        ensures journal { IsJournal self.now }
    {
        self.shape
    }

    /// The number of its records.
    pub fn count(&self) -> u32
        ensures count { result ≡ self.now.count }
        ensures few { self.now.count ≤ most_records }
    {
        self.count
    }

    /// Makes a group ready. No call of the bench is needed, and none to append it takes memory.
    pub fn ready(&self, list: &[Answered]) -> Result<Ready, NoMemory>
        requires some { 0 < length list.now }
        requires few { length list.now ≤ 64 }
        requires fit { All (λ r. FitsShape self.now.shape r.column r.rows) list.now }
        ensures { IfOk result (λ ready. (ready.shape ≡ self.now.shape) × (ready.list ≡ list.now)) }
    {
        Ready::new(self.alloc, self.shape, list)
    }

    /// Appends a group that is ready, in four calls of the bench.
    pub fn append_ready<B: Bench>(&mut self, bench: &mut B, ready: &Ready) -> Result<(), Failed>
        requires usable { self.old.usable ≡ true }
        requires shape { ready.now.shape ≡ self.old.shape }
        requires few { self.old.count + length ready.now.list ≤ most_records }
        requires stands { B.told → (history : List Answered) × StandsAt (B.file bench.old) self.old.shape history self.old.gate × (length history ≡ self.old.count) }

        // A crash at any moment of the call leaves the history before it, or that with the whole group.
        ensures any_moment { (history : List Answered) → B.told → StandsAt (B.file bench.old) self.old.shape history self.old.gate → length history ≡ self.old.count → IsQuiet B.Bench bench.old
            → LeavesOnly B.Bench bench.old bench.new (IsBeforeOrAfter self.old.shape history ready.now.list (B.sent bench.old)) }

        ensures done { (history : List Answered) → B.told → StandsAt (B.file bench.old) self.old.shape history self.old.gate → length history ≡ self.old.count
            → OnOk result (StandsAt (B.file bench.new) self.new.shape (history ++ ready.now.list) self.new.gate) }
        ensures written { B.told → OnOk result (AppendsGroup self.old.shape ready.now.list self.old.gate (B.file bench.old) (B.file bench.new)) }
        ensures quiet { B.told → OnOk result (IsQuiet B.Bench bench.new) }
        ensures sent { B.sent bench.new ≡ B.sent bench.old }
        ensures ticks { B.told → OnOk result (B.moment bench.new ≡ B.moment bench.old + 4) }
        ensures cause { HasCause (B.faults bench.old) (B.faults bench.new) result }
        ensures last_call { OnErr result (B.last_failed bench.new ≡ true) }

        ensures shape { self.new.shape ≡ self.old.shape }
        ensures counted { OnOk result (self.new.count ≡ self.old.count + length ready.now.list) }
        ensures usable { OnOk result (self.new.usable ≡ true) }
        ensures unusable { OnErr result (self.new.usable ≡ false) }
    {
        bytes_of_records();
        self.usable = false;
        let bytes = ready.bytes();
        append_bytes(bench, self.gate, bytes)?;
        self.gate += bytes.len() as u64;
        self.count += ready.len() as u32;
        self.usable = true;
        Ok(())
    }

    /// Appends a growth to more rows, in four calls of the bench. It takes no memory.
    pub fn append_growth<B: Bench>(&mut self, bench: &mut B, rows: u16) -> Result<(), Failed>
        requires usable { self.old.usable ≡ true }
        requires more { IsMoreRows self.old.shape.rows rows }
        requires stands { B.told → (history : List Answered) × StandsAt (B.file bench.old) self.old.shape history self.old.gate × (length history ≡ self.old.count) }

        // A crash at any moment of the call leaves the history over the old rows, or over the new ones.
        ensures any_moment { (history : List Answered) → B.told → StandsAt (B.file bench.old) self.old.shape history self.old.gate → IsQuiet B.Bench bench.old
            → LeavesOnly B.Bench bench.old bench.new (IsBeforeOrGrown self.old.shape history rows (B.sent bench.old)) }

        ensures done { (history : List Answered) → B.told → StandsAt (B.file bench.old) self.old.shape history self.old.gate
            → OnOk result (StandsAt (B.file bench.new) self.new.shape (widened rows history) self.new.gate) }
        ensures written { B.told → OnOk result (AppendsGrowth self.old.shape.rows rows self.old.gate (B.file bench.old) (B.file bench.new)) }
        ensures quiet { B.told → OnOk result (IsQuiet B.Bench bench.new) }
        ensures sent { B.sent bench.new ≡ B.sent bench.old }
        ensures ticks { B.told → OnOk result (B.moment bench.new ≡ B.moment bench.old + 4) }
        ensures cause { HasCause (B.faults bench.old) (B.faults bench.new) result }
        ensures last_call { OnErr result (B.last_failed bench.new ≡ true) }

        ensures shape { OnOk result (self.new.shape ≡ over rows self.old.shape) }
        ensures counted { self.new.count ≡ self.old.count }
        ensures usable { OnOk result (self.new.usable ≡ true) }
        ensures unusable { OnErr result (self.new.usable ≡ false) }
    {
        self.usable = false;
        let mut growth = [0; GROWTH_SIZE];
        write_growth(rows, &mut growth);
        append_bytes(bench, self.gate, &growth)?;
        self.gate += GROWTH_SIZE as u64;
        self.shape.rows = rows;
        self.usable = true;
        Ok(())
    }

    /// Appends a group: makes it ready, and then appends it in four calls of the bench. All memory is taken before the
    /// first of them.
    pub fn append<B: Bench>(&mut self, bench: &mut B, list: &[Answered]) -> Result<(), Stop>
        requires usable { self.old.usable ≡ true }
        requires some { 0 < length list.now }
        requires group { length list.now ≤ 64 }
        requires fit { All (λ r. FitsShape self.old.shape r.column r.rows) list.now }
        requires few { self.old.count + length list.now ≤ most_records }
        requires stands { B.told → (history : List Answered) × StandsAt (B.file bench.old) self.old.shape history self.old.gate × (length history ≡ self.old.count) }

        // A crash at any moment of the call leaves the history before it, or that with the whole group.
        ensures any_moment { (history : List Answered) → B.told → StandsAt (B.file bench.old) self.old.shape history self.old.gate → length history ≡ self.old.count → IsQuiet B.Bench bench.old
            → LeavesOnly B.Bench bench.old bench.new (IsBeforeOrAfter self.old.shape history list.now (B.sent bench.old)) }

        ensures done { (history : List Answered) → B.told → StandsAt (B.file bench.old) self.old.shape history self.old.gate → length history ≡ self.old.count
            → OnOk result (StandsAt (B.file bench.new) self.new.shape (history ++ list.now) self.new.gate) }
        ensures written { B.told → OnOk result (AppendsGroup self.old.shape list.now self.old.gate (B.file bench.old) (B.file bench.new)) }
        ensures quiet { B.told → OnOk result (IsQuiet B.Bench bench.new) }
        ensures sent { B.sent bench.new ≡ B.sent bench.old }
        ensures ticks { B.told → OnOk result (B.moment bench.new ≡ B.moment bench.old + 4) }

        // If memory runs out, nothing was called and nothing changed. It doesn't fail by itself.
        ensures no_memory { IsErrOf result Stop.NoMemory → (bench.new ≡ bench.old) × (self.new ≡ self.old) }
        ensures fault { TellsFault B.Bench bench.old bench.new (IsErrOf result Stop.Bench) }
        ensures ends { IfErr result IsOfBench }

        ensures shape { self.new.shape ≡ self.old.shape }
        ensures counted { OnOk result (self.new.count ≡ self.old.count + length list.now) }
        ensures usable { OnOk result (self.new.usable ≡ true) }
        ensures unusable { IsErrOf result Stop.Bench → self.new.usable ≡ false }
    {
        let ready = self.ready(list)?;
        self.append_ready(bench, &ready)?;
        Ok(())
    }
}
