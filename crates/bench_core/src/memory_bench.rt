//! A bench in memory that fails at stated calls, and if its room is full.
ghost use Rattle.std.specs.Prelude.{◌≡◌, ◌≢◌, ◌↔◌, ◌⊎◌, ◌<◌, ◌≤◌, ◌+◌, ◌-◌, ◌/◌, ◌^◌, ◌++◌, ◌∷◌, [], List, ℕ, length, IfOk, IsErr, OnErr, OnOk, IsTrue, is_err, min, take, drop, None, Some, false};
ghost use Rattle.bench_core.specs.Causes.{HasCause, next_count};
ghost use Rattle.bench_core.specs.Bench.{AppendsFront, Holds, Torn, Follows, Unsent, Sending, Elapses, Stays};
ghost use Rattle.bench_core.specs.Machine.{wrote, unwritten, synced, sending, other, written};
ghost use Rattle.bench_core.specs.BenchContents.{state_of, file_of, sent_of, torn_byte, IsTornFile, may_leave, found_since, call_fails, send_fails, write_fails, is_stopped, passed, failed, failed_write, failed_send};

use crate::disk::Disk;
use crate::log::Log;
use crate::steady_source::copy_front;
use crate::{Bench, Failed, Room};
use audit_types::NoMemory;
use std::alloc::Global;
use std::marker::Model;

/// Keeps the file, what is sent, and the record of its calls, from which a crash at any moment follows. Calls are
/// numbered from 0; one fails if its number is among those to fail, if it has reached the stop, or if it would
/// pass the room.
#[derive(Drop)]
pub struct MemoryBench {
    alloc: Global,
    first: Vec<u8>,
    disk: Disk,
    log: Log,
    failing: Vec<u64>,
    stop: Option<u64>,
    room: Room,
    calls: u64,
    faults: u64,
    last_failed: bool,
}

impl Model for MemoryBench {
    ghost use Rattle.bench_core.specs.BenchContents.{BenchContents};
    ghost use Rattle.bench_core.specs.BenchTies.{IsTied};

    ghost Value = { BenchContents };

    ghost view = { λ b. record { first = b.first.items; past = b.log.calls; written = b.log.written; calls = b.calls; faults = b.faults; last_failed = b.last_failed; failing = b.failing.items; stop = b.stop; room = b.room } };

    ghost invariant = { IsTied };
}

fn is_stopped(stop: Option<u64>, call: u64) -> bool
    ensures { result ≡ is_stopped stop call }
{
    match stop {
        Some(stop) => stop <= call,
        None => false,
    }
}

impl MemoryBench {
    /// Makes a bench with this file, of which nothing was sent and no call was made. The calls in `failing` fail, and
    /// so does each from number `stop` on. All its memory is taken here.
    pub fn new(
        alloc: Global,
        file: &[u8],
        room: Room,
        failing: Vec<u64>,
        stop: Option<u64>,
    ) -> Result<Self, NoMemory>
        requires { length file.now ≤ room.file }
        ensures file { IfOk result (λ bench. (bench.first ≡ file.now) × (bench.past ≡ [])) }
        ensures fresh { IfOk result (λ bench. (bench.written ≡ 0) × (bench.calls ≡ 0) × (bench.faults ≡ 0) × (bench.last_failed ≡ false)) }
        ensures given { IfOk result (λ bench. (bench.failing ≡ failing.items) × (bench.stop ≡ stop) × (bench.room ≡ room)) }
    {
        let Some(slots) = room.calls.checked_add(room.sent) else {
            return Err(NoMemory);
        };
        let Ok(first) = file.to_vec(alloc) else {
            return Err(NoMemory);
        };
        let disk = Disk::new(alloc, file, room.file as usize)?;
        let log = Log::new(
            alloc,
            slots as usize,
            room.written as usize,
            room.sent as usize,
        )?;
        Ok(MemoryBench {
            alloc,
            first,
            disk,
            log,
            failing,
            stop,
            room,
            calls: 0,
            faults: 0,
            last_failed: false,
        })
    }

    /// The file as it reads.
    pub fn file(&self) -> &[u8]
        ensures file { result.now ≡ file_of self.now }
        ensures room { length result.now ≤ self.now.room.file }
    {
        self.disk.file()
    }

    /// The bytes that were sent.
    pub fn sent(&self) -> &[u8]
        ensures { result.now ≡ sent_of self.now }
    {
        self.log.sent()
    }

    /// How many calls were made, failed ones among them.
    pub fn calls(&self) -> u64
        ensures { result ≡ self.now.calls }
    {
        self.calls
    }

    // Whether the next call fails, whatever it is.
    fn next_fails(&self) -> bool
        ensures fails { result ≡ call_fails self.now }
        ensures room { result ≡ false → self.now.calls < self.now.room.calls }
    {
        self.failing.contains(&self.calls)
            || is_stopped(self.stop, self.calls)
            || self.room.calls <= self.calls
    }

    // A call fails and changes nothing.
    fn fail(&mut self)
        ensures changed { self.new ≡ failed self.old }
        ensures faults { self.old.faults < 2 ^ 64 }
    {
        self.calls = self.calls.saturating_add(1);
        self.faults = self.faults.saturating_add(1);
        self.last_failed = true;
    }

    // A call that changes nothing.
    fn pass(&mut self)
        requires { self.old.calls < self.old.room.calls }
        ensures { self.new ≡ passed self.old other }
    {
        self.log.pass();
        self.calls += 1;
        self.last_failed = false;
    }

    fn pass_sync(&mut self)
        requires { self.old.calls < self.old.room.calls }
        ensures { self.new ≡ passed self.old synced }
    {
        self.log.sync();
        self.disk.sync();
        self.calls += 1;
        self.last_failed = false;
    }

    fn pass_write(&mut self, at: usize, piece: &[u8])
        requires calls { self.old.calls < self.old.room.calls }
        requires inside { at ≤ length (file_of self.old) }
        requires file { at + length piece.now ≤ self.old.room.file }
        requires room { self.old.written + length piece.now ≤ self.old.room.written }
        ensures { self.new ≡ record (passed self.old (wrote at piece.now)) { written = self.old.written + length piece.now } }
    {
        self.log.write(at, piece);
        self.disk.write(at, piece);
        self.calls += 1;
        self.last_failed = false;
    }

    fn fail_write(&mut self, at: usize, count: usize)
        requires { at ≤ length (file_of self.old) }
        ensures changed { self.new ≡ failed_write self.old at count }
        ensures faults { self.old.faults < 2 ^ 64 }
    {
        if self.calls >= self.room.calls {
            self.fail();
            return;
        }
        self.log.touch(at, count);
        self.disk.touch(at, count);
        self.calls += 1;
        self.faults = self.faults.saturating_add(1);
        self.last_failed = true;
    }

    fn pass_send(&mut self, piece: &[u8])
        requires calls { self.old.calls < self.old.room.calls }
        requires room { length (sent_of self.old) + length piece.now ≤ self.old.room.sent }
        ensures { self.new ≡ passed self.old (sending piece.now) }
    {
        self.log.send(piece);
        self.calls += 1;
        self.last_failed = false;
    }

    fn fail_send(&mut self, front: &[u8])
        requires room { length (sent_of self.old) + length front.now ≤ self.old.room.sent }
        ensures changed { self.new ≡ failed_send self.old front.now }
        ensures faults { self.old.faults < 2 ^ 64 }
    {
        if front.is_empty() {
            self.fail();
            return;
        }
        self.log.send(front);
        self.calls = self.calls.saturating_add(1);
        self.faults = self.faults.saturating_add(1);
        self.last_failed = true;
    }
}

impl MemoryBench {
    // Whether the next call fails, if it is a send of so many bytes.
    fn send_fails(&self, count: usize) -> bool
        ensures fails { result ≡ send_fails self.now count }
        ensures room { result ≡ false → length (sent_of self.now) + count ≤ self.now.room.sent }
        ensures calls { result ≡ false → self.now.calls < self.now.room.calls }
    {
        self.next_fails() || self.room_to_send() < count
    }

    // How many bytes more may be sent.
    fn room_to_send(&self) -> usize
        ensures { result + length (sent_of self.now) ≡ self.now.room.sent }
    {
        self.room.sent as usize - self.log.sent().len()
    }

    // Whether the next call fails, if it is a write of so many bytes there.
    fn write_fails(&self, at: usize, count: usize) -> bool
        requires { at ≤ length (file_of self.now) }
        ensures fails { result ≡ write_fails self.now at count }
        ensures file { result ≡ false → at + count ≤ self.now.room.file }
        ensures room { result ≡ false → self.now.written + count ≤ self.now.room.written }
        ensures calls { result ≡ false → self.now.calls < self.now.room.calls }
    {
        self.next_fails()
            || (self.room.file as usize - at) < count
            || (self.room.written as usize) < count
            || (self.room.written as usize - count) < self.log.written()
    }
}

impl MemoryBench {
    /// A fresh bench with the same room and no failing calls, whose file is one that a crash now may leave: the stable
    /// bytes for pick 1, the file with 0x37 for each byte that isn't stable for pick 2, else the file as it reads.
    pub fn crashed(&self, pick: u8) -> Result<MemoryBench, NoMemory>
        ensures image { IfOk result (λ bench. may_leave self.now bench.first) }
        ensures stable { pick ≡ 1 → IfOk result (λ bench. bench.first ≡ (state_of self.now).stable) }
        ensures torn { pick ≡ 2 → IfOk result (λ bench. IsTornFile (state_of self.now) bench.first) }
        ensures read { pick ≢ 1 → pick ≢ 2 → IfOk result (λ bench. bench.first ≡ file_of self.now) }
        ensures fresh { IfOk result (λ bench. (bench.past ≡ []) × (bench.written ≡ 0) × (bench.calls ≡ 0) × (bench.faults ≡ 0) × (bench.last_failed ≡ false)) }
        ensures given { IfOk result (λ bench. (bench.failing ≡ []) × (bench.stop ≡ None) × (bench.room ≡ self.now.room)) }
    {
        let file = self.file();
        match pick {
            1 => self.with_file(self.stable()),
            2 => {
                let torn = self.torn()?;
                self.with_file(&torn)
            }
            _ => self.with_file(file),
        }
    }

    // A fresh bench with this file and the same room.
    fn with_file(&self, file: &[u8]) -> Result<MemoryBench, NoMemory>
        requires { length file.now ≤ self.now.room.file }
        ensures file { IfOk result (λ bench. (bench.first ≡ file.now) × (bench.past ≡ [])) }
        ensures fresh { IfOk result (λ bench. (bench.written ≡ 0) × (bench.calls ≡ 0) × (bench.faults ≡ 0) × (bench.last_failed ≡ false)) }
        ensures given { IfOk result (λ bench. (bench.failing ≡ []) × (bench.stop ≡ None) × (bench.room ≡ self.now.room)) }
    {
        MemoryBench::new(self.alloc, file, self.room, Vec::new(self.alloc), None)
    }

    // The bytes of the last good sync.
    fn stable(&self) -> &[u8]
        ensures { result.now ≡ (state_of self.now).stable }
    {
        self.disk.stable()
    }

    // Whether a write touched a place of the file since then.
    fn is_dirty(&self, place: usize) -> bool
        requires { place < length (file_of self.now) }
        ensures { result ≡ (state_of self.now).dirty place }
    {
        self.disk.is_dirty(place)
    }

    // The stable byte at a place of the file, or 0x37 if it isn't stable.
    fn torn_byte(&self, place: usize) -> u8
        requires { place < length (file_of self.now) }
        ensures { result ≡ torn_byte (state_of self.now) place }
    {
        let stable = self.stable();
        if place < stable.len() && !self.is_dirty(place) {
            stable[place]
        } else {
            0x37
        }
    }

    // The file with 0x37 for each byte that isn't stable.
    fn torn(&self) -> Result<Vec<u8>, NoMemory>
        ensures { IfOk result (λ bytes. IsTornFile (state_of self.now) bytes.items) }
    {
        let file = self.file();
        let Ok(mut bytes) = Vec::with_capacity(self.alloc, file.len()) else {
            return Err(NoMemory);
        };
        for place in 0..file.len() {
            let Ok(()) = bytes.push(self.torn_byte(place)) else {
                return Err(NoMemory);
            };
        }
        Ok(bytes)
    }
}

impl Bench for MemoryBench {
    ghost told = { Unit {0} };

    ghost file = { file_of };

    ghost sent = { sent_of };

    ghost leaves = { may_leave };

    ghost moment = { λ b. length b.past };

    ghost since = { found_since };

    ghost faults = { λ b. b.faults };

    ghost last_failed = { λ b. b.last_failed };

    fn length(&mut self) -> Result<u64, Failed>
        ensures length { Unit {0} → IfOk result (λ count. count ≡ length (file_of self.old)) }
        ensures stays { Stays file_of sent_of may_leave (λ b. length b.past) found_since self.old self.new }
        ensures ticks { Unit {0} → OnOk result (length self.new.past ≡ length self.old.past + 1) }
        ensures one_tick { length self.new.past ≤ length self.old.past + 1 }
        ensures cause { HasCause self.old.faults self.new.faults result }
        ensures last_call { self.new.last_failed ≡ is_err result }

        // It fails exactly at the calls that it was given, and if no call is left.
        ensures fails { IsErr result ↔ IsTrue (call_fails self.old) }
        ensures done { OnOk result (self.new ≡ passed self.old other) }
        ensures failed { OnErr result (self.new ≡ failed self.old) }
    {
        if self.next_fails() {
            self.fail();
            return Err(Failed);
        }
        self.pass();
        Ok(self.file().len() as u64)
    }

    fn read_at(&mut self, at: u64, buf: &mut [u8]) -> Result<usize, Failed>
        ensures bound { IfOk result (λ count. count ≤ length buf.new) }
        ensures count { Unit {0} → IfOk result (λ count. count ≡ min (length buf.new) (length (file_of self.old) - at)) }
        ensures bytes { Unit {0} → IfOk result (λ count. take count buf.new ≡ take count (drop at (file_of self.old))) }
        ensures stays { Stays file_of sent_of may_leave (λ b. length b.past) found_since self.old self.new }
        ensures ticks { Unit {0} → OnOk result (length self.new.past ≡ length self.old.past + 1) }
        ensures one_tick { length self.new.past ≤ length self.old.past + 1 }
        ensures cause { HasCause self.old.faults self.new.faults result }
        ensures last_call { self.new.last_failed ≡ is_err result }

        // It fails exactly at the calls that it was given, and if no call is left.
        ensures fails { IsErr result ↔ IsTrue (call_fails self.old) }
        ensures done { OnOk result (self.new ≡ passed self.old other) }
        ensures failed { OnErr result (self.new ≡ failed self.old) }
    {
        if self.next_fails() {
            self.fail();
            return Err(Failed);
        }
        self.pass();
        Ok(copy_from(self.file(), at as usize, buf))
    }

    fn write_at(&mut self, at: u64, piece: &[u8]) -> Result<(), Failed>
        requires { Unit {0} → at ≤ length (file_of self.old) }
        ensures written { Unit {0} → OnOk result (Holds (file_of self.old) at piece.now (file_of self.new)) }
        ensures partly { Unit {0} → OnErr result (Torn at (length piece.now) (file_of self.old) (file_of self.new)) }
        ensures sent { sent_of self.new ≡ sent_of self.old }
        ensures crash { Follows (Torn at (length piece.now)) (may_leave self.old) (may_leave self.new) }
        ensures time { Elapses (length self.old.past) (length self.new.past) (found_since self.old) (found_since self.new) (Unsent (may_leave self.new) (sent_of self.old)) }
        ensures ticks { Unit {0} → OnOk result (length self.new.past ≡ length self.old.past + 1) }
        ensures one_tick { length self.new.past ≤ length self.old.past + 1 }
        ensures cause { HasCause self.old.faults self.new.faults result }
        ensures last_call { self.new.last_failed ≡ is_err result }

        // It fails exactly at the calls that it was given, and if its room is full. Then it touches its range alone.
        ensures fails { IsErr result ↔ IsTrue (write_fails self.old at (length piece.now)) }
        ensures done { OnOk result (self.new ≡ record (passed self.old (wrote at piece.now)) { written = self.old.written + length piece.now }) }
        ensures failed { OnErr result (self.new ≡ failed_write self.old at (length piece.now)) }
    {
        if self.write_fails(at as usize, piece.len()) {
            self.fail_write(at as usize, piece.len());
            return Err(Failed);
        }
        self.pass_write(at as usize, piece);
        Ok(())
    }

    fn sync(&mut self) -> Result<(), Failed>
        ensures stable { Unit {0} → OnOk result ((image : List ℕ) → may_leave self.new image → image ≡ file_of self.old) }
        ensures stays { Stays file_of sent_of may_leave (λ b. length b.past) found_since self.old self.new }
        ensures ticks { Unit {0} → OnOk result (length self.new.past ≡ length self.old.past + 1) }
        ensures one_tick { length self.new.past ≤ length self.old.past + 1 }
        ensures cause { HasCause self.old.faults self.new.faults result }
        ensures last_call { self.new.last_failed ≡ is_err result }

        // It fails exactly at the calls that it was given, and if no call is left.
        ensures fails { IsErr result ↔ IsTrue (call_fails self.old) }
        ensures done { OnOk result (self.new ≡ passed self.old synced) }
        ensures failed { OnErr result (self.new ≡ failed self.old) }
    {
        if self.next_fails() {
            self.fail();
            return Err(Failed);
        }
        self.pass_sync();
        Ok(())
    }

    fn send(&mut self, piece: &[u8]) -> Result<(), Failed>
        ensures all { Unit {0} → OnOk result (sent_of self.new ≡ sent_of self.old ++ piece.now) }
        ensures part { Unit {0} → OnErr result (AppendsFront (sent_of self.old) piece.now (sent_of self.new)) }
        ensures file { file_of self.new ≡ file_of self.old }
        ensures crash { (image : List ℕ) → may_leave self.new image → may_leave self.old image }
        ensures time { Elapses (length self.old.past) (length self.new.past) (found_since self.old) (found_since self.new) (Sending (may_leave self.new) (sent_of self.old) piece.now) }
        ensures ticks { Unit {0} → OnOk result (length self.new.past ≡ length self.old.past + 1) }
        ensures one_tick { length self.new.past ≤ length self.old.past + 1 }
        ensures later { length self.old.past ≤ length self.new.past }
        ensures cause { HasCause self.old.faults self.new.faults result }
        ensures last_call { self.new.last_failed ≡ is_err result }

        // It fails exactly at the calls that it was given, and if its room is full. Then it sends half of the piece.
        ensures fails { IsErr result ↔ IsTrue (send_fails self.old (length piece.now)) }
        ensures done { OnOk result (self.new ≡ passed self.old (sending piece.now)) }
        ensures half { OnErr result (self.new ≡ failed_send self.old (take (min (length piece.now / 2) (self.old.room.sent - length (sent_of self.old))) piece.now)) }
    {
        if self.send_fails(piece.len()) {
            let count = (piece.len() / 2).min(self.room_to_send());
            self.fail_send(&piece[..count]);
            return Err(Failed);
        }
        self.pass_send(piece);
        Ok(())
    }

    ghost use Rattle.bench_core.specs.BenchLaws.{reads_itself, now_counts, now_only};

    ghost reads = { λ bench told. reads_itself bench };

    ghost counts_now = { λ bench t image. now_counts bench t image };

    ghost only_now = { λ bench image bytes. now_only bench image bytes };
}

// Copies the bytes from a place on into the front of `buf`.
fn copy_from(bytes: &[u8], at: usize, buf: &mut [u8]) -> usize
    ensures count { result ≡ min (length buf.new) (length bytes.now - at) }
    ensures copied { take result buf.new ≡ take result (drop at bytes.now) }
{
    let from = at.min(bytes.len());
    copy_front(&bytes[from..], usize::MAX, buf)
}
