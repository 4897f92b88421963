//! The journal's file, and where replies go.
ghost use Rattle.std.specs.Prelude.{◌≡◌, ◌≤◌, ◌+◌, ◌-◌, ◌++◌, Bool, List, ℕ, length, take, drop, min, IfOk, OnOk, OnErr, is_err};
ghost use Rattle.bench_core.specs.Causes.{HasCause};
ghost use Rattle.bench_core.specs.Bench.{AppendsFront, Holds, Torn, Follows, Unsent, Sending, Elapses, Stays};

use crate::Failed;

/// One object that keeps the journal's file and takes what leaves the auditor, so that one clock orders a record's sync
/// before its reply. No file is ever cut shorter.
pub trait Bench {
    /// Its kind tells its content, as an object in memory does. A file and a terminal don't.
    ghost told: { Type 0 };

    /// The file as it reads, if it tells it.
    ghost file: { Self → List ℕ };

    /// The bytes that were sent, if it tells them.
    ghost sent: { Self → List ℕ };

    /// The images of the file that a crash at this moment may leave.
    ghost leaves: { Self → List ℕ → Type 0 };

    /// The moment on its clock, if it tells it. A call that succeeds takes one; one that fails takes one or none.
    ghost moment: { Self → ℕ };

    /// The pairs of image and bytes sent that a crash at some moment from that one on might have found, within a call or
    /// between two.
    ghost since: { Self → ℕ → List ℕ → List ℕ → Type 0 };

    /// How often it has failed. The count never falls, and stands still at its type's end.
    ghost faults: { Self → ℕ };

    /// Whether the last call of it failed.
    ghost last_failed: { Self → Bool };

    /// The file's length.
    fn length(&mut self) -> Result<u64, Failed>
        ensures length { told → IfOk result (λ count. count ≡ length (file self.old)) }
        ensures stays { Stays file sent leaves moment since self.old self.new }
        ensures ticks { told → OnOk result (moment self.new ≡ moment self.old + 1) }
        ensures one_tick { moment self.new ≤ moment self.old + 1 }
        ensures cause { HasCause (faults self.old) (faults self.new) result }
        ensures last_call { last_failed self.new ≡ is_err result };

    /// Reads the bytes from a place on into the front of the buffer, as many as it takes.
    fn read_at(&mut self, at: u64, buf: &mut [u8]) -> Result<usize, Failed>
        ensures bound { IfOk result (λ count. count ≤ length buf.new) }
        ensures count { told → IfOk result (λ count. count ≡ min (length buf.new) (length (file self.old) - at)) }
        ensures bytes { told → IfOk result (λ count. take count buf.new ≡ take count (drop at (file self.old))) }
        ensures stays { Stays file sent leaves moment since self.old self.new }
        ensures ticks { told → OnOk result (moment self.new ≡ moment self.old + 1) }
        ensures one_tick { moment self.new ≤ moment self.old + 1 }
        ensures cause { HasCause (faults self.old) (faults self.new) result }
        ensures last_call { last_failed self.new ≡ is_err result };

    /// Writes over what stands there, and past the end. Until a sync, a crash may leave any bytes in the range.
    fn write_at(&mut self, at: u64, piece: &[u8]) -> Result<(), Failed>
        requires { told → at ≤ length (file self.old) }
        ensures written { told → OnOk result (Holds (file self.old) at piece.now (file self.new)) }
        ensures partly { told → OnErr result (Torn at (length piece.now) (file self.old) (file self.new)) }
        ensures sent { sent self.new ≡ sent self.old }
        ensures crash { Follows (Torn at (length piece.now)) (leaves self.old) (leaves self.new) }
        ensures time { Elapses (moment self.old) (moment self.new) (since self.old) (since self.new) (Unsent (leaves self.new) (sent self.old)) }
        ensures ticks { told → OnOk result (moment self.new ≡ moment self.old + 1) }
        ensures one_tick { moment self.new ≤ moment self.old + 1 }
        ensures cause { HasCause (faults self.old) (faults self.new) result }
        ensures last_call { last_failed self.new ≡ is_err result };

    /// After it, a crash leaves what a read gives.
    fn sync(&mut self) -> Result<(), Failed>
        ensures stable { told → OnOk result ((image : List ℕ) → leaves self.new image → image ≡ file self.old) }
        ensures stays { Stays file sent leaves moment since self.old self.new }
        ensures ticks { told → OnOk result (moment self.new ≡ moment self.old + 1) }
        ensures one_tick { moment self.new ≤ moment self.old + 1 }
        ensures cause { HasCause (faults self.old) (faults self.new) result }
        ensures last_call { last_failed self.new ≡ is_err result };

    /// Sends a piece. After `Failed` a front of it was sent, which may be empty.
    fn send(&mut self, piece: &[u8]) -> Result<(), Failed>
        ensures all { told → OnOk result (sent self.new ≡ sent self.old ++ piece.now) }
        ensures part { told → OnErr result (AppendsFront (sent self.old) piece.now (sent self.new)) }
        ensures file { file self.new ≡ file self.old }
        ensures crash { (image : List ℕ) → leaves self.new image → leaves self.old image }
        ensures time { Elapses (moment self.old) (moment self.new) (since self.old) (since self.new) (Sending (leaves self.new) (sent self.old) piece.now) }

        // A call that succeeds takes one moment, so the clock counts them. One that fails takes one or none.
        ensures ticks { told → OnOk result (moment self.new ≡ moment self.old + 1) }
        ensures one_tick { moment self.new ≤ moment self.old + 1 }
        ensures later { moment self.old ≤ moment self.new }
        ensures cause { HasCause (faults self.old) (faults self.new) result }
        ensures last_call { last_failed self.new ≡ is_err result };

    /// The file as it reads is one of the images.
    ghost reads: { (bench : Self) → told → leaves bench (file bench) };

    /// This moment is one of those since an earlier one.
    ghost counts_now: { (bench : Self) (t : ℕ) (image : List ℕ) → t ≤ moment bench → leaves bench image → since bench t image (sent bench) };

    /// Since this moment there is no other.
    ghost only_now: { (bench : Self) (image bytes : List ℕ) → since bench (moment bench) image bytes → leaves bench image × (bytes ≡ sent bench) };
}
