//! Bytes that come from outside, and the answer of a call of the outside that failed.
ghost use Rattle.std.specs.Prelude.{◌≡◌, ◌<◌, ◌≤◌, ◌^◌, Bool, List, ℕ, length, IfOk, is_err};
ghost use Rattle.bench_core.specs.Causes.{HasCause};
ghost use Rattle.bench_core.specs.Source.{Reads};

/// A call of the outside failed. The count of faults of the object that was called is one more, as it is at no other answer.
#[derive(Clone, Copy, Debug, PartialEq, Eq)]
pub struct Failed;

/// Bytes that come from outside, front to back.
pub trait Source {
    /// Its kind tells its bytes, as an object in memory does. A file doesn't.
    ghost told: { Type 0 };

    /// The bytes that are left, if it tells them.
    ghost left: { Self → List ℕ };

    /// How often it has failed. The count never falls, and stands still at its type's end.
    ghost faults: { Self → ℕ };

    /// Whether the last call of it failed.
    ghost last_failed: { Self → Bool };

    /// Reads the next bytes into the front of `buf`, and answers how many. An answer of 0 is the end of the input. After
    /// `Failed` the same bytes are left.
    fn read(&mut self, buf: &mut [u8]) -> Result<usize, Failed>
        requires { 0 < length buf.old }
        ensures bound { IfOk result (λ count. count ≤ length buf.new) }
        ensures bytes { told → Reads (left self.old) (left self.new) result buf.new }
        ensures cause { HasCause (faults self.old) (faults self.new) result }
        ensures last_call { last_failed self.new ≡ is_err result };
}
