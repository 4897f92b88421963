//! Answers of std, with their errors counted.
ghost use Rattle.std.specs.Prelude.{◌≡◌, ◌≤◌, false, IsErr, is_err, MatchResult};
ghost use Rattle.std.specs.Io.{ReadsAtMost};
ghost use Rattle.bench_core.specs.Causes.{HasCause};

use bench_core::Failed;
use std::io;
use std::io::{ErrorKind, Read};

/// How many calls of an object failed, and whether the last one did.
#[derive(Clone, Copy, Debug, PartialEq, Eq)]
pub struct Faults {
    pub count: u64,
    pub last: bool,
}

impl Faults {
    /// Those of an object that wasn't called yet.
    pub fn none() -> Faults
        ensures { (result.count ≡ 0) × (result.last ≡ false) }
    {
        Faults {
            count: 0,
            last: false,
        }
    }
}

/// Hands on what std answers, and counts an error.
pub fn count_error<T>(answer: io::Result<T>, faults: &mut Faults) -> Result<T, Failed>
    ensures answer { MatchResult answer (λ value. result ≡ Ok value) (λ _. IsErr result) }
    ensures cause { HasCause faults.old.count faults.new.count result }
    ensures last_call { faults.new.last ≡ is_err result }
{
    faults.last = answer.is_err();
    match answer {
        Ok(value) => Ok(value),
        Err(_) => {
            faults.count = faults.count.saturating_add(1);
            Err(Failed)
        }
    }
}

/// A read that a signal interrupted is made again.
pub fn read_on<S: Read>(source: &mut S, buf: &mut [u8]) -> io::Result<usize>
    ensures { ReadsAtMost result buf.new }
{
    for _ in 0..u64::MAX {
        match source.read(buf) {
            Err(error) if error.kind() == ErrorKind::Interrupted => {}
            answer => return answer,
        }
    }
    Err(io::Error::from(ErrorKind::Interrupted))
}
