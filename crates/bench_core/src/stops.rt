//! What ends a call of the outside before its work is done.
ghost use Rattle.std.specs.Prelude.{◌≡◌};
ghost use Rattle.bench_core.specs.declared.stops.Stop.{Stop};
ghost use Rattle.bench_core.specs.Ends.{turned_end};
ghost use Rattle.bench_core.specs.Stops.{turned};

use crate::source::Failed;
use audit_types::NoMemory;
use std::alloc::AllocError;

/// What ended a call before its work was done. A call answers those alone that its objects can bring about; its contract says which.
#[derive(Clone, Copy, Debug, PartialEq, Eq)]
pub enum Stop {
    /// A read of the input failed.
    Input,
    /// The input has more than 2^30 bytes.
    Limit,
    /// A call of the bench failed.
    Bench,
    /// A call of the spare failed.
    Spare,
    NoMemory,
}

impl Stop {
    /// The same stop, of a caller that lent its spare for the bench, and its bench for the spare.
    pub fn turned(self) -> Stop
        ensures { result ≡ turned self }
    {
        match self {
            Stop::Bench => Stop::Spare,
            Stop::Spare => Stop::Bench,
            other => other,
        }
    }
}

impl From<NoMemory> for Stop {
    ghost use Rattle.bench_core.specs.declared.stops.Stop.TheVariants.{NoMemory};

    ghost from_gives = { λ _ e. e ≡ NoMemory };

    fn from(_e: NoMemory) -> Stop {
        Stop::NoMemory
    }
}

impl From<AllocError> for Stop {
    ghost use Rattle.bench_core.specs.declared.stops.Stop.TheVariants.{NoMemory};

    ghost from_gives = { λ _ e. e ≡ NoMemory };

    fn from(_e: AllocError) -> Stop {
        Stop::NoMemory
    }
}

impl From<Failed> for Stop {
    ghost use Rattle.bench_core.specs.declared.stops.Stop.TheVariants.{Bench};

    ghost from_gives = { λ _ e. e ≡ Bench };

    fn from(_e: Failed) -> Stop {
        Stop::Bench
    }
}

/// How a call ends that isn't done: something of the outside ended it, or it was refused for a cause of its own.
#[derive(Clone, Copy, Debug, PartialEq, Eq)]
pub enum End<R> {
    Stopped(Stop),
    Refused(R),
}

impl<R> End<R> {
    /// The same end, of a caller that lent its spare for the bench, and its bench for the spare.
    pub fn turned(self) -> End<R>
        ensures { result ≡ turned_end self }
    {
        match self {
            End::Stopped(stop) => End::Stopped(stop.turned()),
            End::Refused(refusal) => End::Refused(refusal),
        }
    }
}

impl<R> From<Stop> for End<R> {
    ghost use Rattle.bench_core.specs.declared.stops.End.TheVariants.{Stopped};

    ghost from_gives = { λ stop e. e ≡ Stopped stop };

    fn from(stop: Stop) -> End<R> {
        End::Stopped(stop)
    }
}

impl<R> From<NoMemory> for End<R> {
    ghost use Rattle.bench_core.specs.declared.stops.End.TheVariants.{Stopped};

    ghost from_gives = { λ _ e. e ≡ Stopped Stop.NoMemory };

    fn from(_e: NoMemory) -> End<R> {
        End::Stopped(Stop::NoMemory)
    }
}

impl<R> From<AllocError> for End<R> {
    ghost use Rattle.bench_core.specs.declared.stops.End.TheVariants.{Stopped};

    ghost from_gives = { λ _ e. e ≡ Stopped Stop.NoMemory };

    fn from(_e: AllocError) -> End<R> {
        End::Stopped(Stop::NoMemory)
    }
}

impl<R> From<Failed> for End<R> {
    ghost use Rattle.bench_core.specs.declared.stops.End.TheVariants.{Stopped};

    ghost from_gives = { λ _ e. e ≡ Stopped Stop.Bench };

    fn from(_e: Failed) -> End<R> {
        End::Stopped(Stop::Bench)
    }
}
