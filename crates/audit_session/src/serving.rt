//! Serving over one journal, with no spare.
ghost use Rattle.std.specs.Prelude.{◌≡◌, ◌≢◌, ◌-◌, ◌^◌, [], true, Err};
ghost use Rattle.set_index.specs.Indexed.{public_shape};
ghost use Rattle.bench_core.specs.declared.stops.Stop.{Stop};
ghost use Rattle.audit_store.specs.Stores.{IsAsLeft};
ghost use Rattle.audit_session.specs.Ends.{base_over};
ghost use Rattle.audit_session.specs.Sessions.{SessionOn};
ghost use Rattle.audit_session.specs.Stops.{IsBatch};

use crate::session::serve_with;
use audit_store::Store;
use bench_core::{Bench, Failed, Source, Stop};
use set_index::Index;
use std::alloc::Global;

// The spare of a session that has none: it is never called. Its count of faults stands at the type's end.
#[derive(Drop)]
struct NoSpare;

impl Bench for NoSpare {
    ghost told = { ⊥ };

    ghost file = { λ _. [] };

    ghost sent = { λ _. [] };

    ghost leaves = { λ _ _. ⊥ };

    ghost moment = { λ _. 0 };

    ghost since = { λ _ _ _ _. ⊥ };

    ghost faults = { λ _. 2 ^ 64 - 1 };

    ghost last_failed = { λ _. true };

    fn length(&mut self) -> Result<u64, Failed> {
        Err(Failed)
    }

    fn read_at(&mut self, _at: u64, _buf: &mut [u8]) -> Result<usize, Failed> {
        Err(Failed)
    }

    fn write_at(&mut self, _at: u64, _piece: &[u8]) -> Result<(), Failed> {
        Err(Failed)
    }

    fn sync(&mut self) -> Result<(), Failed> {
        Err(Failed)
    }

    fn send(&mut self, _piece: &[u8]) -> Result<(), Failed> {
        Err(Failed)
    }

    ghost reads = { λ bench told. absurd told };

    ghost counts_now = { λ bench t image le left. absurd left };

    ghost only_now = { λ bench image bytes since. absurd since };
}

/// Answers the counted lines of the input in groups of `batch`; at the end of the input the last group may be shorter. The
/// records of a group are in the journal before the first of its replies is sent, and each reply is one send. The lines of a
/// group that a failed read or the limit cuts short are read and not answered.
pub fn serve<P: Source, B: Bench>(
    alloc: Global,
    index: &Index,
    store: &mut Store,
    source: &mut P,
    bench: &mut B,
    batch: u8,
) -> Result<(), Stop>
    requires usable { store.old.usable ≡ true }
    requires shape { store.old.secret.shape ≡ public_shape index.now }
    requires stands { B.told → IsAsLeft (B.file bench.old) store.old }
    requires batch { IsBatch batch }

    // Which lines were answered, what the file stands for at each end and at every moment, and which calls were made.
    ensures session { SessionOn P.Source B.Bench (base_over index.now store.old) batch store.old store.new result source.old source.new bench.old bench.new }
    ensures alone { result ≢ Err Stop.Spare }
{
    // What the store says of itself: a legal history.
    let _history = store.history();
    let mut none = NoSpare;
    serve_with(alloc, index, store, source, bench, &mut none, batch)
}
