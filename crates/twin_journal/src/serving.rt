//! Answering lines over two journals.
ghost use Rattle.std.specs.Prelude.{◌≡◌, true};
ghost use Rattle.set_index.specs.Indexed.{public_shape};
ghost use Rattle.audit_store.specs.Stores.{IsAsLeft};
ghost use Rattle.audit_session.specs.Ends.{base_over};
ghost use Rattle.audit_session.specs.Sessions.{SessionOn, SpareSessionOn};
ghost use Rattle.audit_session.specs.Stops.{IsBatch};
ghost use Rattle.twin_journal.specs.Twins.{IsSpareAsLeft};

use crate::starting::TwinStore;
use audit_session::serve_with;
use bench_core::{Bench, Source, Stop};
use set_index::Index;
use std::alloc::Global;

/// Answers the counted lines of the input in groups of `batch`, as `serve` of `audit_session` does: the records of a group are
/// on the spare and then in the journal before the first of its replies is sent.
pub fn serve_twin<P: Source, B: Bench, S: Bench>(
    alloc: Global,
    index: &Index,
    twin: &mut TwinStore,
    source: &mut P,
    bench: &mut B,
    spare: &mut S,
    batch: u8,
) -> Result<(), Stop>
    requires usable { twin.old.store.usable ≡ true }
    requires shape { twin.old.store.secret.shape ≡ public_shape index.now }
    requires stands { B.told → IsAsLeft (B.file bench.old) twin.old.store }
    requires spare_stands { S.told → IsSpareAsLeft (S.file spare.old) twin.old }
    requires batch { IsBatch batch }

    // Which lines were answered, what the file stands for at each end and at every moment, and which calls were made.
    ensures session { SessionOn P.Source B.Bench (base_over index.now twin.old.store) batch twin.old.store twin.new.store result source.old source.new bench.old bench.new }
    ensures spare { SpareSessionOn P.Source B.Bench S.Bench S.told (base_over index.now twin.old.store) batch twin.old.store twin.new.store result source.old bench.old bench.new spare.old spare.new }
{
    // A twin store says of itself that its history is legal.
    let _history = twin.history();
    serve_with(alloc, index, twin, source, bench, spare, batch)
}
