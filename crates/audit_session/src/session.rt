//! The session: the lines of an input are answered in groups over what a keeper keeps.
ghost use Rattle.std.specs.Prelude.{◌≡◌, [], true, false, IfOk, Err};
ghost use Rattle.std.specs.Vec.{vec_capacity};
ghost use Rattle.set_index.specs.Indexed.{public_shape};
ghost use Rattle.bench_core.specs.declared.stops.Stop.{Stop};
ghost use Rattle.journal_form.specs.Journal.{StandsAt};
ghost use Rattle.audit_store.specs.Stores.{IsAsLeft, IsStore};
ghost use Rattle.audit_session.specs.Ends.{base_over};
ghost use Rattle.audit_session.specs.Sessions.{SessionOn, SpareSessionOn};
ghost use Rattle.audit_session.specs.Stops.{IsBatch};

use crate::answering::answer;
use crate::gathering::{Group, gather};
use crate::laws::stops;
use audit_store::Keeper;
use audit_types::NoMemory;
use bench_core::{Bench, Source, Stop};
use question_plan::Planner;
use set_index::Index;
use std::alloc::Global;

// What the lines of an input are planned with, and room for a group.
fn make_room(alloc: Global, batch: u8) -> Result<(Planner, Group), NoMemory>
    ensures fresh { IfOk result (λ room. (room.0.taken ≡ 0) × (room.0.pending ≡ []) × (room.0.ended ≡ false)) }
    ensures room { IfOk result (λ room. vec_capacity room.1.replies ≡ batch) }
{
    let planner = Planner::new(alloc)?;
    let group = Group::new(alloc, batch)?;
    Ok((planner, group))
}

/// Answers the counted lines of the input in groups of `batch`; at the end of the input the last group may be shorter. The
/// records of a group are on the spare, if the keeper is spared, and then in the journal before the first of its replies is sent, and
/// each reply is one send. The lines of a group that a failed read or the limit cuts short are read and not answered.
pub fn serve_with<K: Keeper, P: Source, B: Bench, S: Bench>(
    alloc: Global,
    index: &Index,
    keeper: &mut K,
    source: &mut P,
    bench: &mut B,
    spare: &mut S,
    batch: u8,
) -> Result<(), Stop>
    requires usable { (K.store keeper.old).usable ≡ true }
    requires is { IsStore (K.store keeper.old) }
    requires shape { (K.store keeper.old).secret.shape ≡ public_shape index.now }
    requires stands { B.told → IsAsLeft (B.file bench.old) (K.store keeper.old) }
    requires spare_stands { K.spared → S.told → StandsAt (S.file spare.old) (K.store keeper.old).secret.shape (K.store keeper.old).history (K.spare_gate keeper.old) }
    requires batch { IsBatch batch }

    // Which lines were answered, what the file stands for at each end and at every moment, and which calls were made.
    ensures session { SessionOn P.Source B.Bench (base_over index.now (K.store keeper.old)) batch (K.store keeper.old) (K.store keeper.new) result source.old source.new bench.old bench.new }

    // The same of the spare, which a keeper that isn't spared never calls.
    ensures spare { SpareSessionOn P.Source B.Bench S.Bench (K.spared × S.told) (base_over index.now (K.store keeper.old)) batch (K.store keeper.old) (K.store keeper.new) result source.old bench.old bench.new spare.old spare.new }
    ensures own { result ≡ Err Stop.Spare → K.spared }
    ensures untouched { (K.spared → ⊥) → spare.new ≡ spare.old }
{
    // What the schema says of itself: valid columns.
    let _schema = index.schema();
    stops();
    let (mut planner, mut group) = make_room(alloc, batch)?;
    loop {
        let more = gather(alloc, &mut planner, index, source, batch, &mut group)?;
        answer(keeper, bench, spare, &mut group)?;
        if !more {
            return Ok(());
        }
    }
}
