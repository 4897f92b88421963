//! The status of the last step of a command, by how it ended.
ghost use Rattle.std.specs.Prelude.{◌≡◌};
ghost use Rattle.auditor_top.specs.Faults.{ended_status, making_status, simulation_status, growing_status, compacting_status, restoring_status};

use crate::status::{Refusal, Status};
use answer_journal::AlreadyThere;
use audit_store::GrowRefusal;
use bench_core::{End, Stop};
use transcript_sim::SimulationRefusal;
use twin_journal::RestoreRefusal;

/// The status of a last step that ended so: answering lines over one journal or two, explaining them, a report, or a drill.
pub fn ended(step: Result<(), Stop>) -> Status
    ensures { result ≡ ended_status step }
{
    match step {
        Ok(()) => Status::Done,
        Err(stop) => Status::from(stop),
    }
}

/// The status of a making that ended so.
pub fn made(making: Result<(), End<AlreadyThere>>) -> Status
    ensures { result ≡ making_status making }
{
    match making {
        Ok(()) => Status::Done,
        Err(End::Stopped(stop)) => Status::from(stop),
        Err(End::Refused(AlreadyThere)) => Status::Refused(Refusal::AlreadyThere),
    }
}

/// The status of a simulation that ended so.
pub fn judged(simulation: Result<(), End<SimulationRefusal>>) -> Status
    ensures { result ≡ simulation_status simulation }
{
    match simulation {
        Ok(()) => Status::Done,
        Err(End::Stopped(stop)) => Status::from(stop),
        Err(End::Refused(refusal)) => Status::Refused(Refusal::from(refusal)),
    }
}

/// The status of a growth that ended so.
pub fn grown(growth: Result<(), End<GrowRefusal>>) -> Status
    ensures { result ≡ growing_status growth }
{
    match growth {
        Ok(()) => Status::Done,
        Err(End::Stopped(stop)) => Status::from(stop),
        Err(End::Refused(refusal)) => Status::Refused(Refusal::from(refusal)),
    }
}

/// The status of a compaction that ended so.
pub fn compacted(compaction: Result<(), End<AlreadyThere>>) -> Status
    ensures { result ≡ compacting_status compaction }
{
    match compaction {
        Ok(()) => Status::Done,
        Err(End::Stopped(stop)) => Status::from(stop),
        Err(End::Refused(AlreadyThere)) => Status::Refused(Refusal::SpareThere),
    }
}

/// The status of a journal's restoring that ended so.
pub fn restored(restoring: Result<(), End<RestoreRefusal>>) -> Status
    ensures { result ≡ restoring_status restoring }
{
    match restoring {
        Ok(()) => Status::Done,
        Err(End::Stopped(stop)) => Status::from(stop),
        Err(End::Refused(refusal)) => Status::Refused(Refusal::from(refusal)),
    }
}
