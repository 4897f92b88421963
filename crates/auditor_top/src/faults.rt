//! The status that the end of each step comes to.
use crate::files::FileFault;
use crate::opening::OpenFault;
use crate::starting::NotStarted;
use crate::status::{Object, Refusal, Status};
use answer_journal::JournalRefusal;
use audit_store::GrowRefusal;
use bench_core::{End, Stop};
use set_index::{GuardPart, IndexFault};
use transcript_sim::SimulationRefusal;
use twin_journal::{RestoreRefusal, TwinRefusal};

impl From<Stop> for Status {
    ghost use Rattle.std.specs.Prelude.{◌≡◌};
    ghost use Rattle.auditor_top.specs.Faults.{stop_status};

    ghost from_gives = { λ stop status. status ≡ stop_status stop };

    fn from(stop: Stop) -> Status {
        match stop {
            Stop::Input => Status::Failed(Object::Input),
            Stop::Limit => Status::InputLimit,
            Stop::Bench => Status::Failed(Object::Bench),
            Stop::Spare => Status::Failed(Object::Spare),
            Stop::NoMemory => Status::NoMemory,
        }
    }
}

impl From<OpenFault> for Status {
    ghost use Rattle.std.specs.Prelude.{◌≡◌};
    ghost use Rattle.auditor_top.specs.Faults.{open_status};

    ghost from_gives = { λ fault status. status ≡ open_status fault };

    fn from(fault: OpenFault) -> Status {
        match fault {
            OpenFault::Schema(FileFault::Failed) => Status::Failed(Object::Schema),
            OpenFault::Schema(FileFault::Bad(fault)) => Status::Refused(Refusal::BadSchema(fault)),
            OpenFault::Table(FileFault::Failed) => Status::Failed(Object::Table),
            OpenFault::Table(FileFault::Bad(fault)) => Status::Refused(Refusal::BadTable(fault)),
            OpenFault::Schema(FileFault::NoMemory) | OpenFault::Table(FileFault::NoMemory) => {
                Status::NoMemory
            }
        }
    }
}

impl From<IndexFault> for Status {
    ghost use Rattle.std.specs.Prelude.{◌≡◌};
    ghost use Rattle.auditor_top.specs.Faults.{index_status};

    ghost from_gives = { λ fault status. status ≡ index_status fault };

    fn from(fault: IndexFault) -> Status {
        match fault {
            IndexFault::Bad { part } => match part {
                GuardPart::Only => Status::Refused(Refusal::BadOnly),
                GuardPart::Group { place } => Status::Refused(Refusal::BadGroup { place }),
            },
            IndexFault::NoMemory => Status::NoMemory,
        }
    }
}

impl From<NotStarted> for Status {
    ghost use Rattle.std.specs.Prelude.{◌≡◌};
    ghost use Rattle.auditor_top.specs.Faults.{started_status};

    ghost from_gives = { λ fault status. status ≡ started_status fault };

    fn from(fault: NotStarted) -> Status {
        match fault {
            NotStarted::Groups(fault) => Status::from(fault),
            NotStarted::Journal(End::Stopped(stop)) => Status::from(stop),
            NotStarted::Journal(End::Refused(refusal)) => {
                Status::Refused(Refusal::BadJournal(refusal))
            }
        }
    }
}

impl From<GrowRefusal> for Refusal {
    ghost use Rattle.std.specs.Prelude.{◌≡◌};
    ghost use Rattle.auditor_top.specs.Faults.{grow_refusal};

    ghost from_gives = { λ found refusal. refusal ≡ grow_refusal found };

    fn from(found: GrowRefusal) -> Refusal {
        match found {
            GrowRefusal::Journal(refusal) => Refusal::BadJournal(refusal),
            GrowRefusal::NothingNew { rows } => Refusal::NothingNew { rows },
        }
    }
}

impl From<TwinRefusal> for Refusal {
    ghost use Rattle.std.specs.Prelude.{◌≡◌};
    ghost use Rattle.auditor_top.specs.Faults.{twin_refusal};

    ghost from_gives = { λ found refusal. refusal ≡ twin_refusal found };

    fn from(found: TwinRefusal) -> Refusal {
        match found {
            TwinRefusal::Main(refusal) => Refusal::BadJournal(refusal),
            TwinRefusal::Spare(refusal) => Refusal::BadSpare(refusal),
            TwinRefusal::Differ { place } => Refusal::TwinsDiffer { place },
        }
    }
}

impl From<End<TwinRefusal>> for Status {
    ghost use Rattle.std.specs.Prelude.{◌≡◌};
    ghost use Rattle.auditor_top.specs.Faults.{end_status, twin_refusal};

    ghost from_gives = { λ end status. status ≡ end_status twin_refusal end };

    fn from(end: End<TwinRefusal>) -> Status {
        match end {
            End::Stopped(stop) => Status::from(stop),
            End::Refused(refusal) => Status::Refused(Refusal::from(refusal)),
        }
    }
}

impl From<RestoreRefusal> for Refusal {
    ghost use Rattle.std.specs.Prelude.{◌≡◌};
    ghost use Rattle.auditor_top.specs.Faults.{restore_refusal};

    ghost from_gives = { λ found refusal. refusal ≡ restore_refusal found };

    fn from(found: RestoreRefusal) -> Refusal {
        match found {
            RestoreRefusal::NothingLost => Refusal::NothingLost,
            RestoreRefusal::BothLost => Refusal::BadJournal(JournalRefusal::NotMade),
            RestoreRefusal::Main(refusal) => Refusal::BadJournal(refusal),
            RestoreRefusal::Spare(refusal) => Refusal::BadSpare(refusal),
        }
    }
}

impl From<SimulationRefusal> for Refusal {
    ghost use Rattle.std.specs.Prelude.{◌≡◌};
    ghost use Rattle.auditor_top.specs.Faults.{simulation_refusal};

    ghost from_gives = { λ found refusal. refusal ≡ simulation_refusal found };

    fn from(found: SimulationRefusal) -> Refusal {
        match found {
            SimulationRefusal::Journal(refusal) => Refusal::BadJournal(refusal),
            SimulationRefusal::Disagrees { line, due } => Refusal::Disagrees { line, due },
        }
    }
}
