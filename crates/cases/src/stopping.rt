//! One run of which each call of an object fails in turn, and what a crash then leaves.
use crate::left::{Files, files_left, images_left};
use crate::stage::{Benches, End, ROOM, Stage};
use crate::telling::{Bytes, Case};
use anyhow::{Result, bail};
use auditor_top::{Object, Status};
use case_script::{Breach, Exchange, Failures, Fault, Law, Over};
use std::alloc::Global;
use std::fmt;

// A run that is tried with a fault at each call, and what is due of it.
#[derive(Clone, Copy)]
struct Trial<'a> {
    name: Case<'a>,
    stage: Stage<'a>,
    law: &'a Law,
}

// Which image of the journal's file is left after a crash, and which of the spare's, if not the same.
#[derive(Clone, Copy)]
struct Images {
    journal: Over,
    spare: Option<Over>,
}

// What is wrong with a run of which this call failed, and with the files that are left after it.
#[derive(Clone, Copy)]
struct Broken {
    call: u64,
    images: Images,
    breach: Breach,
}

impl Broken {
    // A run that ended otherwise than by the fault at this call.
    fn by_status(call: u64) -> Broken {
        Broken {
            call,
            images: Images {
                journal: Over::Left,
                spare: None,
            },
            breach: Breach::OtherStatus,
        }
    }
}

impl fmt::Display for Broken {
    fn fmt<W: fmt::Write>(&self, f: &mut fmt::Formatter<W>) -> fmt::Result {
        let Broken {
            call,
            images,
            breach,
        } = self;
        let journal = images.journal.name();
        match images.spare {
            None => write!(f, "at call {call}, {journal}: {breach}"),
            Some(spare) => {
                let spare = spare.name();
                write!(f, "at call {call}, {journal}, spare's {spare}: {breach}")
            }
        }
    }
}

// How a run ends that a fault befalls.
fn status_of(fault: Fault) -> Status {
    match fault {
        Fault::Stop | Fault::Fail => Status::Failed(Object::Bench),
        Fault::SpareStop | Fault::SpareFail => Status::Failed(Object::Spare),
        Fault::Schema => Status::Failed(Object::Schema),
        Fault::Table => Status::Failed(Object::Table),
        Fault::Input => Status::Failed(Object::Input),
    }
}

/// Whether all is as due at each call, up to the first run that is done, or ends otherwise than by the fault; what isn't is printed.
pub fn play_each(rt: &HostRuntime, name: Case, stage: Stage, law: &Law) -> Result<bool> {
    let trial = Trial { name, stage, law };
    let mut met = true;
    for call in 0..ROOM {
        let end = trial.run(rt.alloc(), call)?;
        if end.status == Status::Done {
            return Ok(met & trial.is_done(rt, &end)?);
        }
        if end.status != status_of(law.fault) {
            // Such an end is no work of the fault, so that of the next call would be the same.
            name.tell(rt, Broken::by_status(call))?;
            return Ok(false);
        }
        met &= trial.is_kept(rt, call, &end)?;
    }
    bail!("no run is done")
}

impl Trial<'_> {
    // Runs the program with a fault at this call.
    fn run(self, alloc: Global, call: u64) -> Result<End> {
        let failures = self.law.fault.at(call);
        self.stage
            .run(alloc, self.stage.start, &self.law.whole, failures)
    }

    // Whether the replies due were sent by a run that is done, and the spare that is due is left.
    fn is_done(self, rt: &HostRuntime, end: &End) -> Result<bool> {
        let Benches { journal, spare } = &end.benches;
        let (due, came) = (Bytes(&self.law.whole.shown), Bytes(journal.sent()));
        let met = self.name.agrees(rt, "sent", &due, &came)?;
        let due = Bytes(self.law.whole_spare(&self.stage.start.spare));
        Ok(
            met & self
                .name
                .agrees(rt, "spare's file", &due, &Bytes(spare.file()))?,
        )
    }

    // Whether nothing is wrong with a run that failed at a call, in any files that it may leave.
    fn is_kept(self, rt: &HostRuntime, call: u64, end: &End) -> Result<bool> {
        let mut kept = true;
        for journal in Over::ALL {
            kept &= if self.law.has_twins() {
                self.is_kept_beside_each(rt, call, end, journal)?
            } else {
                let spare = None;
                self.is_kept_in(rt, call, end, Images { journal, spare })?
            };
        }
        Ok(kept)
    }

    // The same with this image of the journal, and any of its twin.
    fn is_kept_beside_each(
        self,
        rt: &HostRuntime,
        call: u64,
        end: &End,
        journal: Over,
    ) -> Result<bool> {
        let mut kept = true;
        for spare in Over::ALL {
            let spare = Some(spare);
            kept &= self.is_kept_in(rt, call, end, Images { journal, spare })?;
        }
        Ok(kept)
    }

    fn is_kept_in(self, rt: &HostRuntime, call: u64, end: &End, images: Images) -> Result<bool> {
        let Some(breach) = self.breach(rt.alloc(), call, end, images)? else {
            return Ok(true);
        };
        let broken = Broken {
            call,
            images,
            breach,
        };
        self.name.tell(rt, broken)?;
        Ok(false)
    }

    // What is wrong with a run that failed at a call, in the files that a crash leaves.
    fn breach(self, alloc: Global, call: u64, end: &End, images: Images) -> Result<Option<Breach>> {
        let sent = end.benches.journal.sent();
        if !self.law.may_have_sent(alloc, call, sent)? {
            return Ok(Some(Breach::OtherReplies));
        }
        let spare = images.spare.unwrap_or(images.journal);
        let left = images_left(alloc, images.journal, spare, &end.benches)?;
        self.breach_of_files(alloc, sent, &left)
    }

    // What is wrong with files that are left after this was sent, or with the answers to the lines that are asked over them.
    fn breach_of_files(self, alloc: Global, sent: &[u8], left: &Files) -> Result<Option<Breach>> {
        let Files { journal, spare } = left;
        let start = &self.stage.start.spare;
        if let Some(breach) = self.law.breach_of_files(start, sent, journal, spare) {
            return Ok(Some(breach));
        }
        if let Some(exchange) = self.law.asked_over(journal, spare) {
            if let Some(breach) = self.breach_of_answers(alloc, exchange, left)? {
                return Ok(Some(breach));
            }
        }
        match self.law.asked_again() {
            Some(exchange) => self.breach_of_next(alloc, exchange, sent, left),
            None => Ok(None),
        }
    }

    // What is wrong with the next run over the files that are left, or with those that it leaves.
    fn breach_of_next(
        self,
        alloc: Global,
        asked: &Exchange,
        sent: &[u8],
        left: &Files,
    ) -> Result<Option<Breach>> {
        let end = self.stage.run(alloc, left, asked, Failures::default())?;
        if end.status != Status::Done || end.benches.journal.sent() != asked.shown.as_slice() {
            return Ok(Some(Breach::OtherAnswers));
        }
        let after = files_left(alloc, Over::Left, &end.benches)?;
        Ok(self.law.breach_of_twins(sent, &after.journal, &after.spare))
    }

    // What is wrong with the answers to the lines that are asked over the files that are left.
    fn breach_of_answers(
        self,
        alloc: Global,
        asked: &Exchange,
        left: &Files,
    ) -> Result<Option<Breach>> {
        let end = self.stage.run(alloc, left, asked, Failures::default())?;
        if end.status == Status::Done && end.benches.journal.sent() == asked.shown.as_slice() {
            Ok(None)
        } else {
            Ok(Some(Breach::OtherAnswers))
        }
    }
}
