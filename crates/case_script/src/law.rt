//! What is due of a run at each of whose calls a fault befalls in turn.
use crate::breach::Breach;
use crate::exchange::Exchange;
use crate::fault::Fault;
use crate::history::{History, history_of};
use crate::keys::Keys;
use crate::value_kind::ValueKind;
use crate::whole_spare::{WholeSpare, is_made};
use anyhow::{Context, Result};
use std::alloc::{AllocError, Global};

const BESIDE_NO_EACH: [&str; 9] = [
    "input",
    "sent",
    "ends",
    "file",
    "crash",
    "calls",
    "spare_calls",
    "stays",
    "spare_crash",
];

/// What is due at each call: what the whole run is, the files that the journal and the spare may stand as, what is answered
/// over the last of the journal's, and what over any of them.
#[derive(Drop)]
pub struct Law {
    pub fault: Fault,
    /// The run that no fault befalls.
    pub whole: Exchange,
    screen: String,
    // The most bytes that a source gives at a read.
    most: usize,
    histories: Vec<History>,
    then: Option<Exchange>,
    again: Option<Exchange>,
    spare: WholeSpare,
}

impl Law {
    pub(crate) const KEYS: [(&'static str, ValueKind); 4] = [
        ("fault", ValueKind::Text),
        ("histories", ValueKind::List),
        ("then", ValueKind::Text),
        ("again", ValueKind::Text),
    ];

    pub(crate) fn of(rt: &HostRuntime, run: Keys, each: Keys) -> Result<Law> {
        let spare = WholeSpare::of(rt, run)?;
        let mut law = Law::new(rt.alloc(), fault_of(each)?, run.most(), spare);
        law.read(rt, run, each).and(Ok(law))
    }

    fn new(alloc: Global, fault: Fault, most: usize, spare: WholeSpare) -> Law {
        Law {
            fault,
            whole: Exchange::new(alloc),
            screen: String::new(alloc),
            most,
            histories: Vec::new(alloc),
            then: None,
            again: None,
            spare,
        }
    }

    fn read(&mut self, rt: &HostRuntime, run: Keys, each: Keys) -> Result<()> {
        run.refuse(&BESIDE_NO_EACH, "each")?;
        self.read_terminals(rt.alloc(), run, each)?;
        self.read_histories(rt, each)
    }

    fn read_terminals(&mut self, alloc: Global, run: Keys, each: Keys) -> Result<()> {
        let screen = run.text("terminal").context("no terminal beside each")?;
        self.screen.push_str(screen)?;
        self.whole.read_terminal(alloc, screen, usize::MAX)?;
        self.then = exchange_of(alloc, each.text("then"))?;
        self.again = exchange_of(alloc, each.text("again"))?;
        Ok(())
    }

    // Reads what the journal may stand as, in order.
    fn read_histories(&mut self, rt: &HostRuntime, each: Keys) -> Result<()> {
        for value in each.list("histories").context("no histories")? {
            self.histories.push(history_of(rt, value)?)?;
        }
        Ok(())
    }

    /// Whether the spare is the journal's twin.
    pub fn has_twins(&self) -> bool {
        self.histories.iter().any(|known| known.has_twins())
    }

    /// Whether a run that failed at a call may have sent this: a front of the replies if the bench failed, or the journal's twin,
    /// nothing if another spare did, and if the input did, those to the lines that came before.
    pub fn may_have_sent(&self, alloc: Global, call: u64, sent: &[u8]) -> Result<bool, AllocError> {
        match self.fault {
            Fault::Stop | Fault::Fail => Ok(self.whole.shown.starts_with(sent)),
            Fault::SpareStop | Fault::SpareFail if self.has_twins() => {
                Ok(self.whole.shown.starts_with(sent))
            }
            Fault::SpareStop | Fault::SpareFail | Fault::Schema | Fault::Table => {
                Ok(sent.is_empty())
            }
            Fault::Input => self.sends_by_then(alloc, call, sent),
        }
    }

    // Whether this is sent of the lines that so many reads have brought.
    fn sends_by_then(&self, alloc: Global, reads: u64, sent: &[u8]) -> Result<bool, AllocError> {
        let reads = usize::try_from(reads).unwrap_or(usize::MAX);
        let read = reads.saturating_mul(self.most);
        let due = Exchange::of_terminal(alloc, self.screen.as_str(), read)?;
        Ok(due.shown.as_slice() == sent)
    }

    // The history that this file has, if it is one of them.
    fn history_in(&self, file: &[u8]) -> Option<&History> {
        self.histories.iter().find(|known| known.is_in(file))
    }

    /// What is wrong with files that may be left after this was sent, over a spare with these bytes at the start.
    pub fn breach_of_files(
        &self,
        start: &[u8],
        sent: &[u8],
        file: &[u8],
        spare: &[u8],
    ) -> Option<Breach> {
        let Some(known) = self.history_in(file) else {
            return Some(Breach::NoHistory);
        };
        known
            .breach(sent)
            .or(self.breach_of_spare(known, start, sent, spare))
    }

    fn breach_of_spare(
        &self,
        known: &History,
        start: &[u8],
        sent: &[u8],
        spare: &[u8],
    ) -> Option<Breach> {
        if !known.has_twins() {
            self.spare.breach(start, sent, spare)
        } else if known.may_be_beside(spare) {
            None
        } else {
            Some(Breach::OtherSpare)
        }
    }

    /// The bytes of the spare that are due of the run that is done, over a spare with these at the start.
    pub fn whole_spare<'a>(&'a self, start: &'a [u8]) -> &'a [u8] {
        self.spare.due(start)
    }

    /// What is typed over both files, and what is due in reply, if the journal's holds the last history, and the spare is its
    /// twin or isn't made.
    pub fn asked_over(&self, file: &[u8], spare: &[u8]) -> Option<&Exchange> {
        let last = self.histories.last()?;
        let is_asked = last.has_twins() || last.is_unmade() || !is_made(spare);
        if last.is_in(file) && is_asked {
            self.then.as_ref()
        } else {
            None
        }
    }

    /// What is typed over any files that are left, and what is due in reply.
    pub fn asked_again(&self) -> Option<&Exchange> {
        self.again.as_ref()
    }

    /// What is wrong with the files that the run with the lines typed again leaves, after this was sent before it.
    pub fn breach_of_twins(&self, sent: &[u8], file: &[u8], spare: &[u8]) -> Option<Breach> {
        match self.history_in(file) {
            Some(known) if known.is_same_in(spare) => known.breach(sent),
            _ => Some(Breach::NotOneHistory),
        }
    }
}

fn exchange_of(alloc: Global, screen: Option<&str>) -> Result<Option<Exchange>, AllocError> {
    match screen {
        Some(screen) => Ok(Some(Exchange::of_terminal(alloc, screen, usize::MAX)?)),
        None => Ok(None),
    }
}

fn fault_of(each: Keys) -> Result<Fault> {
    Fault::of(each).context(
        "a fault is stop, fail, spare_stop, spare_fail, or the source of which a read fails",
    )
}
