//! The spare that a run with a fault at each call may leave.
use crate::breach::Breach;
use crate::contents::bytes_of;
use crate::keys::Keys;
use anyhow::Result;

// The bytes of a journal without records: no shorter file is made.
const FRESH_SIZE: usize = 21;

/// Whether a journal is made in this file: it has the bytes of one, and its first gate is open.
pub(crate) fn is_made(file: &[u8]) -> bool {
    file.len() >= FRESH_SIZE && file.first() == Some(&1)
}

/// The spare of the run that is done; nothing is there if the spare stays as it was.
#[derive(Drop)]
pub(crate) struct WholeSpare {
    file: Option<Vec<u8>>,
}

impl WholeSpare {
    pub(crate) fn of(rt: &HostRuntime, run: Keys) -> Result<WholeSpare> {
        let file = match run.value("spare_file") {
            Some(contents) => Some(bytes_of(rt, Some(contents))?),
            None => None,
        };
        Ok(WholeSpare { file })
    }

    /// The bytes that are due of the run that is done, over a spare with these at the start.
    pub(crate) fn due<'a>(&'a self, start: &'a [u8]) -> &'a [u8] {
        match &self.file {
            Some(file) => file.as_slice(),
            None => start,
        }
    }

    /// What is wrong with a spare that may be left after this was sent: it is whole, or it isn't made and nothing was sent.
    pub(crate) fn breach(&self, start: &[u8], sent: &[u8], file: &[u8]) -> Option<Breach> {
        if file == self.due(start) {
            None
        } else if self.file.is_none() {
            Some(Breach::SpareWritten)
        } else if is_made(file) {
            Some(Breach::PartlyMade)
        } else if !sent.is_empty() {
            Some(Breach::SentTooSoon)
        } else {
            None
        }
    }
}
