//! The files that a journal may stand as.
use crate::breach::Breach;
use crate::contents::bytes_of;
use crate::keys::Keys;
use crate::value_kind::ValueKind;
use crate::whole_spare::is_made;
use anyhow::{Result, bail};
use toml::Value;

const KEYS: [(&str, ValueKind); 4] = [
    ("records", ValueKind::Count),
    ("file", ValueKind::Contents),
    ("unmade", ValueKind::Flag),
    ("spare", ValueKind::List),
];

/// The file of a journal, how many records it has, if that is asked, and the spares that may stand beside it.
#[derive(Drop)]
pub(crate) struct History {
    records: Option<u64>,
    // Nothing is there if no journal is made.
    file: Option<Vec<u8>>,
    // The first of them has the same history. There are none if the spare is no journal's twin.
    spares: Vec<Vec<u8>>,
}

impl History {
    /// What is wrong if this was sent: a history has a record for each reply of which a byte was.
    pub(crate) fn breach(&self, sent: &[u8]) -> Option<Breach> {
        match self.records {
            Some(records) if records < lines_begun(sent) => Some(Breach::Unrecorded),
            _ => None,
        }
    }

    /// Whether the file has the bytes of this one up to its last gate, and there a gate that isn't open.
    pub(crate) fn is_in(&self, file: &[u8]) -> bool {
        match &self.file {
            Some(known) => stands_in(known, file),
            None => !is_made(file),
        }
    }

    /// Whether the spare is a journal's twin.
    pub(crate) fn has_twins(&self) -> bool {
        !self.spares.is_empty()
    }

    /// Whether a file has no journal then.
    pub(crate) fn is_unmade(&self) -> bool {
        self.file.is_none()
    }

    /// Whether this spare may stand beside the journal.
    pub(crate) fn may_be_beside(&self, spare: &[u8]) -> bool {
        self.spares.iter().any(|known| stands_in(known, spare))
    }

    /// Whether this spare has the same history.
    pub(crate) fn is_same_in(&self, spare: &[u8]) -> bool {
        match self.spares.first() {
            Some(known) => stands_in(known, spare),
            None => false,
        }
    }
}

// Whether a file has these bytes up to their last gate, and there a gate that isn't open.
fn stands_in(known: &[u8], file: &[u8]) -> bool {
    let Some((_, records)) = known.split_last() else {
        return false;
    };
    file.starts_with(records) && matches!(file.get(records.len()), Some(gate) if *gate != 1)
}

// How many replies a byte was sent of.
fn lines_begun(sent: &[u8]) -> u64 {
    let mut begun = 0u64;
    let mut is_new = true;
    for byte in sent {
        if is_new {
            begun = begun.saturating_add(1);
        }
        is_new = *byte == b'\n';
    }
    begun
}

pub(crate) fn history_of(rt: &HostRuntime, value: &Value) -> Result<History> {
    let keys = Keys::of_value(value, &KEYS)?;
    let mut spares = Vec::new(rt.alloc());
    for contents in keys.list("spare").unwrap_or(&[]) {
        spares.push(bytes_of(rt, Some(contents))?)?;
    }
    Ok(History {
        records: keys.count("records"),
        file: file_of(rt, keys)?,
        spares,
    })
}

fn file_of(rt: &HostRuntime, keys: Keys) -> Result<Option<Vec<u8>>> {
    match keys.value("file") {
        Some(contents) => Ok(Some(bytes_of(rt, Some(contents))?)),
        None if keys.flag("unmade") => Ok(None),
        None => bail!("a history has a file, or is unmade"),
    }
}
