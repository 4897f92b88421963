//! A table of a script, of which each key is read by its name.
use crate::value_kind::{ValueKind, count_of};
use anyhow::{Result, bail};
use toml::{Table, Value};

// The most bytes that a source gives at a read, if the run doesn't say.
const PIECE: u64 = 65_536;

/// A table that has no keys but those it may have, each with a value of its kind.
#[derive(Clone, Copy)]
pub(crate) struct Keys<'a> {
    table: &'a Table,
}

impl<'a> Keys<'a> {
    pub(crate) fn of(table: &'a Table, known: &[(&str, ValueKind)]) -> Result<Keys<'a>> {
        for (key, value) in table {
            if !is_known(key.as_str(), value, known) {
                bail!("{key} is an unknown key, or its value is of another kind");
            }
        }
        Ok(Keys { table })
    }

    pub(crate) fn of_value(value: &'a Value, known: &[(&str, ValueKind)]) -> Result<Keys<'a>> {
        match value {
            Value::Table(table) => Keys::of(table, known),
            _ => bail!("a table is due"),
        }
    }

    pub(crate) fn value(self, key: &str) -> Option<&'a Value> {
        self.table.get(key)
    }

    /// The value at a key, else the one that is common to all runs.
    pub(crate) fn value_or(self, common: Keys<'a>, key: &str) -> Option<&'a Value> {
        self.value(key).or(common.value(key))
    }

    pub(crate) fn table(self, key: &str, known: &[(&str, ValueKind)]) -> Result<Option<Keys<'a>>> {
        match self.value(key) {
            Some(value) => Ok(Some(Keys::of_value(value, known)?)),
            None => Ok(None),
        }
    }

    pub(crate) fn text(self, key: &str) -> Option<&'a str> {
        self.value(key)?.as_str()
    }

    pub(crate) fn list(self, key: &str) -> Option<&'a [Value]> {
        match self.value(key) {
            Some(Value::Array(list)) => Some(list.as_slice()),
            _ => None,
        }
    }

    pub(crate) fn count(self, key: &str) -> Option<u64> {
        count_of(self.value(key)?)
    }

    pub(crate) fn flag(self, key: &str) -> bool {
        matches!(self.value(key), Some(Value::Boolean(true)))
    }

    /// The flag at a key, else the one that is common to all runs.
    pub(crate) fn flag_or(self, common: Keys<'a>, key: &str) -> bool {
        matches!(self.value_or(common, key), Some(Value::Boolean(true)))
    }

    /// The most bytes that a source gives at a read.
    pub(crate) fn most(self) -> usize {
        let most = self.count("piece").unwrap_or(PIECE);
        usize::try_from(most).unwrap_or(usize::MAX)
    }

    /// Refuses each of these keys beside another.
    pub(crate) fn refuse(self, keys: &[&str], beside: &str) -> Result<()> {
        for key in keys {
            if self.value(key).is_some() {
                bail!("{key} beside {beside}");
            }
        }
        Ok(())
    }
}

fn is_known(key: &str, value: &Value, known: &[(&str, ValueKind)]) -> bool {
    for (name, kind) in known {
        if *name == key {
            return kind.has(value);
        }
    }
    false
}
