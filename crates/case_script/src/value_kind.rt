//! What may stand at a key.
use toml::Value;

/// What may stand at a key.
#[derive(Clone, Copy)]
pub(crate) enum ValueKind {
    Text,
    /// A number from 0.
    Count,
    Flag,
    List,
    Table,
    /// What contents are is looked at where they are read.
    Contents,
}

impl ValueKind {
    /// Whether a value is one of the kind.
    pub(crate) fn has(self, value: &Value) -> bool {
        match self {
            ValueKind::Text => value.is_str(),
            ValueKind::Count => count_of(value).is_some(),
            ValueKind::Flag => value.is_bool(),
            ValueKind::List => value.is_array(),
            ValueKind::Table => value.is_table(),
            ValueKind::Contents => true,
        }
    }
}

/// The number that a value is, from 0.
pub(crate) fn count_of(value: &Value) -> Option<u64> {
    u64::try_from(value.as_integer()?).ok()
}

/// The number that a value is, if it may be the place of a byte.
pub(crate) fn place_of(value: &Value) -> Option<usize> {
    usize::try_from(value.as_integer()?).ok()
}

/// The number that a value is, if it is one of a byte.
pub(crate) fn byte_of(value: &Value) -> Option<u8> {
    u8::try_from(value.as_integer()?).ok()
}
