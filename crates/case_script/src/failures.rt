//! Which call of each object fails.
use crate::keys::Keys;
use crate::value_kind::ValueKind;

/// The calls that fail, counted from 0: of each object one, and with `stop` and `spare_stop` all of the bench and of the spare from
/// that one on.
#[derive(Clone, Copy, Default)]
pub struct Failures {
    pub schema: Option<u64>,
    pub table: Option<u64>,
    pub input: Option<u64>,
    pub bench: Option<u64>,
    pub stop: Option<u64>,
    pub spare: Option<u64>,
    pub spare_stop: Option<u64>,
}

impl Failures {
    pub(crate) const KEYS: [(&'static str, ValueKind); 7] = [
        ("schema", ValueKind::Count),
        ("table", ValueKind::Count),
        ("input", ValueKind::Count),
        ("bench", ValueKind::Count),
        ("stop", ValueKind::Count),
        ("spare", ValueKind::Count),
        ("spare_stop", ValueKind::Count),
    ];

    pub(crate) fn of(keys: Keys) -> Failures {
        Failures {
            schema: keys.count("schema"),
            table: keys.count("table"),
            input: keys.count("input"),
            bench: keys.count("bench"),
            stop: keys.count("stop"),
            spare: keys.count("spare"),
            spare_stop: keys.count("spare_stop"),
        }
    }
}
