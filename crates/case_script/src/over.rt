//! The files that a run may leave, of which the next may be over one.

/// Which file a run leaves.
#[derive(Clone, Copy)]
pub enum Over {
    /// The file as it reads.
    Left,
    /// The file of the last sync, after a crash.
    Synced,
    /// The file after a crash, with 0x37 for each byte that wasn't synced.
    Torn,
}

impl Over {
    /// All of them.
    pub const ALL: [Over; 3] = [Over::Left, Over::Synced, Over::Torn];

    pub(crate) fn of(word: &str) -> Option<Over> {
        match word {
            "left" => Some(Over::Left),
            "synced" => Some(Over::Synced),
            "torn" => Some(Over::Torn),
            _ => None,
        }
    }

    /// What it is called if a difference is reported.
    pub fn name(self) -> &'static str {
        match self {
            Over::Left => "file",
            Over::Synced => "synced file",
            Over::Torn => "torn file",
        }
    }
}
