//! How many of the lines that were sent say what.
ghost use Rattle.std.specs.Prelude.{◌<◌, ◌++◌, ◌∷◌, [], List, length};
ghost use Rattle.drill_case.specs.declared.kinds.ReplyKind.{ReplyKind};
ghost use Rattle.drill_case.specs.Tallies.{Counts};

use crate::kinds::ReplyKind;

/// How many lines were sent, and how many of them are answers, denials, and others.
#[derive(Clone, Copy)]
pub struct Tally {
    pub asked: u32,
    pub released: u32,
    pub denied_unsafe: u32,
    pub denied_wide: u32,
    pub refused: u32,
}

/// The tally of no line.
pub(crate) const NOTHING: Tally = Tally {
    asked: 0,
    released: 0,
    denied_unsafe: 0,
    denied_wide: 0,
    refused: 0,
};

impl Tally {
    /// Counts one more line of a kind.
    pub(crate) fn count(&mut self, kind: ReplyKind)
        requires room { (kinds : List ReplyKind) × Counts kinds self.old × (length kinds < 65536) }
        ensures counted { (kinds : List ReplyKind) → Counts kinds self.old → Counts (kinds ++ kind ∷ []) self.new }
    {
        self.asked += 1;
        match kind {
            ReplyKind::Released => self.released += 1,
            ReplyKind::DeniedUnsafe => self.denied_unsafe += 1,
            ReplyKind::DeniedWide => self.denied_wide += 1,
            ReplyKind::Other => self.refused += 1,
        }
    }
}
