//! Proofs that a question is dangerous.
ghost use Rattle.std.specs.Prelude.{◌≡◌};
ghost use Rattle.denial_proof.specs.declared.proof_parts.ProveFault.TheVariants as fault;

use crate::few_rows::FewRows;
use audit_types::NoMemory;
use std::marker::Model;

/// What a sum would give away.
#[derive(Clone, Copy, Debug, PartialEq, Eq)]
pub enum Target {
    /// The number of this row.
    Row(u16),
    /// The total over the protected entry at this place.
    Group(u8),
}

/// How often the set of the record at this place is counted.
#[derive(Clone, Copy, Debug, PartialEq, Eq)]
pub struct Term {
    pub place: u32,
    pub times: i128,
}

/// The row of one person, whose number the asker knows, and how often it is in what the sets come to.
#[derive(Clone, Copy, Debug, PartialEq, Eq)]
pub struct OwnShare {
    pub own: u16,
    pub share: i128,
}

/// Terms, seen as their list.
#[derive(Drop)]
pub struct Terms {
    pub list: Vec<Term>,
}

impl Model for Terms {
    ghost use Rattle.std.specs.Prelude.{List};
    ghost use Rattle.denial_proof.specs.declared.proof_parts.Term.{Term};

    ghost Value = { List Term };

    ghost view = { λ t. t.list.items };
}

/// A number for each row, seen as their list.
#[derive(Drop)]
pub struct Heights {
    pub list: Vec<i128>,
}

impl Model for Heights {
    ghost use Rattle.std.specs.Prelude.{List, ℤ};

    ghost Value = { List ℤ };

    ghost view = { λ h. h.list.items };
}

/// Why a question is dangerous.
#[derive(Drop)]
pub enum Proof {
    /// The records' sets, each as often as its term says, and the asked set, as often as `asked` says, add up to the target,
    /// `times` times, and to the row whose number the asker knows, as often as its share says. Without one all would know the target.
    Sum {
        target: Target,
        share: Option<OwnShare>,
        times: i128,
        terms: Terms,
        asked: i128,
    },
    /// After this answer the named rows, of few people, are the only ones of the pair's set that can reach the pair's answer: the record at
    /// this place, or the asked set if there is none. `high` gives all answers, so the answer is possible.
    Max {
        answer: i128,
        few: FewRows,
        pair: Option<u32>,
        high: Heights,
    },
}

/// Why no proof was given.
#[derive(Clone, Copy, Debug, PartialEq, Eq)]
pub enum ProveFault {
    /// The marked sets aren't narrow, or a number for a group, or for what one asker would know, is above 2^112.
    Wide,
    NoMemory,
}

impl From<NoMemory> for ProveFault {
    ghost from_gives = { λ _ e. e ≡ fault.NoMemory };

    fn from(_e: NoMemory) -> ProveFault {
        ProveFault::NoMemory
    }
}
