//! Predicates as trees.
ghost use Rattle.std.specs.Prelude.{◌≡◌};
ghost use Rattle.predicate_lang.specs.declared.trees.WhereFault.TheVariants.{NoMemory};

use std::alloc::{AllocError, AllocFailed};
use std::marker::Model;

/// How a column is compared.
#[derive(Clone, Copy, Drop)]
pub enum Op {
    Eq,
    Ne,
    Lt,
    Le,
    Gt,
    Ge,
}

/// A text, as its bytes.
#[derive(Drop)]
pub struct Word {
    pub bytes: Vec<u8>,
}

impl Model for Word {
    ghost use Rattle.std.specs.Prelude.{ℕ, List};

    ghost Value = { List ℕ };

    ghost view = { λ w. w.bytes.items };
}

/// What a column is compared with.
#[derive(Drop)]
pub enum Literal {
    Number(i64),
    Text(Word),
}

/// What a column may be one of.
#[derive(Drop)]
pub struct Literals {
    pub list: Vec<Literal>,
}

impl Model for Literals {
    ghost use Rattle.std.specs.Prelude.{List};
    ghost use Rattle.predicate_lang.specs.declared.trees.Literal.{Literal};

    ghost Value = { List Literal };

    ghost view = { λ l. l.list.items };
}

/// A predicate. A column is named by its place in the schema.
#[derive(Drop)]
pub enum Pred {
    All,
    Not(Box<Pred>),
    And(Box<Pred>, Box<Pred>),
    Or(Box<Pred>, Box<Pred>),
    Compare {
        column: u8,
        op: Op,
        literal: Literal,
    },
    Within {
        column: u8,
        literals: Literals,
    },
}

/// Why a text isn't a predicate.
#[derive(Clone, Copy, Drop)]
pub enum WhereFault {
    Bad { at: u32 },
    NoMemory,
}

impl From<AllocError> for WhereFault {
    ghost from_gives = { λ _ e. e ≡ NoMemory };

    fn from(_e: AllocError) -> WhereFault {
        WhereFault::NoMemory
    }
}

impl<T: Drop> From<AllocFailed<T>> for WhereFault {
    ghost from_gives = { λ _ e. e ≡ NoMemory };

    fn from(_e: AllocFailed<T>) -> WhereFault {
        WhereFault::NoMemory
    }
}
