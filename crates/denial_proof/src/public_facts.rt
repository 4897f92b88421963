//! What a proof is about.
ghost use Rattle.std.specs.Prelude.{◌≡◌};
ghost use Rattle.std.specs.List.{AllByRecursion};
ghost use Rattle.std.proofs.Props.{props};

use audit_types::{Answered, Asked, Guard};

/// A question, and what is public when it is asked: the number of rows of the table, the records, and what is guarded.
#[derive(Clone, Copy)]
pub(crate) struct PublicFacts<'a> {
    pub(crate) n: u16,
    pub(crate) history: &'a [Answered],
    pub(crate) protected: &'a Guard,
    pub(crate) asked: &'a Asked,
    ghost records: { AllByRecursion (λ r. r.rows.n ≡ n) history.now } by { Prim.hlevel props },
    ghost entries: { AllByRecursion (λ p. p.rows.n ≡ n) protected.now.groups } by { Prim.hlevel props },
    ghost same_n: { asked.now.rows.n ≡ n },
}
