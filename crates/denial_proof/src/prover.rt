//! The proofs of one column, over a history that stays.
ghost use Rattle.std.specs.Prelude.{◌≡◌, ◌<◌, Err, IfOk};
ghost use Rattle.audit_types.specs.declared.records.Verdict.TheVariants.{DeniedUnsafe};
ghost use Rattle.audit_types.specs.Shapes.{columns};
ghost use Rattle.audit_types.specs.History.{FitsShape, IsDecisionAfter};
ghost use Rattle.denial_proof.specs.Certificates.{IsProof};
ghost use Rattle.denial_proof.specs.Canonical.{IsCanonical, IsTooWide};
ghost use Rattle.denial_proof.specs.Denied.{IsLegalIn};
ghost use Rattle.denial_proof.specs.Provers.{IsProverOf};

use crate::denied::{denied_maxima, denied_sums, legal_sums};
use crate::marks::{Marks, marks_of};
use crate::maxima::prove_max;
use crate::proof_parts::{Proof, ProveFault};
use crate::public_facts::PublicFacts;
use crate::sums::prove_sum;
use audit_core::{ColumnRef, Core};
use audit_types::{Asked, NoMemory};
use std::alloc::Global;

// What the history determines, by the kind of the column.
#[derive(Drop)]
pub(crate) enum Preparation {
    Sums(Marks),
    // The candidates for an answer, in ascending order.
    Maxima(Vec<i128>),
}

/// What the history alone determines for the proofs of one column. It is made once, for all questions of the column after the
/// same history.
#[derive(Drop)]
pub struct Prover {
    column: u8,
    preparation: Preparation,
    alloc: Global,
}

impl Prover {
    /// Prepares the proofs of a column.
    pub fn new(alloc: Global, core: &Core, column: u8) -> Result<Prover, NoMemory>
        requires legal { IsLegalIn core.now.setting core.now.history }
        requires column { column < columns core.now.setting.shape }
        ensures prover { IfOk result (IsProverOf core.now.setting core.now.history) }
        ensures column { IfOk result (λ prover. prover.column ≡ column) }
    {
        legal_sums();
        // A core says of what is guarded that it fits the table.
        let people = core.protected().rows();
        let history = core.history();
        let preparation = match core.column(column) {
            ColumnRef::Sum(sums) => {
                let marks = marks_of(alloc, sums.n(), people.askers(), history, column)?;
                Preparation::Sums(marks)
            },
            ColumnRef::Max(maxima) => Preparation::Maxima(maxima.candidates()?),
        };
        Ok(Prover {
            column,
            preparation,
            alloc,
        })
    }

    /// The column whose proofs it gives.
    pub fn column(&self) -> u8
        ensures { result ≡ self.now.column }
    {
        self.column
    }

    /// The canonical proof of a question that is denied as unsafe. `check_proof` says yes to it.
    pub fn prove(&self, core: &Core, asked: &Asked) -> Result<Proof, ProveFault>
        requires prover { IsProverOf core.now.setting core.now.history self.now }
        requires column { asked.now.column ≡ self.now.column }
        requires legal { IsLegalIn core.now.setting core.now.history }
        requires question { FitsShape core.now.setting.shape asked.now.column asked.now.rows }
        requires denied { IsDecisionAfter core.now.setting core.now.history asked.now.column asked.now.rows.list DeniedUnsafe }
        ensures canonical { IfOk result (IsCanonical core.now.setting core.now.history asked.now) }
        ensures proof { IfOk result (IsProof core.now.setting core.now.history asked.now) }

        // There is none exactly if it is too wide.
        ensures wide { result ≡ Err ProveFault.Wide → IsTooWide core.now.setting core.now.history asked.now }
        ensures narrow { IfOk result (λ proof. ¬ (IsTooWide core.now.setting core.now.history asked.now)) }
    {
        denied_sums();
        denied_maxima();
        let history = core.history();
        let protected = core.protected();
        match (core.column(asked.column), &self.preparation) {
            (ColumnRef::Sum(sums), Preparation::Sums(marks)) => {
                let facts = PublicFacts {
                    n: sums.n(),
                    history,
                    protected,
                    asked,
                };
                prove_sum(self.alloc, sums, marks, &facts)
            }
            (ColumnRef::Max(maxima), Preparation::Maxima(candidates)) => {
                let people = protected.rows().over(self.alloc, asked.rows.n())?;
                Ok(prove_max(self.alloc, maxima, candidates, &people, history, asked)?)
            }
            _ => unreachable!(),
        }
    }
}
