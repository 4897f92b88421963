//! The check of a proof.
ghost use Rattle.std.specs.Prelude.{◌≡◌, ◌↔◌, IsTrue, All};
ghost use Rattle.audit_types.specs.Shapes.{IsShape};
ghost use Rattle.audit_types.specs.History.{FitsShape, setting_of};
ghost use Rattle.denial_proof.specs.Certificates.{IsProof};

use crate::lone_rows::shows_row;
use crate::proof_parts::Proof;
use crate::public_facts::PublicFacts;
use crate::totals::{Total, shows_total};
use audit_types::{Answered, Asked, Guard, Kind, Shape};

/// Whether this is a proof that the question is dangerous after these records. It takes no memory.
pub fn check_proof(
    shape: &Shape,
    history: &[Answered],
    protected: &Guard,
    asked: &Asked,
    proof: &Proof,
) -> bool
    requires valid { IsShape shape.now }
    requires records { All (λ r. FitsShape shape.now r.column r.rows) history.now }
    requires entries { All (λ p. FitsShape shape.now p.column p.rows) protected.now.groups }
    requires question { FitsShape shape.now asked.now.column asked.now.rows }
    ensures exact { IsTrue result ↔ IsProof (setting_of shape.now protected.now) history.now asked.now proof.now }
{
    match proof {
        Proof::Sum {
            target,
            share,
            times,
            terms,
            asked: count,
        } => {
            let facts = PublicFacts {
                n: shape.rows,
                history,
                protected,
                asked,
            };
            let total = Total {
                target: *target,
                share: *share,
                times: *times,
                terms: &terms.list,
                count: *count,
            };
            shape.kind(asked.column) == Kind::Sum && shows_total(&facts, &total)
        }
        Proof::Max {
            answer,
            few,
            pair,
            high,
        } => {
            let people = protected.rows();
            let high = &high.list;
            shape.kind(asked.column) == Kind::Max
                && shows_row(
                    shape.rows, people, history, asked, *answer, few, *pair, high,
                )
        }
    }
}
