//! Why a question is denied: a proof that its answer could give a number or a protected total away, and a plain check of such
//! a proof.
//!
//! `prove` gives the one canonical proof of a question that is denied as unsafe, unless it is too wide to print.
//! `check_proof` reads public facts alone, the records, the groups and the question, and knows nothing of how a proof was
//! made. That its yes shows the denial right is the law of `laws::proofs_show_danger`.
#![tactic(auto)]

mod checking;
mod denied;
mod few_rows;
mod heights;
mod kept;
pub mod laws;
mod lone_rows;
mod marking;
mod marks;
mod maxima;
mod numbers;
mod outlook;
mod proof_parts;
mod prover;
mod proving;
mod public_facts;
mod reaching;
mod sums;
mod targets;
mod terms;
mod totals;

pub use checking::check_proof;
pub use few_rows::FewRows;
pub use proof_parts::{Heights, OwnShare, Proof, ProveFault, Target, Term, Terms};
pub use prover::Prover;
pub use proving::prove;
