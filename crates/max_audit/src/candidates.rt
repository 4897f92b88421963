//! The finitely many answers that stand for all.
ghost use Rattle.std.specs.Prelude.{◌≡◌, ◌++◌, ◌∷◌, [], IfOk, OnOk};
ghost use Rattle.std.specs.List.{All};
ghost use Rattle.max_bounds.specs.Maxima.{answers_of};
ghost use Rattle.max_audit.specs.Candidates.{AreCandidates, IsBelowAll, IsNearRange};

use audit_types::NoMemory;
use max_bounds::AnsweredMaxima;
use std::alloc::Global;

// The number below all answers, and 0 if there is none.
fn below_all(pairs: &AnsweredMaxima) -> i128
    ensures exact { IsBelowAll (answers_of pairs.now.items) result }
    ensures near { IsNearRange result }
{
    if pairs.len() == 0 {
        return 0;
    }
    let mut least = pairs.answer(0);
    for k in 0..pairs.len() {
        least = least.min(pairs.answer(k));
    }
    least as i128 - 1
}

fn push(list: &mut Vec<i128>, number: i128) -> Result<(), NoMemory>
    ensures { OnOk result (list.new.items ≡ list.old.items ++ number ∷ []) }
{
    list.push(number)?;
    Ok(())
}

/// Each earlier answer, the number above it, and the number below all; 0 if there is none.
pub(crate) fn candidates_of(alloc: Global, pairs: &AnsweredMaxima) -> Result<Vec<i128>, NoMemory>
    ensures exact { IfOk result (λ list. AreCandidates (answers_of pairs.now.items) list.items) }
    ensures near { IfOk result (λ list. All IsNearRange list.items) }
{
    let mut candidates = Vec::new(alloc);
    push(&mut candidates, below_all(pairs))?;
    for k in 0..pairs.len() {
        let answer = pairs.answer(k);
        push(&mut candidates, answer as i128)?;
        push(&mut candidates, answer as i128 + 1)?;
    }
    candidates.sort_unstable();
    candidates.dedup();
    Ok(candidates)
}
