//! Texts to predicates: one pass from left to right, which stops at the first offset that is due.
ghost use Rattle.std.specs.Prelude.{◌≡◌, ◌≤◌, true, length, IfOk, IfErr};
ghost use Rattle.predicate_lang.specs.Trees.{Tree, tree_of, height, fits, AreTexts};
ghost use Rattle.predicate_lang.specs.Places.{Means, ReadsTree, IsWhereFault, IsWithin};
ghost use Rattle.predicate_lang.specs.Building.{build_of};
ghost use Rattle.predicate_lang.specs.Reads.{HasRead};
ghost use Rattle.predicate_lang.specs.Steps.{Steps, Ends};
ghost use Rattle.predicate_lang.specs.Machine.{start};

use crate::building::State;
use crate::lexing::next_token;
use crate::tokens::Lexeme;
use crate::trees::{Pred, WhereFault};
use schema_json::Schema;
use std::alloc::Global;

// How many tokens a predicate may have.
const MOST_TOKENS: usize = 512;

// What one token more leads to: the offset after it, or the predicate at the end.
#[derive(Drop)]
enum Step {
    More(usize),
    Whole(Pred),
}

// Takes the next token, or ends if there is none.
fn take_token(
    alloc: Global,
    schema: &Schema,
    text: &str,
    from: usize,
    count: usize,
    state: &mut State,
) -> Result<Step, WhereFault>
    requires short { length text.now ≤ 16384 }
    requires inside { from ≤ length text.now }
    requires few { count ≤ 512 }
    requires read { HasRead schema.now.columns text.now from count (build_of state.old) }
    ensures { Steps schema.now.columns text.now from count (build_of state.new) result }
{
    match next_token(alloc, schema, text, from)? {
        Some(Lexeme { token, at, end }) => {
            if count == MOST_TOKENS {
                return Err(WhereFault::Bad { at });
            }
            state.put(alloc, schema, token, at)?;
            Ok(Step::More(end))
        }
        None => Ok(Step::Whole(state.finish(alloc, text.len() as u32)?)),
    }
}

// Takes each token of a text from the first on.
fn take_tokens(
    alloc: Global,
    schema: &Schema,
    text: &str,
    state: &mut State,
) -> Result<Pred, WhereFault>
    requires short { length text.now ≤ 16384 }
    requires first { build_of state.old ≡ start }
    ensures { Ends schema.now.columns text.now result }
{
    let mut from = 0usize;
    let mut count = 0usize;
    'tokens: loop {
        match take_token(alloc, schema, text, from, count, state)? {
            Step::More(end) => {
                from = end;
                count += 1;
            }
            Step::Whole(p) => return Ok(p),
        }
    }
}

/// The predicate that a text means, by the grammar of docs/FORMATS.md. A refusal names the byte at which the text
/// goes wrong: a name that isn't a public column, a token that doesn't fit there, the `not` or bracket that is one too
/// deep, token 513, a byte at which no token begins, or the end of the text.
pub fn read_where(alloc: Global, schema: &Schema, text: &str) -> Result<Pred, WhereFault>
    requires { length text.now ≤ 16384 }
    // What is read is what the text means.
    ensures found { IfOk result (λ p. Means schema.now.columns text.now (tree_of p)) }
    // What a text means is read, and no text means two trees.
    ensures only { (t : Tree) → Means schema.now.columns text.now t → ReadsTree t result }
    // A refusal names the least offset that applies.
    ensures place { IfErr result (IsWhereFault schema.now.columns text.now) }
    // It is an offset of the text, or its end.
    ensures within { IfErr result (IsWithin (length text.now)) }
    // Each predicate that is read fits the schema.
    ensures fitting { IfOk result (λ p. fits schema.now.columns (tree_of p) ≡ true) }
    // It is at most as deep as a text may have tokens.
    ensures shallow { IfOk result (λ p. height (tree_of p) ≤ 512) }
    // Its texts are UTF-8.
    ensures texts { IfOk result (λ p. AreTexts (tree_of p)) }
{
    let mut state = State::new(alloc);
    take_tokens(alloc, schema, text, &mut state)
}
