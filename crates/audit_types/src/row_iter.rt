//! A walk over the rows of a set.
ghost use Rattle.std.specs.Prelude.{◌≡◌, ◌≢◌, ◌<◌, ◌≤◌, [], length, IfNone, IfSome};
ghost use Rattle.std.specs.Iterator.{YieldsFirst, item_count};
ghost use Rattle.audit_types.specs.Limits.{most_words};
ghost use Rattle.audit_types.specs.Words.{rows_of_words};
ghost use Rattle.audit_types.specs.RowsLeft.{rows_from};

use crate::words::first_word;
use std::marker::Model;

// A place among the words, and the bits of its word that are still to come.
#[derive(Clone, Copy)]
struct Spot {
    place: usize,
    word: u64,
}

/// The rows of a set that are still to come, in ascending order: contracts see their list.
#[derive(Drop)]
pub struct RowIter<'a> {
    // The words of the set that may have a bit.
    words: &'a [u64],
    // Where the walk is: the bits of the words after it are still to come, and those that are left of its own word.
    spot: Spot,
}

impl<'a> Model for RowIter<'a> {
    ghost use Rattle.std.specs.Prelude.{List, ℕ};

    ghost Value = { List ℕ };

    ghost use Rattle.audit_types.specs.RowsLeft.{rows_left, IsWalk};

    ghost view = { rows_left };

    ghost invariant = { IsWalk };
}

impl<'a> RowIter<'a> {
    pub(crate) fn new(words: &'a [u64]) -> RowIter<'a>
        requires some { 0 < length words.now }
        requires at_most { length words.now ≤ most_words }
        ensures { result ≡ rows_of_words words.now }
    {
        RowIter {
            words,
            spot: Spot {
                place: 0,
                word: words[0],
            },
        }
    }
}

// The spot of the next bit that is still to come.
fn next_spot(words: &[u64], spot: Spot) -> Option<Spot>
    requires within { spot.place < length words.now }
    requires at_most { length words.now ≤ most_words }
    ensures none { IfNone result (rows_from words.now spot ≡ []) }
    ensures some { IfSome result (λ next. (next.place < length words.now) × (next.word ≢ 0) × (rows_from words.now next ≡ rows_from words.now spot)) }
{
    if spot.word != 0 {
        return Some(spot);
    }
    let place = first_word(words, spot.place + 1);
    if place == words.len() {
        return None;
    }
    Some(Spot {
        place,
        word: words[place],
    })
}

impl<'a> Iterator for RowIter<'a> {
    type Item = u16;

    ghost next_gives = { YieldsFirst (λ s. s) };

    ghost remaining = { item_count (λ s. s) };

    fn next(&mut self) -> Option<u16> {
        let spot = next_spot(self.words, self.spot)?;
        let bit = spot.word.trailing_zeros();
        self.spot = Spot {
            place: spot.place,
            word: spot.word & !(1 << bit),
        };
        Some(64 * spot.place as u16 + bit as u16)
    }
}
