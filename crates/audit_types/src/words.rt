//! Words of 64 bits, a bit for each row: bit i of word k is row 64 k + i. A walk over them goes over those that n takes.
ghost use Rattle.std.specs.Prelude.{◌≡◌, ◌≢◌, ℕ, ◌+◌, ◌-◌, ◌*◌, ◌/◌, ◌^◌, ◌<◌, ◌≤◌, length, min, take, slice_index, bit_and, bit_or};
ghost use Rattle.std.specs.Int.{bit_not, w64};
ghost use Rattle.audit_types.specs.Limits.{most_rows, most_words};
ghost use Rattle.audit_types.specs.Rows.{rows_that};
ghost use Rattle.audit_types.specs.Words.{AreWords, has_bit, row_mask, words_over};

use crate::MOST_ROWS;

/// The words of a set: each has the bits of 64 rows.
pub(crate) const MOST_WORDS: usize = MOST_ROWS as usize / 64;

/// How many words n rows take.
pub(crate) fn words_over(n: u16) -> usize
    requires { n ≤ most_rows }
    ensures { result ≡ words_over n }
{
    (n as usize + 63) / 64
}

// The words that n rows take. All others are 0.
pub(crate) fn used_words(words: &[u64; MOST_WORDS], n: u16) -> &[u64]
    requires { AreWords n words.now }
    ensures first { result.now ≡ take (words_over n) words.now }
    ensures long { length result.now ≡ words_over n }
{
    &words[..words_over(n)]
}

// Each word becomes the `&` of the two.
pub(crate) fn and_words(words: &mut [u64; MOST_WORDS], others: &[u64; MOST_WORDS], n: u16)
    requires { AreWords n words.old }
    ensures words_are { length words.new ≡ most_words }
    ensures both { (k : ℕ) → k < most_words → slice_index words.new k ≡ bit_and (slice_index words.old k) (slice_index others.now k) }
{
    for k in 0..words_over(n) {
        words[k] &= others[k];
    }
}

// Each word becomes the `|` of the two.
pub(crate) fn or_words(words: &mut [u64; MOST_WORDS], others: &[u64; MOST_WORDS], n: u16)
    requires words { AreWords n words.old }
    requires others { AreWords n others.now }
    ensures words_are { length words.new ≡ most_words }
    ensures either { (k : ℕ) → k < most_words → slice_index words.new k ≡ bit_or (slice_index words.old k) (slice_index others.now k) }
{
    for k in 0..words_over(n) {
        words[k] |= others[k];
    }
}

// The bits of the rows below n in the word at this place.
fn mask_below(n: u16, place: usize) -> u64
    requires { place < most_words }
    ensures { result ≡ row_mask n place }
{
    let below = n.saturating_sub(64 * place as u16);
    if below < 64 {
        (1 << below) - 1
    } else {
        u64::MAX
    }
}

// Each bit of a row below n turns, and no other bit is left.
pub(crate) fn flip_words(words: &mut [u64; MOST_WORDS], n: u16)
    requires { AreWords n words.old }
    ensures words_are { length words.new ≡ most_words }
    ensures turned { (k : ℕ) → k < most_words → slice_index words.new k ≡ bit_and (bit_not w64 (slice_index words.old k)) (row_mask n k) }
{
    for k in 0..words_over(n) {
        words[k] = !words[k] & mask_below(n, k);
    }
}

// How many bits are set.
pub(crate) fn count_bits(words: &[u64; MOST_WORDS], n: u16) -> u16
    requires { AreWords n words.now }
    ensures { result ≡ length (rows_that (has_bit words.now) n) }
{
    let mut count = 0;
    for k in 0..words_over(n) {
        count += words[k].count_ones() as u16;
    }
    count
}

// The first place from here on whose word has a bit, and the number of words if none has.
pub(crate) fn first_word(words: &[u64], from: usize) -> usize
    requires { from ≤ length words.now }
    ensures from { from ≤ result }
    ensures at_most { result ≤ length words.now }
    ensures none { (k : ℕ) → from ≤ k → k < result → slice_index words.now k ≡ 0 }
    ensures some { result < length words.now → slice_index words.now result ≢ 0 }
{
    for place in from..words.len() {
        if words[place] != 0 {
            return place;
        }
    }
    words.len()
}
