//! The words of one set among those of many, of which each has as many as the rows of its table take.
ghost use Rattle.std.specs.Prelude.{◌≡◌, ◌↔◌, ℕ, ◌+◌, ◌-◌, ◌*◌, ◌<◌, ◌≤◌, ◌++◌, IsTrue, length, take, drop, slice_index, bit_and};
ghost use Rattle.audit_types.specs.Limits.{most_words};
ghost use Rattle.audit_types.specs.PackedWords.{words_at};

use crate::words::MOST_WORDS;

/// The words of the set at a place.
pub(crate) fn words_at(words: &[u64], width: usize, k: usize) -> &[u64]
    requires { k * width + width ≤ length words.now }
    ensures { result.now ≡ words_at width words.now k }
{
    let start = k * width;
    &words[start..start + width]
}

/// Words as those of a set alone: past their last there is no bit.
pub(crate) fn unpack(words: &[u64]) -> [u64; MOST_WORDS]
    requires { length words.now ≤ most_words }
    ensures words_are { length result ≡ most_words }
    ensures same { (k : ℕ) → slice_index result k ≡ slice_index words.now k }
{
    let mut unpacked = [0; MOST_WORDS];
    for k in 0..words.len() {
        unpacked[k] = words[k];
    }
    unpacked
}

/// The words of a set, from this place on, become each the `&` with another's.
pub(crate) fn and_packed(words: &mut [u64], start: usize, width: usize, others: &[u64; MOST_WORDS])
    requires width { width ≤ most_words }
    requires within { start + width ≤ length words.old }
    ensures words_are { length words.new ≡ length words.old }
    ensures both { (j : ℕ) → j < width → slice_index words.new (start + j) ≡ bit_and (slice_index words.old (start + j)) (slice_index others.now j) }
    ensures before { (i : ℕ) → i < start → slice_index words.new i ≡ slice_index words.old i }
    ensures after { (i : ℕ) → start + width ≤ i → slice_index words.new i ≡ slice_index words.old i }
{
    for j in 0..width {
        words[start + j] &= others[j];
    }
}

/// Brings the last words to a place before the others from there on.
pub(crate) fn bring_back(words: &mut [u64], start: usize, width: usize)
    requires { start + width ≤ length words.old }
    ensures words_are { length words.new ≡ length words.old }
    ensures turned { words.new ≡ take start words.old ++ (drop (length words.old - width) words.old ++ take (length words.old - width - start) (drop start words.old)) }
{
    words[start..].rotate_right(width);
}

/// Whether no word has a bit of the other.
pub(crate) fn are_apart(words: &[u64], others: &[u64; MOST_WORDS]) -> bool
    requires { length words.now ≤ most_words }
    ensures { IsTrue result ↔ ((k : ℕ) → k < length words.now → bit_and (slice_index words.now k) (slice_index others.now k) ≡ 0) }
{
    for k in 0..words.len() {
        if words[k] & others[k] != 0 {
            return false;
        }
    }
    true
}

/// The words of a set become each the `&` of two others'. Those past the last of the first stay.
pub(crate) fn put_shared(shared: &mut [u64; MOST_WORDS], words: &[u64], others: &[u64; MOST_WORDS])
    requires { length words.now ≤ most_words }
    ensures words_are { length shared.new ≡ most_words }
    ensures both { (k : ℕ) → k < length words.now → slice_index shared.new k ≡ bit_and (slice_index words.now k) (slice_index others.now k) }
    ensures after { (k : ℕ) → length words.now ≤ k → slice_index shared.new k ≡ slice_index shared.old k }
{
    for k in 0..words.len() {
        shared[k] = words[k] & others[k];
    }
}
