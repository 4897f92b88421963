//! Places of sets that may have no row, or few rows, outside a question's set: those of which their marks don't show more.
ghost use Rattle.std.specs.Prelude.{◌<◌, ◌≤◌, ℕ, length, get_or, bit_and};
ghost use Rattle.std.specs.Int.Count.{ones};

/// The first place from here on, and before the end, of a set that may lie in a question's whole; the end if there is none.
pub(crate) fn next_maybe_within(marks: &[u64], from: usize, end: usize, lacking: u64) -> usize
    requires from { from ≤ end }
    requires end { end ≤ length marks.now }
    ensures later { from ≤ result }
    ensures within { result ≤ end }
    ensures shown { (k : ℕ) → from ≤ k → k < result → 1 ≤ ones (bit_and (get_or marks.now k 0) lacking) }
{
    for k in from..end {
        if marks[k] & lacking == 0 {
            return k;
        }
    }
    end
}

/// The first place from here on of a set that may leave fewer rows than enough outside a question's; the end if there is none.
pub(crate) fn next_maybe_few(marks: &[u64], from: usize, lacking: u64, enough: u64) -> usize
    requires { from ≤ length marks.now }
    ensures later { from ≤ result }
    ensures within { result ≤ length marks.now }
    ensures shown { (k : ℕ) → from ≤ k → k < result → enough ≤ ones (bit_and (get_or marks.now k 0) lacking) }
{
    for k in from..marks.len() {
        if ((marks[k] & lacking).count_ones() as u64) < enough {
            return k;
        }
    }
    marks.len()
}
