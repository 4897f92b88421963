//! The answered maxima of one column, with what they say of each row.
ghost use Rattle.std.specs.Prelude.{◌≡◌, ◌≢◌, ◌↔◌, ℕ, ◌+◌, ◌^◌, ◌<◌, ◌≤◌, pos, neg_ℤ, ◌≤ℤ◌, [], Some, IfOk, OnOk, OnErr, IsTrue, length, slice_get, vec_len, vec_capacity};
ghost use Rattle.audit_types.specs.Limits.{most_rows};
ghost use Rattle.audit_types.specs.Column.{Answer};
ghost use Rattle.audit_types.specs.Extremes.{upper_bound, extremes, IsConsistent, IsLeastLone};
ghost use Rattle.std.specs.List.{AllByRecursion};
ghost use Rattle.max_bounds.specs.Maxima.{Maxima, answers_of, and_answer, HasSpace};
ghost use Rattle.max_bounds.specs.Few.{HasFewPeople, IsFewByExtremes};
ghost use Rattle.max_bounds.specs.Outside.{HasExtremesWithin, IsLeastOwnLone};
ghost use Rattle.max_bounds.specs.Kept.{extreme_counts};
ghost use Rattle.max_bounds.specs.Marks.{marks_of, HaveRoom};
ghost use Rattle.max_bounds.specs.declared.marks.Marking.{Marking};

use crate::answered::AnsweredMax;
use crate::answered_maxima::AnsweredMaxima;
use crate::few::nearly_holds;
use crate::high_rows::{HighRows, few_highest_of, reach_high, renew_high};
use crate::kept::{fall, insert};
use crate::lone_rows::least_lone;
use crate::marks::Marks;
use crate::people::enough;
use crate::reach::settle;
use crate::within::has_within;
use audit_types::{CountedRows, NoMemory, RowSet};
use std::alloc::Global;
use std::marker::Model;

/// The answered maxima of a column, in order.
#[derive(Drop)]
pub struct Bounds {
    n: u16,
    pairs: AnsweredMaxima,
    // The bound of each row.
    upper: Vec<Option<i64>>,
    // The number of extreme rows of each pair, and the least of these numbers.
    counts: Vec<u16>,
    fewest: u16,
    // Extreme rows of pairs, with their answer, in descending order of answers. Each pair has such a set of its own answer and
    // with no other rows.
    least: AnsweredMaxima,
    // The marks of these sets.
    marks: Marks,
    // The rows with high bounds, for cuts in descending order. Most questions are told by them alone.
    high: Vec<HighRows>,
}

impl Model for Bounds {
    ghost use Rattle.max_bounds.specs.Maxima.{Maxima, answers_of};
    ghost use Rattle.max_bounds.specs.Kept.{IsKept};

    ghost Value = { Maxima };

    ghost view = { λ b. record { n = b.n; answers = answers_of b.pairs.items } };

    ghost invariant = { IsKept };
}

// Makes room for one answer more.
fn make_room(
    pairs: &mut AnsweredMaxima,
    counts: &mut Vec<u16>,
    least: &mut AnsweredMaxima,
    marks: &mut Marks,
) -> Result<(), NoMemory>
    ensures pairs_n { pairs.new.n ≡ pairs.old.n }
    ensures least_n { least.new.n ≡ least.old.n }
    ensures pairs { pairs.new.items ≡ pairs.old.items }
    ensures counts { counts.new.items ≡ counts.old.items }
    ensures least { least.new.items ≡ least.old.items }
    ensures marks { (marking : Marking) → marks_of marking marks.new ≡ marks_of marking marks.old }
    ensures pairs_room { OnOk result (HasSpace pairs.new) }
    ensures counts_room { OnOk result (vec_len counts.new < vec_capacity counts.new) }
    ensures least_room { OnOk result (HasSpace least.new) }
    ensures marks_room { OnOk result (HaveRoom marks.new) }
{
    pairs.reserve()?;
    counts.reserve(1)?;
    least.reserve()?;
    marks.reserve()?;
    Ok(())
}

impl Bounds {
    /// No answers yet, over n rows.
    pub fn new(alloc: Global, n: u16) -> Result<Bounds, NoMemory>
        requires some { 0 < n }
        requires at_most { n ≤ most_rows }
        ensures { IfOk result (λ bounds. bounds ≡ record { n = n; answers = [] }) }
    {
        let upper = vec![in alloc; None; n as usize]?;
        Ok(Bounds {
            n,
            pairs: AnsweredMaxima::new(alloc, n),
            upper,
            counts: Vec::new(alloc),
            fewest: u16::MAX,
            least: AnsweredMaxima::new(alloc, n),
            marks: Marks::new(alloc),
            high: Vec::new(alloc),
        })
    }

    /// How many rows the table has.
    pub fn n(&self) -> u16
        ensures exact { result ≡ self.now.n }
        ensures at_most { self.now.n ≤ most_rows }
    {
        self.n
    }

    /// Puts an answer after the others. On `NoMemory` nothing changes.
    pub fn add(&mut self, rows: &RowSet, answer: i64) -> Result<(), NoMemory>
        requires same_n { rows.now.n ≡ self.old.n }
        requires some { rows.now.list ≢ [] }
        ensures ok { OnOk result (self.new ≡ record self.old { answers = and_answer self.old.answers rows.now.list answer }) }
        ensures err { OnErr result (self.new ≡ self.old) }
    {
        // A set says of its n that no row is past it.
        let _ = rows.n();
        make_room(
            &mut self.pairs,
            &mut self.counts,
            &mut self.least,
            &mut self.marks,
        )?;
        let latest = AnsweredMax {
            rows: *rows,
            answer,
        };
        let affected = reach_high(&self.high, &self.upper, rows, answer);
        let fewest = fall(
            &mut self.counts,
            self.fewest,
            &mut self.least,
            &mut self.marks,
            &self.pairs,
            &self.upper,
            &latest,
            &affected.falling,
        );
        settle(&mut self.upper, &affected, answer);
        let count = affected.extremes.len();
        self.fewest = fewest.min(count);
        self.counts.push_reserved(count);
        insert(
            &mut self.least,
            &mut self.marks,
            &affected.extremes,
            &latest,
            &self.pairs,
        );
        let last = self.pairs.len();
        self.pairs.insert_reserved(last, rows, answer);
        renew_high(&mut self.high, &self.upper, &affected, rows, answer);
        Ok(())
    }

    /// The answers, in order.
    pub fn pairs(&self) -> &AnsweredMaxima
        ensures answers { answers_of result.now.items ≡ self.now.answers }
        ensures same_n { AllByRecursion (λ p. p.rows.n ≡ self.now.n) result.now.items }
    {
        &self.pairs
    }

    /// The number of extreme rows of each answer, in order. It takes no memory.
    pub fn counts(&self) -> &[u16]
        ensures { result.now ≡ extreme_counts self.now.answers }
    {
        &self.counts
    }

    /// The upper bound of a row: the least answer among the sets that hold it.
    pub fn upper(&self, row: u16) -> Option<i64>
        requires { row < self.now.n }
        ensures { result ≡ upper_bound self.now.answers row }
    {
        self.upper[row as usize]
    }

    /// How many rows of answer k are extreme: have this answer as their upper bound.
    pub fn extremes(&self, k: u32) -> u16
        requires { k < length self.now.answers }
        ensures { (a : Answer) → slice_get self.now.answers k ≡ Some a → result ≡ length (extremes self.now.answers a) }
    {
        self.counts[k as usize]
    }

    /// Whether each answer has an extreme row: some table gives them all exactly then.
    pub fn consistent(&self) -> bool
        ensures { IsTrue result ↔ IsConsistent self.now.answers }
    {
        self.fewest > 0
    }

    /// The least row that is the only extreme row of some answer.
    pub fn lone_extreme(&self) -> Option<u16>
        ensures { IsLeastLone self.now.answers result }
    {
        if self.fewest > 1 {
            // Each answer has two extreme rows or more.
            return None;
        }
        least_lone(&self.pairs)
    }

    /// Whether all extreme rows of some answer with this number are in the set. It takes no memory.
    pub fn has_extremes_within(&self, rows: &RowSet, answer: i64) -> bool
        requires same_n { rows.now.n ≡ self.now.n }
        ensures { IsTrue result ↔ HasExtremesWithin self.now.answers rows.now.list answer }
    {
        has_within(&self.least, &self.marks, rows, answer)
    }

    // Whether few people stand behind the extreme rows of some answer, if each answer has one.
    fn has_few(&self, people: &CountedRows) -> bool
        requires people { people.now.n ≡ self.now.n }
        requires consistent { IsConsistent self.now.answers }
        ensures { IsTrue result ↔ HasFewPeople people.now.people self.now.answers }
    {
        // The people say of themselves that somebody stands behind each row.
        let n = people.n();
        if enough(people) <= self.fewest as u64 {
            return false;
        }
        // All rows of a set are left by a question on no row.
        let none = RowSet::new(n);
        nearly_holds(&self.least, &self.marks, &none, people)
    }

    /// Whether some answer to a question on these rows would be possible and leave few people behind the extreme rows of some answer, told from
    /// the extreme rows of the answers before it. It takes no memory.
    pub fn leaves_few(&self, rows: &RowSet, people: &CountedRows) -> bool
        requires same_n { rows.now.n ≡ self.now.n }
        requires people { people.now.n ≡ self.now.n }
        ensures { IsTrue result ↔ IsFewByExtremes people.now.people self.now.answers rows.now.list }
    {
        if self.fewest == 0 {
            // Some answer has no extreme row: no table gives them all.
            return false;
        }
        if self.has_few(people) {
            return true;
        }
        few_highest_of(&self.high, &self.upper, rows, people)
            || nearly_holds(&self.least, &self.marks, rows, people)
    }
}
