//! The reduced form of rows of whole numbers, kept as long as it is narrow.
ghost use Rattle.std.specs.Prelude.{◌≡◌, ◌↔◌, ℕ, ◌<◌, ◌≤◌, ◌++◌, ◌^◌, ℤ, List, pos, [], ◌∷◌, false, length, map, Ok, IfOk, OnOk, OnErr, IfSome, IfNone, IsTrue, MatchOption, slice_index_or, unsigned_abs};
ghost use Rattle.std.specs.List.{AllByRecursion};
ghost use Rattle.audit_types.specs.Limits.{most_rows, most_width};
ghost use Rattle.audit_types.specs.Form.{set_row, InSpan, IsNarrow, IsReducedForm, pivot, pivot_entries, IsLeastCommonMultiple};
ghost use Rattle.audit_types.specs.Truth.{number_at};
ghost use Rattle.sum_basis.specs.Basis.{IsLeastUnit, IsFreeList, IsWidth};
ghost use Rattle.audit_types.specs.PrimitiveLines.{times};
ghost use Rattle.sum_basis.specs.Elimination.{IsSmallForm, IsShortForm, IsRemainder, IsZeroAtPivots};
ghost use Rattle.std.specs.Vec.{vec_capacity};
ghost use Rattle.sum_basis.specs.Limits.{few_rows, most_columns, most_remainder};
ghost use Rattle.sum_basis.specs.Sparse.{row_of, IsListed, IsNew};
ghost use Rattle.sum_basis.specs.Growth.{Grows, GrowsForRows, GrowsWide, Foresees, IsLeft, IsLeftWithin, LeavesEntries, LeavesLarge, IsAsItIs, IsLeftOver, IsWeighed, LeavesNoList};
ghost use Rattle.audit_types.specs.Rows.{IsLeast};
ghost use Rattle.sum_basis.specs.RowsWith.{IsRowWith, IsPinned};
ghost use Rattle.sum_basis.specs.Ties.{ShowsTieBut};
ghost use Rattle.sum_basis.specs.declared.Grown.TheVariants.{Same, Wide};
ghost use Rattle.sum_basis.specs.declared.form.Left.TheVariants.{Large, Entries};

use crate::cleared_list::value_at;
use crate::elimination::{scale, write_bits};
use crate::growth::{common_multiple, greatest_bound, grow_rows};
use crate::looking::look_ahead;
use crate::pinned::least_pinned;
use crate::primitive_list::{are_within, make_primitive};
use crate::row_with::{RowWith, row_with_list};
use crate::short_rows::{MOST_SHORT, list_of_short, reduce_short, write_ones};
use crate::sparse::{FreeEntry, SparseRow, copy_list, copy_rows, list_of, reduce, short_list};
use crate::ties::ties_some_but;
use crate::wide_entry::WideEntry;
use crate::{Grown, Prospect};
use audit_types::{MOST_ROWS, NoMemory, RowSet};
use std::alloc::Global;
use std::marker::Model;

/// How many rows are few: a room for their numbers is cleared in next to no time.
pub(crate) const FEW_ROWS: u16 = 1_024;

// As many columns, and as many as a table may have rows.
const FEW_COLUMNS: usize = FEW_ROWS as usize;

const ROW_COLUMNS: usize = MOST_ROWS as usize;

/// The most columns of a form: one for each row of a table, and as many marks.
pub const MOST_COLUMNS: usize = 2 * MOST_ROWS as usize;

/// A reduced form that is narrow, by the width that it may have. It keeps no added row: it stands for each list of rows whose reduced form it is.
#[derive(Drop)]
pub struct Form {
    columns: u16,
    // How wide the form may be.
    width: u64,
    // The least common multiple of the pivot entries.
    common: i128,
    // No row has a bound above it.
    greatest_bound: u128,
    alloc: Global,
    rows: Vec<SparseRow>,
}

impl Model for Form {
    ghost use Rattle.sum_basis.specs.Basis.{Echelon, IsForm};
    ghost use Rattle.sum_basis.specs.Sparse.{rows_of};

    ghost Value = { Echelon };

    ghost view = { λ f. record { n = f.columns; width = f.width; rows = rows_of f.columns f.rows.items } };

    ghost invariant = { λ f. IsForm f.columns f.width f.common f.greatest_bound f.rows.items };
}

// What is left of a row when the rows of a form are taken from it.
#[derive(Drop)]
pub(crate) enum Left {
    Nothing,
    // An entry of the primitive row is above the limit, and so above the width.
    Large,
    // The list of the primitive row.
    Entries(Vec<FreeEntry>),
}

// What a row would do to a form, and the list that the form leaves of it.
#[derive(Drop)]
pub(crate) struct Weighed {
    pub prospect: Prospect,
    // None if nothing is left, or an entry above the width.
    pub list: Option<Vec<FreeEntry>>,
}

impl Form {
    /// The form of no rows, which may have this width. It takes no memory yet.
    pub fn new(alloc: Global, columns: u16, width: u64) -> Result<Form, NoMemory>
        requires some { 0 < columns }
        requires at_most { columns ≤ most_columns }
        requires width { IsWidth width }
        ensures { IfOk result (λ form. form ≡ record { n = columns; width = width; rows = [] }) }
    {
        Ok(Form {
            columns,
            width,
            common: 1,
            greatest_bound: 0,
            alloc,
            rows: Vec::new(alloc),
        })
    }

    /// A row of zeros, over the form's columns.
    pub(crate) fn zeros(&self) -> Result<Vec<i128>, NoMemory>
        ensures { IfOk result (λ row. length row.items ≡ self.now.n) }
    {
        let alloc = self.alloc;
        Ok(vec![in alloc; 0; self.columns as usize]?)
    }

    // What the form leaves of a multiple of a row of zeros and ones: zeros exactly if the row lies in the span.
    pub(crate) fn remainder(&self, row: &mut [i128])
        requires length { length row.old ≡ self.now.n }
        requires bits { (j : ℕ) → unsigned_abs (number_at row.old j) ≤ 1 }
        ensures remainder { (m : ℕ) × (0 < m) × IsRemainder self.now.rows (times (pos m) row.old) row.new }
        ensures small { (j : ℕ) → unsigned_abs (number_at row.new j) < most_remainder }
        ensures length { length row.new ≡ self.now.n }

        // What is true of every form.
        ensures form { IsSmallForm self.now.n self.now.rows }
        ensures narrow { IsNarrow self.now.width self.now.rows }
    {
        scale(row, self.common);
        reduce(row, &self.rows);
    }

    // The primitive row of what the form leaves of a row, which these entries are, if it has no entry above the limit.
    fn settle_list(&self, entries: Vec<WideEntry>, limit: u64) -> Result<Left, NoMemory>
        requires left { (v : List ℤ) × LeavesEntries self.now v entries.items }
        requires listed { IsListed 0 self.now.n entries.items }
        requires size { AllByRecursion (λ e. unsigned_abs e.value ≤ 2 ^ 126) entries.items }
        requires limit { (self.now.width ≤ limit) × (limit ≤ most_width) }
        ensures left { IfOk result (λ left. (v : List ℤ) → LeavesEntries self.now v entries.items → IsLeft self.now v left) }
        ensures within { IfOk result (λ left. IsLeftWithin self.now.n limit left) }
        ensures large { IfOk result (λ left. (v : List ℤ) → LeavesEntries self.now v entries.items → left ≡ Large → LeavesLarge self.now v limit) }
    {
        // What every form is: its rows are a form, and narrow.
        let _ = self.columns();
        let mut list = entries;
        if list.is_empty() {
            return Ok(Left::Nothing);
        }
        make_primitive(&mut list);
        if !are_within(&list, limit) {
            return Ok(Left::Large);
        }
        let kept = short_list(self.alloc, &list, self.columns)?;
        Ok(Left::Entries(kept))
    }

    // The primitive row that the form leaves of a row of zeros and ones, if it has no entry above the limit.
    pub(crate) fn settle(&self, row: &mut [i128], limit: u64) -> Result<Left, NoMemory>
        requires length { length row.old ≡ self.now.n }
        requires bits { (j : ℕ) → unsigned_abs (number_at row.old j) ≤ 1 }
        requires limit { (self.now.width ≤ limit) × (limit ≤ most_width) }
        ensures left { IfOk result (λ left. IsLeft self.now row.old left) }
        ensures within { IfOk result (λ left. IsLeftWithin self.now.n limit left) }
        ensures large { IfOk result (λ left. left ≡ Large → LeavesLarge self.now row.old limit) }

        // What is true of every form.
        ensures form { IsSmallForm self.now.n self.now.rows }
        ensures narrow { IsNarrow self.now.width self.now.rows }
    {
        self.remainder(row);
        let entries = list_of(self.alloc, row)?;
        self.settle_list(entries, limit)
    }

    // What the form would become with a row of which this is left, and the list of that.
    fn look(&self, left: Left) -> Result<Weighed, NoMemory>
        requires left { (v : List ℤ) × IsLeft self.now v left }
        requires within { IsLeftWithin self.now.n self.now.width left }
        ensures { IfOk result (λ weighed. (v : List ℤ) → IsLeft self.now v left → IsWeighed self.now v weighed) }
    {
        // What every form is: its rows are a form, and narrow.
        let _ = self.columns();
        match left {
            Left::Nothing => Ok(Weighed {
                prospect: self.as_it_is(),
                list: None,
            }),
            Left::Large => Ok(Weighed {
                prospect: Prospect::Wide,
                list: None,
            }),
            Left::Entries(new) => {
                let mut room = Vec::with_capacity(self.alloc, self.columns as usize)?;
                let prospect = look_ahead(
                    &self.rows,
                    self.columns,
                    self.width,
                    self.common,
                    self.greatest_bound,
                    &new,
                    &mut room,
                );
                Ok(Weighed {
                    prospect,
                    list: Some(new),
                })
            }
        }
    }

    /// Tells what the form would become with a row of zeros and ones, which is used up, and the list that the form leaves of it.
    pub(crate) fn weigh(&self, row: &mut [i128]) -> Result<Weighed, NoMemory>
        requires length { length row.old ≡ self.now.n }
        requires bits { (j : ℕ) → unsigned_abs (number_at row.old j) ≤ 1 }
        ensures foresees { IfOk result (λ weighed. Foresees self.now row.old weighed.prospect) }
        ensures left { IfOk result (λ weighed. IfSome weighed.list (λ list. IsLeft self.now row.old (Entries list))) }
        ensures nothing { IfOk result (λ weighed. IfNone weighed.list (LeavesNoList self.now row.old weighed.prospect)) }

        // What is true of every form.
        ensures form { IsSmallForm self.now.n self.now.rows }
        ensures narrow { IsNarrow self.now.width self.now.rows }
    {
        let left = self.settle(row, self.width)?;
        self.look(left)
    }

    /// Whether what the form leaves of a set fits 64 bits for sure.
    pub(crate) fn is_short(&self) -> bool
        ensures { IsTrue result → IsShortForm self.now.rows }
    {
        self.common == 1 && self.greatest_bound <= MOST_SHORT
    }

    // The entries that the form leaves of the row of a set, worked out in a row of zeros.
    fn short_entries(&self, row: &mut [i64], set: &RowSet) -> Result<Vec<WideEntry>, NoMemory>
        requires length { length row.old ≡ self.now.n }
        requires zeros { (j : ℕ) → number_at row.old j ≡ pos 0 }
        requires n { set.now.n ≡ self.now.n }
        requires short { IsShortForm self.now.rows }
        ensures left { IfOk result (λ entries. LeavesEntries self.now (set_row self.now.n set.now.list) entries.items) }
        ensures listed { IfOk result (λ entries. IsListed 0 self.now.n entries.items) }
        ensures size { IfOk result (λ entries. AllByRecursion (λ e. unsigned_abs e.value ≤ 2 ^ 126) entries.items) }
    {
        write_ones(row, set);
        reduce_short(row, &self.rows);
        list_of_short(self.alloc, row)
    }

    // The same, in a row of its own, with room for so many columns.
    #[inline(never)]
    fn short_entries_in<const ROOM: usize>(&self, set: &RowSet) -> Result<Vec<WideEntry>, NoMemory>
        requires room { self.now.n ≤ ROOM }
        requires at_most { ROOM ≤ most_rows }
        requires n { set.now.n ≡ self.now.n }
        requires short { IsShortForm self.now.rows }
        ensures left { IfOk result (λ entries. LeavesEntries self.now (set_row self.now.n set.now.list) entries.items) }
        ensures listed { IfOk result (λ entries. IsListed 0 self.now.n entries.items) }
        ensures size { IfOk result (λ entries. AllByRecursion (λ e. unsigned_abs e.value ≤ 2 ^ 126) entries.items) }
    {
        let mut room = [0; ROOM];
        let row = &mut room[..self.columns as usize];
        self.short_entries(row, set)
    }

    // The same, in as much room as there has to be.
    fn short_entries_of(&self, set: &RowSet) -> Result<Vec<WideEntry>, NoMemory>
        requires n { set.now.n ≡ self.now.n }
        requires at_most { self.now.n ≤ most_rows }
        requires short { IsShortForm self.now.rows }
        ensures left { IfOk result (λ entries. LeavesEntries self.now (set_row self.now.n set.now.list) entries.items) }
        ensures listed { IfOk result (λ entries. IsListed 0 self.now.n entries.items) }
        ensures size { IfOk result (λ entries. AllByRecursion (λ e. unsigned_abs e.value ≤ 2 ^ 126) entries.items) }
    {
        if self.columns <= FEW_ROWS {
            self.short_entries_in::<FEW_COLUMNS>(set)
        } else {
            self.short_entries_in::<ROW_COLUMNS>(set)
        }
    }

    /// The same as `weigh`, of the row of a set of the table's rows, by a form that leaves numbers of 64 bits.
    pub(crate) fn weigh_short(&self, set: &RowSet) -> Result<Weighed, NoMemory>
        requires n { set.now.n ≡ self.now.n }
        requires at_most { self.now.n ≤ most_rows }
        requires short { IsShortForm self.now.rows }
        ensures { IfOk result (IsWeighed self.now (set_row self.now.n set.now.list)) }
    {
        let entries = self.short_entries_of(set)?;
        let left = self.settle_list(entries, self.width)?;
        self.look(left)
    }

    // What the form is with a row of its span.
    fn as_it_is(&self) -> Prospect
        ensures { IsAsItIs self.now result }
    {
        match self.unit_row() {
            Some(_) => Prospect::Fixing,
            None => Prospect::Open,
        }
    }

    /// Adds a row of zeros and ones, which is used up, unless the form would no longer be narrow.
    pub(crate) fn join(&mut self, row: &mut [i128]) -> Result<Grown, NoMemory>
        requires length { length row.old ≡ self.old.n }
        requires bits { (j : ℕ) → unsigned_abs (number_at row.old j) ≤ 1 }
        ensures grows { IfOk result (λ grown. Grows self.old row.old grown self.new) }
        ensures n { self.new.n ≡ self.old.n }
        ensures width { self.new.width ≡ self.old.width }
        ensures err { OnErr result (self.new ≡ self.old) }
    {
        let Weighed { prospect, list } = self.weigh(row)?;
        if let Prospect::Wide = prospect {
            return Ok(Grown::Wide);
        }
        let Some(new) = list else {
            return Ok(Grown::Same);
        };
        self.insert_list(new)?;
        Ok(Grown::Added)
    }

    /// Adds a row of zeros and ones, which is used up, and with which the form is narrow, and tells whether it lay outside the span.
    pub(crate) fn insert(&mut self, row: &mut [i128]) -> Result<bool, NoMemory>
        requires length { length row.old ≡ self.old.n }
        requires bits { (j : ℕ) → unsigned_abs (number_at row.old j) ≤ 1 }
        requires narrow { ¬ (GrowsWide self.old row.old) }
        ensures reduced { OnOk result (IsReducedForm self.old.n (self.old.rows ++ row.old ∷ []) self.new.rows) }
        ensures n { self.new.n ≡ self.old.n }
        ensures width { self.new.width ≡ self.old.width }
        ensures stays { result ≡ Ok false → self.new ≡ self.old }
        ensures err { OnErr result (self.new ≡ self.old) }
    {
        let new = match self.settle(row, self.width)? {
            Left::Nothing => return Ok(false),
            Left::Large => unreachable!(),
            Left::Entries(new) => new,
        };
        self.insert_list(new)?;
        Ok(true)
    }

    /// Adds the list of a new row with which the form is narrow.
    pub(crate) fn insert_list(&mut self, new: Vec<FreeEntry>) -> Result<(), NoMemory>
        requires new { IsNew self.old.n new.items }
        requires new_room { self.old.n ≤ vec_capacity new }
        requires zero { IsZeroAtPivots self.old.rows (row_of self.old.n new.items) }
        requires narrow { ¬ (GrowsWide self.old (row_of self.old.n new.items)) }
        ensures reduced { OnOk result (IsReducedForm self.old.n (self.old.rows ++ row_of self.old.n new.items ∷ []) self.new.rows) }
        ensures n { self.new.n ≡ self.old.n }
        ensures width { self.new.width ≡ self.old.width }
        ensures err { OnErr result (self.new ≡ self.old) }
    {
        self.rows.reserve(1)?;
        let mut room = Vec::with_capacity(self.alloc, self.columns as usize)?;
        let mut combined = Vec::with_capacity(self.alloc, self.columns as usize)?;
        // The new list's memory, and the room's, are used again for the next row. The row keeps a copy, in memory that nothing longer was in.
        let list = copy_list(self.alloc, &new, self.columns)?;
        grow_rows(&mut self.rows, self.columns, list, &mut room, &mut combined);
        self.greatest_bound = greatest_bound(&self.rows);
        match common_multiple(&self.rows) {
            Some(common) => self.common = common,
            None => unreachable!(),
        }
        Ok(())
    }

    /// Adds a row of zeros and ones, unless the form would no longer be narrow.
    pub fn add(&mut self, row: &[u8]) -> Result<Grown, NoMemory>
        requires length { length row.now ≡ self.old.n }
        requires bits { AllByRecursion (λ b. b ≤ 1) row.now }
        ensures grows { IfOk result (λ grown. Grows self.old (map pos row.now) grown self.new) }
        ensures stands { IfOk result (λ grown. (rows : List (List ℤ)) → IsReducedForm self.old.n rows self.old.rows → GrowsForRows rows (map pos row.now) self.old grown self.new) }
        ensures n { self.new.n ≡ self.old.n }
        ensures width { self.new.width ≡ self.old.width }

        // Both directions of the two answers that leave the form as it is.
        ensures same { IfOk result (λ grown. (grown ≡ Same) ↔ InSpan self.old.rows (map pos row.now)) }
        ensures wide { IfOk result (λ grown. (grown ≡ Wide) ↔ GrowsWide self.old (map pos row.now)) }
        ensures err { OnErr result (self.new ≡ self.old) }
    {
        // What every form is: its rows are a form, and narrow.
        let _ = self.columns();
        let mut room = self.zeros()?;
        let whole = room.as_mut_slice();
        write_bits(whole, row);
        self.join(whole)
    }

    /// The row that has its pivot at a column, of the form with a row of zeros and ones. The form stays as it is.
    pub fn row_with(&self, row: &[u8], pivot: u16) -> Result<RowWith, NoMemory>
        requires length { length row.now ≡ self.now.n }
        requires bits { AllByRecursion (λ b. b ≤ 1) row.now }
        ensures { IfOk result (IsRowWith self.now (map pos row.now) pivot) }
    {
        // What every form is: its rows are a form, and narrow.
        let _ = self.columns();
        let mut room = self.zeros()?;
        let whole = room.as_mut_slice();
        write_bits(whole, row);
        let Weighed { prospect, list } = self.weigh(whole)?;
        if let Prospect::Wide = prospect {
            return Ok(RowWith::Wide);
        }
        let Some(new) = list else {
            return Ok(RowWith::Nothing);
        };
        row_with_list(self.alloc, self.columns, &self.rows, new, pivot)
    }

    /// The least column that isn't shared whose unit row lies in the span with the row of a new list.
    pub(crate) fn unshared_with(&self, shared: &RowSet, new: &[FreeEntry]) -> Option<u16>
        requires shared { shared.now.n ≡ self.now.n }
        requires new { IsLeftOver self.now new.now }
        ensures { (grown : List (List ℤ)) → IsReducedForm self.now.n (self.now.rows ++ row_of self.now.n new.now ∷ []) grown → IsSmallForm self.now.n grown → IsLeast (IsPinned self.now.n grown shared.now.list) result }
    {
        least_pinned(self, new, shared)
    }

    /// The least column whose unit row lies in the span.
    pub fn unit_row(&self) -> Option<u16>
        ensures { IsLeastUnit self.now result }
    {
        for row in &self.rows {
            if row.free.is_empty() {
                return Some(row.pivot);
            }
        }
        None
    }

    /// Whether the span ties a column that isn't in the first set to another one that isn't in the second: whoever knows the number at the one
    /// then knows that at the other.
    pub fn shows_tie_but(&self, beside: &RowSet, several: &RowSet) -> bool
        requires beside { beside.now.n ≡ self.now.n }
        requires several { several.now.n ≡ self.now.n }
        ensures { IsTrue result ↔ ShowsTieBut beside.now.list several.now.list self.now.rows }
    {
        ties_some_but(&self.rows, beside, several)
    }

    /// How wide the form may be.
    pub fn width(&self) -> u64
        ensures is { result ≡ self.now.width }
        ensures fits { IsWidth self.now.width }
    {
        self.width
    }

    /// The number of columns.
    pub fn columns(&self) -> u16
        ensures columns { result ≡ self.now.n }

        // What is true of every form.
        ensures some { 0 < self.now.n }
        ensures at_most { self.now.n ≤ most_columns }
        ensures fits { IsWidth self.now.width }
        ensures form { IsSmallForm self.now.n self.now.rows }
        ensures narrow { IsNarrow self.now.width self.now.rows }
    {
        self.columns
    }

    /// The number of reduced rows.
    pub fn rank(&self) -> u16
        ensures rank { result ≡ length self.now.rows }
        ensures at_most { length self.now.rows ≤ self.now.n }
        ensures fits { IsWidth self.now.width }
        ensures form { IsSmallForm self.now.n self.now.rows }
        ensures narrow { IsNarrow self.now.width self.now.rows }
    {
        self.rows.len() as u16
    }

    /// The place of the first entry of row k that is not 0.
    pub fn pivot(&self, k: u16) -> u16
        requires { k < length self.now.rows }
        ensures pivot { result ≡ pivot (slice_index_or self.now.rows k []) }
        ensures within { result < self.now.n }
    {
        self.rows[k as usize].pivot
    }

    /// What reduced row k has at a column.
    pub fn entry(&self, k: u16, column: u16) -> i128
        requires k { k < length self.now.rows }
        requires column { column < self.now.n }
        ensures { result ≡ number_at (slice_index_or self.now.rows k []) column }
    {
        let row = &self.rows[k as usize];
        if column == row.pivot {
            row.head
        } else {
            value_at(&row.free, column)
        }
    }

    /// The least common multiple of the pivot entries, 1 for no rows.
    pub fn common(&self) -> i128
        ensures { (m : ℕ) × (result ≡ pos m) × IsLeastCommonMultiple (pivot_entries self.now.rows) m × (0 < m) × (m ≤ 2 ^ 56) }
    {
        self.common
    }

    /// An equal form.
    pub fn copy(&self) -> Result<Form, NoMemory>
        ensures { IfOk result (λ form. form ≡ self.now) }
    {
        let rows = copy_rows(self.alloc, &self.rows, self.columns)?;
        Ok(Form {
            columns: self.columns,
            width: self.width,
            common: self.common,
            greatest_bound: greatest_bound(&rows),
            alloc: self.alloc,
            rows,
        })
    }

    /// The entries of reduced row k that are not 0, at the columns that are the pivot of no row, in ascending places.
    pub fn free(&self, k: u16) -> &[FreeEntry]
        requires { k < length self.now.rows }
        ensures { IsFreeList self.now.n self.now.rows (slice_index_or self.now.rows k []) result.now }
    {
        &self.rows[k as usize].free
    }
}
