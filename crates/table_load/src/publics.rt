//! The public part of a table.
ghost use Rattle.std.specs.Prelude.{◌≡◌, ◌<◌, ◌≤◌, ◌<ℤ◌, cond, false, drop, length, map, option_map, pos, unsigned_abs, unwrap_or, IfOk, IfSome, []};
ghost use Rattle.std.specs.List.{AllByRecursion};
ghost use Rattle.std.specs.Vec.Iter.{into_iter_items};
ghost use Rattle.audit_types.specs.Limits.{most_rows};
ghost use Rattle.schema_json.specs.Columns.{is_secret};
ghost use Rattle.table_load.specs.Kept.{cells_kept, public_with};
ghost use Rattle.table_load.specs.Cells.{AreLists, AreNumbers, FitsSchema, IsPublic, first_list, hidden, numbers, numbered, number_of_cell, text_of_cell, cells_at, counts_of, numbers_of, whole, HasNumbers, HasTexts};

use audit_types::NoMemory;
use schema_json::{Role, Schema};
use std::alloc::Global;
use std::marker::Model;
use std::vec::IntoIter;

/// A column of a table, as everybody may see it.
#[derive(Drop)]
pub enum Column {
    Hidden,
    Numbers(Vec<i64>),
    Texts(Vec<Vec<u8>>),
}

/// The public part of a table: its columns by their places in the schema; a secret one shows nothing.
#[derive(Drop)]
pub struct Public {
    rows: u16,
    columns: Vec<Column>,
}

impl Model for Public {
    ghost use Rattle.table_load.specs.Cells.{PublicView};

    ghost Value = { PublicView };

    ghost use Rattle.table_load.specs.Kept.{public_view, IsKeptPublic};

    ghost view = { public_view };

    ghost invariant = { IsKeptPublic };
}

// How many rows lists have: as many as the first of them.
fn rows_in(lists: &[Vec<i64>]) -> u16
    requires { length (first_list (map (λ v. v.items) lists.now)) ≤ most_rows }
    ensures { result ≡ length (first_list (map (λ v. v.items) lists.now)) }
{
    match lists.first() {
        Some(list) => list.len() as u16,
        None => 0,
    }
}

// The column of a role: a secret one shows nothing, a public one has the next of the lists that are left.
fn next_column(role: Role, left: &mut IntoIter<Vec<i64>>) -> Column
    requires { is_secret role ≡ false → 0 < length (into_iter_items left.old) }
    ensures column { cells_kept result ≡
        cond (is_secret role) hidden (numbers (first_list (map (λ v. v.items) (into_iter_items left.old)))) }
    ensures left { into_iter_items left.new ≡
        cond (is_secret role) (into_iter_items left.old) (drop 1 (into_iter_items left.old)) }
{
    if role.is_secret() {
        return Column::Hidden;
    }
    match left.next() {
        Some(list) => Column::Numbers(list),
        None => unreachable!(),
    }
}

impl Public {
    // The public part that keeps these columns.
    pub(crate) fn of(rows: u16, columns: Vec<Column>) -> Public
        requires { IsPublic (public_with rows columns.items) }
        ensures { result ≡ public_with rows columns.items }
    {
        Public { rows, columns }
    }

    /// The public part with these lists, one for each public column in order, if all public columns hold numbers. On
    /// refusal the lists are dropped.
    pub fn of_numbers(
        alloc: Global,
        schema: &Schema,
        lists: Vec<Vec<i64>>,
    ) -> Result<Public, NoMemory>
        requires { AreLists schema.now.columns (map (λ v. v.items) lists.items) }
        ensures rows { IfOk result (λ p. p.rows ≡ length (first_list (map (λ v. v.items) lists.items))) }
        ensures columns { IfOk result (λ p. p.columns ≡ numbered schema.now.columns (map (λ v. v.items) lists.items)) }
        ensures whole { IfOk result (λ p. whole p ≡ p) }
        ensures fits { IfOk result (λ p. FitsSchema schema.now.columns p) }
    {
        let rows = rows_in(lists.as_slice());
        let mut columns = Vec::new(alloc);
        let mut left = lists.into_iter();
        for place in 0..schema.count() {
            columns.push(next_column(schema.role(place), &mut left))?;
        }
        Ok(Public::of(rows, columns))
    }

    /// How many rows the table has.
    pub fn rows(&self) -> u16
        ensures rows { result ≡ self.now.rows }
        ensures is { IsPublic self.now }
        ensures whole { whole self.now ≡ self.now }
    {
        self.rows
    }

    /// The columns, by their places in the schema.
    pub fn columns(&self) -> &[Column]
        ensures { map cells_kept result.now ≡ self.now.columns }
    {
        self.columns.as_slice()
    }

    /// How many people each row stands for, from 1 to 10^12; none if no column says so, and each row is one person.
    pub fn counts(&self, schema: &Schema) -> Option<&[i64]>
        requires { FitsSchema schema.now.columns self.now }
        ensures counts { unwrap_or (option_map (λ list. map unsigned_abs list.now) result) [] ≡ counts_of schema.now.columns self.now }
        ensures numbers { IfSome result (λ list. AreNumbers self.now.rows list.now) }
        ensures above { IfSome result (λ list. AllByRecursion (λ z. pos 0 <ℤ z) list.now) }
    {
        match schema.people() {
            Some(place) => Some(self.numbers(place)),
            None => None,
        }
    }

    // The numbers of a column of numbers.
    fn numbers(&self, place: u8) -> &[i64]
        requires { HasNumbers (cells_at self.now place) }
        ensures numbers { result.now ≡ numbers_of (cells_at self.now place) }
        ensures public { IsPublic self.now }
    {
        match self.columns.get(place as usize) {
            Some(Column::Numbers(list)) => list.as_slice(),
            _ => unreachable!(),
        }
    }

    /// A number of a column of numbers, by the column's place in the schema.
    pub fn number(&self, place: u8, row: u16) -> i64
        requires column { HasNumbers (cells_at self.now place) }
        requires row { row < self.now.rows }
        ensures { result ≡ number_of_cell self.now place row }
    {
        match self.columns.get(place as usize) {
            Some(Column::Numbers(list)) => list[row as usize],
            _ => unreachable!(),
        }
    }

    /// The bytes of a column of texts, by the column's place in the schema.
    pub fn text(&self, place: u8, row: u16) -> &[u8]
        requires column { HasTexts (cells_at self.now place) }
        requires row { row < self.now.rows }
        ensures { result.now ≡ text_of_cell self.now place row }
    {
        match self.columns.get(place as usize) {
            Some(Column::Texts(list)) => list[row as usize].as_slice(),
            _ => unreachable!(),
        }
    }
}
