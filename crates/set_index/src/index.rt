//! The public part of a table, asked for the rows that satisfy a condition.
ghost use Rattle.std.specs.Prelude.{◌≡◌, ◌<◌, ◌≤◌, ℕ, true, [], None, Some, Err, Option, IfOk, IfSome, OnErr, option_map, length, slice_get, slice_index_or};
ghost use Rattle.std.specs.List.Sorted.{IsSorted};
ghost use Rattle.std.specs.Option.{option_to_list};
ghost use Rattle.std.specs.Ordering.{nat_cmp};
ghost use Rattle.audit_types.specs.History.{AreProtected, entry_of};
ghost use Rattle.audit_types.specs.Headcount.{headcount, people_behind};
ghost use Rattle.audit_types.specs.Limits.{most_answer, most_rows};
ghost use Rattle.audit_types.specs.Rows.{intersection, rows_that};
ghost use Rattle.schema_json.specs.Columns.{AreColumns, Group};
ghost use Rattle.predicate_lang.specs.Places.{Means};
ghost use Rattle.predicate_lang.specs.Trees.{Tree, fits, tree_of};
ghost use Rattle.table_load.specs.Cells.{FitsSchema, cells_at, counts_of, whole};
ghost use Rattle.table_load.specs.Kept.{cells_kept};
ghost use Rattle.set_index.specs.Asked.{meaning, fits_public};
ghost use Rattle.set_index.specs.Groups.{AreEntries, AsksOnly, Protects, HasNoFault, IsFirstBad, IsFirstBadGroup, IsSoundOnly, IsGroup};
ghost use Rattle.set_index.specs.Indexed.{public_counts, public_shape};
ghost use Rattle.set_index.specs.Marks.{SortsColumn};
ghost use Rattle.set_index.specs.Ordered.{IsOrder, IsShown, compare_rows};

use crate::asking::fill_rows_of;
use crate::laws::{groups_of_a_schema, reads_what_fits};
use crate::people::{counted_rows, people_by};
use crate::sorted::Sorted;
use crate::values::sort_by_value;
use audit_types::{Guard, NoMemory, Protected, RowSet};
use predicate_lang::{Pred, WhereFault, read_where};
use schema_json::{Role, Schema};
use std::alloc::Global;
use std::marker::Model;
use table_load::{Column, Public};

// The most bytes of a condition of a schema.
const MOST_CONDITION: usize = 8192;

/// A part of what a schema says is guarded.
#[derive(Clone, Copy)]
pub enum GuardPart {
    /// The condition that each row asked of has to satisfy too.
    Only,
    /// The group at a place, from 0.
    Group { place: u8 },
}

/// Why a public part wasn't made ready.
#[derive(Clone, Copy)]
pub enum IndexFault {
    /// The first part whose text is over 8,192 bytes or isn't a condition, or whose column isn't one of sums.
    Bad { part: GuardPart },
    NoMemory,
}

/// The public part of a table and the schema that it was read by, made ready for conditions: for each column the rows in ascending
/// order of value, the rows that may be asked of, if the schema says which, and what is guarded.
#[derive(Drop)]
pub struct Index {
    schema: Schema,
    public: Public,
    only: Option<RowSet>,
    protected: Guard,
    orders: Vec<Option<Sorted>>,
}

impl Model for Index {
    ghost use Rattle.set_index.specs.Indexed.{IndexView};
    ghost use Rattle.set_index.specs.KeptIndex.{IsKeptIndex, index_view};

    ghost Value = { IndexView };

    ghost view = { index_view };

    ghost invariant = { IsKeptIndex };
}

// Each row once, in ascending order.
fn all_rows(alloc: Global, rows: u16) -> Result<Vec<u16>, NoMemory>
    ensures all { IfOk result (λ list. list.items ≡ rows_that (λ r. true) rows) }
    ensures ascending { IfOk result (λ list. IsSorted nat_cmp list.items) }
{
    let mut list = Vec::new(alloc);
    for row in 0..rows {
        list.push(row)?;
    }
    Ok(list)
}

// The rows in ascending order of a column's values.
fn by_value(alloc: Global, rows: u16, column: &Column) -> Result<Sorted, NoMemory>
    requires some { 0 < rows }
    requires at_most { rows ≤ most_rows }
    ensures rows { IfOk result (λ s. s.rows ≡ rows) }
    ensures ascending { IfOk result (λ s. IsSorted (compare_rows (cells_kept column.now)) s.order) }
{
    let mut order = all_rows(alloc, rows)?;
    sort_by_value(alloc, order.as_mut_slice(), column)?;
    Sorted::new(alloc, rows, order)
}

// The rows in ascending order of a column's values, if everybody may see it.
fn sorted(alloc: Global, rows: u16, column: &Column) -> Result<Option<Sorted>, NoMemory>
    requires some { 0 < rows }
    requires at_most { rows ≤ most_rows }
    ensures { IfOk result (SortsColumn rows (cells_kept column.now)) }
{
    match column {
        Column::Hidden => Ok(None),
        Column::Numbers(_) | Column::Texts(_) => Ok(Some(by_value(alloc, rows, column)?)),
    }
}

// The rows in ascending order of each column's values.
fn sorted_columns(alloc: Global, public: &Public) -> Result<Vec<Option<Sorted>>, NoMemory>
    ensures { IfOk result (λ list. (place : ℕ) → SortsColumn public.now.rows (cells_at public.now place) (slice_index_or list.items place None)) }
{
    let rows = public.rows();
    let mut columns = Vec::new(alloc);
    for column in public.columns() {
        columns.push(sorted(alloc, rows, column)?)?;
    }
    Ok(columns)
}

// What a text means as the condition of a part.
fn condition(
    alloc: Global,
    schema: &Schema,
    text: &str,
    part: GuardPart,
) -> Result<Pred, IndexFault>
    ensures short { IfOk result (λ pred. length text.now ≤ 8192) }
    ensures means { IfOk result (λ pred. Means schema.now.columns text.now (tree_of pred)) }
    ensures fits { IfOk result (λ pred. fits schema.now.columns (tree_of pred) ≡ true) }
    ensures bad { (at : GuardPart) → result ≡ Err (IndexFault.Bad at) → (at ≡ part) × ((t : Tree) → length text.now ≤ 8192 → ¬ (Means schema.now.columns text.now t)) }
{
    if text.len() > MOST_CONDITION {
        return Err(IndexFault::Bad { part });
    }
    match read_where(alloc, schema, text) {
        Ok(pred) => Ok(pred),
        Err(WhereFault::NoMemory) => Err(IndexFault::NoMemory),
        Err(WhereFault::Bad { .. }) => Err(IndexFault::Bad { part }),
    }
}

// The rows that may be asked of, if the schema says which.
fn only_rows(alloc: Global, schema: &Schema, index: &Index) -> Result<Option<RowSet>, IndexFault>
    requires fits { FitsSchema schema.now.columns index.now.public }
    requires whole { index.now.public.only ≡ None }
    ensures n { IfOk result (λ only. IfSome only (λ rows. rows.n ≡ index.now.public.rows)) }
    ensures asks { IfOk result (λ only. AsksOnly schema.now.columns schema.now.guards.only (record index.now.public { only = option_map (λ rows. rows.list) only })) }
    ensures bad { (at : GuardPart) → result ≡ Err (IndexFault.Bad at) → (at ≡ GuardPart.Only) × ¬ (IsSoundOnly schema.now.columns schema.now.guards.only) }
{
    reads_what_fits();
    match schema.only() {
        Some(text) => {
            let pred = condition(alloc, schema, text, GuardPart::Only)?;
            Ok(Some(index.rows_of(&pred)))
        }
        None => Ok(None),
    }
}

// The place among the secret columns of a group's column, and its condition.
fn group_at(alloc: Global, schema: &Schema, place: u8) -> Result<(u8, Pred), IndexFault>
    requires { place < length schema.now.guards.groups }
    ensures ok { IfOk result (λ found. (group : Group) → slice_get schema.now.guards.groups place ≡ Some group → IsGroup schema.now.columns group found.0 (tree_of found.1)) }
    ensures bad { (at : GuardPart) → result ≡ Err (IndexFault.Bad at) → (at ≡ GuardPart.Group place) × ((group : Group) → slice_get schema.now.guards.groups place ≡ Some group → ¬ (HasNoFault schema.now.columns group)) }
    ensures fits { IfOk result (λ found. fits schema.now.columns (tree_of found.1) ≡ true) }
{
    let part = GuardPart::Group { place };
    let bad = IndexFault::Bad { part };
    let Some(column) = schema.find(schema.group_column(place)) else {
        return Err(bad);
    };
    let (Role::Sum, Some(secret)) = (schema.role(column), schema.secret(column)) else {
        return Err(bad);
    };
    let pred = condition(alloc, schema, schema.group_where(place), part)?;
    Ok((secret, pred))
}

// The entry of a group, if some row satisfies its condition.
fn group_entry(
    alloc: Global,
    schema: &Schema,
    index: &Index,
    place: u8,
) -> Result<Option<Protected>, IndexFault>
    requires fits { FitsSchema schema.now.columns index.now.public }
    requires place { place < length schema.now.guards.groups }
    ensures ok { IfOk result (λ entry. (group : Group) → slice_get schema.now.guards.groups place ≡ Some group
        → (column : ℕ) × (t : Tree) × IsGroup schema.now.columns group column t × (option_to_list entry ≡ entry_of column place index.now.public.rows (meaning index.now.public t))) }
    ensures bad { (at : GuardPart) → result ≡ Err (IndexFault.Bad at) → (at ≡ GuardPart.Group place) × ((group : Group) → slice_get schema.now.guards.groups place ≡ Some group → ¬ (HasNoFault schema.now.columns group)) }
{
    reads_what_fits();
    let (column, pred) = group_at(alloc, schema, place)?;
    let rows = index.rows_of(&pred);
    if rows.is_empty() {
        return Ok(None);
    }
    Ok(Some(Protected {
        column,
        place,
        rows,
    }))
}

// The entries of the groups, in order.
fn entries_of(alloc: Global, schema: &Schema, index: &Index) -> Result<Vec<Protected>, IndexFault>
    requires fits { FitsSchema schema.now.columns index.now.public }
    ensures entries { IfOk result (λ list. AreEntries schema.now.columns index.now.public 0 schema.now.guards.groups list.items) }
    ensures bad { (at : GuardPart) → result ≡ Err (IndexFault.Bad at) → (place : ℕ) × (at ≡ GuardPart.Group place) × IsFirstBadGroup schema.now.columns schema.now.guards.groups place }
{
    let mut list = Vec::new(alloc);
    for place in 0..schema.groups() {
        if let Some(entry) = group_entry(alloc, schema, index, place)? {
            if list.push(entry).is_err() {
                return Err(IndexFault::NoMemory);
            }
        }
    }
    Ok(list)
}

// What a schema guards of a public part, with these entries of its groups.
fn guard_of(
    alloc: Global,
    schema: &Schema,
    public: &Public,
    groups: Vec<Protected>,
) -> Result<Guard, IndexFault>
    requires { FitsSchema schema.now.columns public.now }
    ensures guard { IfOk result (λ guard. guard ≡ record {
      groups = groups.items;
      people = headcount (counts_of schema.now.columns public.now) schema.now.guards.fewest schema.now.guards.own;
      width = schema.now.guards.width;
      reach = schema.now.guards.reach;
    }) }
    ensures sound { OnErr result (result ≡ Err IndexFault.NoMemory) }
{
    match counted_rows(alloc, schema, public) {
        Ok(rows) => Ok(Guard::new(groups, rows, schema.width(), schema.reach())),
        Err(_) => Err(IndexFault::NoMemory),
    }
}

// Leaves of a set the rows that may be asked of.
fn cut_to(only: &Option<RowSet>, rows: &mut RowSet)
    requires { IfSome only.now (λ set. set.n ≡ rows.old.n) }
    ensures n { rows.new.n ≡ rows.old.n }
    ensures all { only.now ≡ None → rows.new.list ≡ rows.old.list }
    ensures cut { IfSome only.now (λ set. rows.new.list ≡ intersection rows.old.n rows.old.list set.list) }
{
    match only {
        Some(set) => rows.and_with(set),
        None => {}
    }
}

impl Index {
    /// Makes the public part of a table ready, and finds the rows that may be asked of, those of the groups that its schema protects, and
    /// the people behind the rows. With a refusal both are dropped.
    pub fn new(alloc: Global, schema: Schema, public: Public) -> Result<Index, IndexFault>
        requires { FitsSchema schema.columns public }
        ensures columns { IfOk result (λ index. index.columns ≡ schema.columns) }
        ensures public { IfOk result (λ index. whole index.public ≡ public) }
        ensures entries { IfOk result (λ index. Protects schema.columns index.public schema.guards index.protected) }
        ensures bad { (part : GuardPart) → result ≡ Err (IndexFault.Bad part) → IsFirstBad schema.columns schema.guards part }
    {
        groups_of_a_schema();
        // The count says that these are a schema's columns, and the width that what is guarded is within bounds.
        let (_count, _width) = (schema.count(), schema.width());
        // What was read of a table says of no row that it may not be asked of.
        let _rows = public.rows();
        let Ok(orders) = sorted_columns(alloc, &public) else {
            return Err(IndexFault::NoMemory);
        };
        let protected = guard_of(alloc, &schema, &public, Vec::new(alloc))?;
        let mut index = Index {
            schema,
            public,
            only: None,
            protected,
            orders,
        };
        index.only = only_rows(alloc, &index.schema, &index)?;
        let groups = entries_of(alloc, &index.schema, &index)?;
        index.protected = guard_of(alloc, &index.schema, &index.public, groups)?;
        Ok(index)
    }

    /// The schema that the table was read by.
    pub fn schema(&self) -> &Schema
        ensures same { result.now.columns ≡ self.now.columns }
        ensures columns { AreColumns self.now.columns }
        ensures fits { FitsSchema self.now.columns self.now.public }
    {
        // The count says that these are a schema's columns.
        let _count = self.schema.count();
        &self.schema
    }

    /// Gives back the schema, and drops the rest.
    pub fn into_schema(self) -> Schema
        ensures { result.columns ≡ self.columns }
    {
        self.schema
    }

    /// The public part.
    pub fn public(&self) -> &Public
        ensures { result.now ≡ whole self.now.public }
    {
        &self.public
    }

    /// What the schema guards: what few people behind the rows have, and the groups that some row satisfies, in the order of the schema; and
    /// by which width and reach.
    pub fn protected(&self) -> &Guard
        ensures same { result.now ≡ self.now.protected }
        ensures fit { AreProtected (public_shape self.now) self.now.protected }
    {
        &self.protected
    }

    // The rows by the values of a column.
    pub(crate) fn sorted(&self, place: u8) -> &Sorted
        requires { IsShown (cells_at self.now.public place) }
        ensures rows { result.now.rows ≡ self.now.public.rows }
        ensures ascending { IsSorted (compare_rows (cells_at self.now.public place)) result.now.order }
    {
        match self.orders.get(place as usize) {
            Some(Some(sorted)) => sorted,
            _ => unreachable!(),
        }
    }

    /// The row numbers in ascending order of a column's values, and of the rows if values are equal, by the column's
    /// place in the schema.
    pub fn order(&self, place: u8) -> &[u16]
        requires { IsShown (cells_at self.now.public place) }
        ensures { IsOrder self.now.public.rows (cells_at self.now.public place) result.now }
    {
        self.sorted(place).order()
    }

    /// Fills an empty set with the rows that satisfy a condition, of those that may be asked of. A comparison is a range of a column's
    /// order, found by binary search; sets are combined word by word.
    pub fn fill_rows_of(&self, pred: &Pred, rows: &mut RowSet)
        requires fits { fits_public self.now.public (tree_of pred.now) ≡ true }
        requires n { rows.old.n ≡ self.now.public.rows }
        requires empty { rows.old.list ≡ [] }
        ensures n { rows.new.n ≡ self.now.public.rows }
        ensures rows { rows.new.list ≡ meaning self.now.public (tree_of pred.now) }
    {
        fill_rows_of(self, pred, rows);
        cut_to(&self.only, rows);
    }

    /// The same rows as a set of their own. Whoever asks often fills a set that is there.
    pub fn rows_of(&self, pred: &Pred) -> RowSet
        requires { fits_public self.now.public (tree_of pred.now) ≡ true }
        ensures n { result.n ≡ self.now.public.rows }
        ensures rows { result.list ≡ meaning self.now.public (tree_of pred.now) }
    {
        let mut rows = RowSet::new(self.public().rows());
        self.fill_rows_of(pred, &mut rows);
        rows
    }

    /// How many people stand behind rows: as many as the rows if no column says so.
    pub fn people(&self, rows: &RowSet) -> u64
        requires { rows.now.n ≡ self.now.public.rows }
        ensures exact { result ≡ people_behind (public_counts self.now) rows.now.list }
        ensures at_least { length rows.now.list ≤ result }
        ensures at_most { result ≤ most_answer }
    {
        match self.public().counts(self.schema()) {
            Some(counts) => people_by(counts, rows),
            None => u64::from(rows.len()),
        }
    }
}
