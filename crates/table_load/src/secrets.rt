//! The secret part of a table.
ghost use Rattle.std.specs.Prelude.{◌≡◌, ◌≢◌, ◌<◌, [], length, map};
ghost use Rattle.std.specs.List.{AllByRecursion};
ghost use Rattle.audit_types.specs.History.{list_of};
ghost use Rattle.audit_types.specs.Shapes.{IsShape, columns, kind_at};
ghost use Rattle.audit_types.specs.Truth.{truth};
ghost use Rattle.table_load.specs.Cells.{AreNumbers, IsSecret};

use crate::blocks::{Blocks, MOST_BLOCKS, blocks_of, greatest_by_blocks, sum_by_blocks};
use audit_types::{Kind, RowSet, Shape};
use std::marker::Model;

/// The secret part of a table: its shape, and the numbers of each secret column.
#[derive(Drop)]
pub struct Secret {
    shape: Shape,
    lists: Vec<Vec<i64>>,
    // For each column the true answers over blocks of rows.
    blocks: [Blocks; 8],
}

impl Model for Secret {
    ghost use Rattle.table_load.specs.Cells.{SecretView};

    ghost Value = { SecretView };

    ghost use Rattle.table_load.specs.Kept.{secret_view, IsKeptSecret};

    ghost view = { secret_view };

    ghost invariant = { IsKeptSecret };
}

impl Secret {
    /// The secret part with these lists, one for each column of the shape.
    pub fn new(shape: Shape, lists: Vec<Vec<i64>>) -> Secret
        requires shape { IsShape shape }
        requires one_each { length lists.items ≡ columns shape }
        requires numbers { AllByRecursion (AreNumbers shape.rows) (map (λ v. v.items) lists.items) }
        ensures shape { result.shape ≡ shape }
        ensures lists { result.lists ≡ map (λ v. v.items) lists.items }
    {
        let mut blocks = [[0; MOST_BLOCKS as usize]; 8];
        for (column, list) in lists.iter().enumerate() {
            blocks[column] = blocks_of(shape.kind(column as u8), list.as_slice(), shape.rows);
        }
        Secret {
            shape,
            lists,
            blocks,
        }
    }

    /// The number of rows, and what each secret column answers.
    pub fn shape(&self) -> Shape
        ensures shape { result ≡ self.now.shape }
        ensures is { IsSecret self.now }
    {
        self.shape
    }

    /// The true answer to a question: the sum over the rows, or the greatest number. It costs a step for each
    /// block of 64 rows, and for each row of one that the set does not have whole.
    pub fn truth(&self, column: u8, rows: &RowSet) -> i64
        requires column { column < columns self.now.shape }
        requires same_n { rows.now.n ≡ self.now.shape.rows }
        requires some { rows.now.list ≢ [] }
        ensures { result ≡ truth (kind_at self.now.shape column) (list_of self.now.lists column) rows.now.list }
    {
        let list = self.lists[column as usize].as_slice();
        let blocks = &self.blocks[column as usize];
        match self.shape.kind(column) {
            Kind::Sum => sum_by_blocks(list, blocks, rows),
            Kind::Max => greatest_by_blocks(list, blocks, rows),
        }
    }
}
