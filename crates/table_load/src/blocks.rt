//! Sums and greatest numbers over sets of rows, if those of each 64 rows are known.
ghost use Rattle.std.specs.Prelude.{◌≡◌, ◌≢◌, ◌+◌, ◌*◌, ◌<◌, ◌≤◌, []};
ghost use Rattle.audit_types.specs.Limits.{most_rows};
ghost use Rattle.audit_types.specs.Truth.{sum_over, greatest_over};
ghost use Rattle.audit_types.specs.declared.shapes.Kind.TheVariants.{Sum, Max};
ghost use Rattle.table_load.specs.Cells.{AreNumbers};
ghost use Rattle.table_load.specs.Kept.{AreBlocks, block_rows};

use crate::truth::{greatest_from, sum_over, truth_over};
use audit_types::{Kind, MOST_ROWS, RowSet};

/// The most blocks of a table.
pub(crate) const MOST_BLOCKS: u16 = MOST_ROWS / 64;

/// The true answer over each block of 64 rows, and 0 if a table has no whole block.
pub(crate) type Blocks = [i64; MOST_BLOCKS as usize];

// The rows of a block.
fn block_rows(n: u16, block: u16) -> RowSet
    requires whole { 64 * block + 64 ≤ n }
    requires at_most { n ≤ most_rows }
    ensures n { result.n ≡ n }
    ensures rows { result.list ≡ block_rows n block }
{
    let mut rows = RowSet::new(n);
    for row in 64 * block..64 * block + 64 {
        rows.add(row);
    }
    rows
}

/// The true answers over the blocks of a column.
pub(crate) fn blocks_of(kind: Kind, list: &[i64], n: u16) -> Blocks
    requires at_most { n ≤ most_rows }
    requires numbers { AreNumbers n list.now }
    ensures { AreBlocks kind n list.now result }
{
    let mut blocks = [0; MOST_BLOCKS as usize];
    for block in 0..n / 64 {
        blocks[block as usize] = truth_over(kind, list, &block_rows(n, block));
    }
    blocks
}

/// The sum over the rows of a set. It costs a step for each block, and for each row that lies in no whole one.
pub(crate) fn sum_by_blocks(list: &[i64], blocks: &Blocks, rows: &RowSet) -> i64
    requires numbers { AreNumbers rows.now.n list.now }
    requires blocks { AreBlocks Sum rows.now.n list.now blocks.now }
    ensures { result ≡ sum_over list.now rows.now.list }
{
    // A set says of its n that no row is past it.
    let n = rows.n();
    let mut left = *rows;
    let mut sum = 0i64;
    for block in 0..n / 64 {
        if left.take_block(block) {
            sum += blocks[block as usize];
        }
    }
    sum + sum_over(list, &left)
}

/// The greatest number over the rows of a set. It costs a step for each block, and for each row that lies in no whole one.
pub(crate) fn greatest_by_blocks(list: &[i64], blocks: &Blocks, rows: &RowSet) -> i64
    requires numbers { AreNumbers rows.now.n list.now }
    requires blocks { AreBlocks Max rows.now.n list.now blocks.now }
    requires some { rows.now.list ≢ [] }
    ensures { result ≡ greatest_over list.now rows.now.list }
{
    // A set says of its n that no row is past it.
    let n = rows.n();
    let mut left = *rows;
    let mut greatest = i64::MIN;
    for block in 0..n / 64 {
        if left.take_block(block) {
            greatest = greatest.max(blocks[block as usize]);
        }
    }
    greatest_from(greatest, list, &left)
}
