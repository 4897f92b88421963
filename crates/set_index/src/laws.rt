//! Laws of the conditions that can be asked of a table, and of its protected groups. Each function computes nothing: its contract
//! is the law.
ghost use Rattle.std.specs.Prelude.{◌≡◌, List, true};
ghost use Rattle.schema_json.specs.Columns.{Column};
ghost use Rattle.table_load.specs.Cells.{PublicView, FitsSchema};
ghost use Rattle.predicate_lang.specs.Trees.{Tree, fits};
ghost use Rattle.set_index.specs.Asked.{fits_public};
ghost use Rattle.set_index.specs.Indexed.{EntriesFit, OneListOfEntries, RowsAreLines};

use predicate_lang::one_meaning;
use schema_json::laws::secret_columns;

/// A condition that fits a schema can be asked of a public part that fits it.
pub fn reads_what_fits()
    ensures { (columns : List Column) (p : PublicView) (t : Tree) → FitsSchema columns p → fits columns t ≡ true → fits_public p t ≡ true }
{}

/// Groups have at most one list of entries, and one exactly if none has a fault. It fits each table over the schema.
pub fn groups_of_a_schema()
    ensures entries { OneListOfEntries }
    ensures fit { EntriesFit }
{
    one_meaning();
    secret_columns();
}

/// What is guarded goes by the people that a table counts.
pub fn lines_of_a_table()
    ensures { RowsAreLines }
{}
