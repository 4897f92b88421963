//! What is true of the definitions themselves. A law computes nothing: its contract is the law.
ghost use Rattle.std.specs.Prelude.{◌≡◌, ◌≢◌, ℕ, ◌<◌, ◌≤◌, ℤ, List, [], Ok, Some, unsigned_abs};
ghost use Rattle.audit_types.specs.Limits.{most_number, most_answer};
ghost use Rattle.audit_types.specs.Rows.{AreRows};
ghost use Rattle.audit_types.specs.Shapes.{columns};
ghost use Rattle.audit_types.specs.Truth.{sum_over, greatest_over};
ghost use Rattle.audit_types.specs.History.{list_of, AreSecrets};
ghost use Rattle.schema_json.specs.Columns.{Column, AreColumns};
ghost use Rattle.schema_json.specs.declared.roles.Role.{Role};
ghost use Rattle.schema_json.specs.SecretShape.{shape_of};
ghost use Rattle.table_load.specs.Cells.{PublicView, SecretView, TableView, IsPublic, IsSecret, FitsSchema};
ghost use Rattle.table_load.specs.Numerals.{number_in, IsNumeral};
ghost use Rattle.table_load.specs.declared.faults.TableFault.{TableFault};
ghost use Rattle.table_load.specs.Reading.{Fields, records_fault, cells_fault};
ghost use Rattle.table_load.specs.FirstFaults.{IsFirstRecord, IsFirstField};
ghost use Rattle.table_load.specs.Tables.{table_of};
ghost use Rattle.table_load.specs.Meaning.{MeansTable};

/// A field spells a number exactly if it is spaces, a sign or none, digits, spaces.
pub fn spells()
    ensures only { (field : List ℕ) (z : ℤ) → number_in field ≡ Some z → IsNumeral field z }
    ensures all { (field : List ℕ) (z : ℤ) → IsNumeral field z → number_in field ≡ Some z }
{}

/// A fault of records is that of the first record that has any, and a fault of a record's fields that of its first column with one.
pub fn first_faults()
    ensures first_record { (roles : List Role) (records : List Fields) (fault : TableFault) → records_fault roles 2 records ≡ Some fault → (place : ℕ) × IsFirstRecord roles records place fault }
    ensures from_record { (roles : List Role) (records : List Fields) (place : ℕ) (fault : TableFault) → IsFirstRecord roles records place fault → records_fault roles 2 records ≡ Some fault }
    ensures first_field { (roles : List Role) (line : ℕ) (fields : Fields) (fault : TableFault) → cells_fault line 0 roles fields ≡ Some fault → (column : ℕ) × IsFirstField roles line fields column fault }
    ensures from_field { (roles : List Role) (line : ℕ) (fields : Fields) (column : ℕ) (fault : TableFault) → IsFirstField roles line fields column fault → cells_fault line 0 roles fields ≡ Some fault }
{}

/// Bytes are read as a table exactly where they mean it, so the words in which they mean it need no fault.
pub fn meaning_of_a_table()
    ensures read { (columns : List Column) (bytes : List ℕ) (t : TableView) → table_of columns bytes ≡ Ok t → MeansTable columns bytes t.public t.secret }
    ensures meant { (columns : List Column) (bytes : List ℕ) (public : PublicView) (secret : SecretView) → MeansTable columns bytes public secret → table_of columns bytes ≡ Ok (record { public = public; secret = secret }) }
{}

/// A sum over secrets has a size of at most `most_answer`, and a greatest one of at most 10^12.
pub fn sizes_of_answers()
    ensures sums { (s : SecretView) (column : ℕ) (rows : List ℕ) → IsSecret s → column < columns s.shape → AreRows s.shape.rows rows
        → unsigned_abs (sum_over (list_of s.lists column) rows) ≤ most_answer }
    ensures maxima { (s : SecretView) (column : ℕ) (rows : List ℕ) → IsSecret s → column < columns s.shape → AreRows s.shape.rows rows → rows ≢ []
        → unsigned_abs (greatest_over (list_of s.lists column) rows) ≤ most_number }
{}

/// The lists of a table's secrets are those of its shape.
pub fn lists_of_secrets()
    ensures { (s : SecretView) → IsSecret s → AreSecrets s.shape s.lists }
{}

/// What bytes mean is a table: a secret part of the schema's shape, with a number in range for each row and column, and a
/// public part of as many rows, whose columns hold what the schema's roles say.
pub fn secrets_of_a_table()
    ensures secret { (schema : List Column) (bytes : List ℕ) (t : TableView) → AreColumns schema → table_of schema bytes ≡ Ok t → IsSecret t.secret }
    ensures public { (schema : List Column) (bytes : List ℕ) (t : TableView) → table_of schema bytes ≡ Ok t → IsPublic t.public }
    ensures fits { (schema : List Column) (bytes : List ℕ) (t : TableView) → table_of schema bytes ≡ Ok t → FitsSchema schema t.public }
    ensures shape { (schema : List Column) (bytes : List ℕ) (t : TableView) → table_of schema bytes ≡ Ok t → t.secret.shape ≡ shape_of schema t.public.rows }
{
    schema_json::laws::shape_of_a_table();
}
