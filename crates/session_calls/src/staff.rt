//! A table of six people: their department, age, salary and bonus.
use schema_json::{Schema, read_schema};
use std::alloc::Global;

const SCHEMA: &[u8] =
    br#"{"columns":[{"name":"dept","is":"text"},{"name":"age","is":"number"},{"name":"salary","is":"sum"},{"name":"bonus","is":"max"}]}"#;

/// The table.
pub(crate) const TABLE: &[u8] = b"dept,age,salary,bonus
QA,30,100,7
QA,41,200,9
OPS,35,300,9
OPS,52,400,4
DEV,28,500,5
DEV,44,600,2
";

/// The schema of the table.
pub(crate) fn staff(alloc: Global) -> Option<Schema> {
    read_schema(alloc, SCHEMA).ok()
}
