//! Why bytes aren't a table of a schema.
ghost use Rattle.std.specs.Prelude.{◌≡◌};
ghost use Rattle.table_load.specs.Faults.{fault_number};

/// Why bytes aren't a table of a schema. `line` is the number of the record, from 1 with the header; `column` is the
/// place in the file, from 0. docs/FORMATS.md says which fault is the first.
#[derive(Clone, Copy, PartialEq, Eq, Drop)]
pub enum TableFault {
    /// More than 16,777,216 bytes.
    TooLong,
    /// No header with exactly the names of the columns.
    Header,
    /// Another number of fields than columns.
    Length { line: u32 },
    /// A field that isn't UTF-8.
    NotText { line: u32 },
    /// A field that should spell a number and spells none.
    NotNumber { line: u32, column: u8 },
    /// A number whose size is above 10^12.
    OutOfRange { line: u32, column: u8 },
    /// More than `MOST_ROWS` data records.
    TooManyRows,
    /// No data record.
    NoRows,
    /// Memory ran out while it was read.
    NoMemory,
}

impl TableFault {
    /// The number by which a fault is reported to a user, from 1 on.
    pub fn number(self) -> u8
        ensures { result ≡ fault_number self }
    {
        match self {
            TableFault::TooLong => 1,
            TableFault::Header => 2,
            TableFault::Length { .. } => 3,
            TableFault::NotText { .. } => 4,
            TableFault::NotNumber { .. } => 5,
            TableFault::OutOfRange { .. } => 6,
            TableFault::TooManyRows => 7,
            TableFault::NoRows => 8,
            TableFault::NoMemory => 9,
        }
    }
}
