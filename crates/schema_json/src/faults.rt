//! Why bytes aren't a schema.
ghost use Rattle.std.specs.Prelude.{◌≡◌};
ghost use Rattle.schema_json.specs.Faults.{fault_number};

/// Why bytes aren't a schema, in the order in which the faults are looked for. docs/FORMATS.md describes each.
#[derive(Clone, Copy, PartialEq, Eq, Drop)]
pub enum SchemaFault {
    /// More than 65,536 bytes.
    TooLong,
    /// Not JSON, as `serde_json` reads it.
    NotJson,
    /// Not an object with a list of columns, each with a name and a role, some of them public; a key that no schema has, or a
    /// value that its key can't have.
    Shape,
    /// A name that no column may have.
    BadName,
    /// A name that two columns have.
    Repeated,
    /// More than 32 columns, or more than 8 secret ones.
    TooMany,
    /// Memory ran out while it was read.
    NoMemory,
}

impl SchemaFault {
    /// The number by which a fault is reported to a user, from 1 on.
    pub fn number(self) -> u8
        ensures { result ≡ fault_number self }
    {
        match self {
            SchemaFault::TooLong => 1,
            SchemaFault::NotJson => 2,
            SchemaFault::Shape => 3,
            SchemaFault::BadName => 4,
            SchemaFault::Repeated => 5,
            SchemaFault::TooMany => 6,
            SchemaFault::NoMemory => 7,
        }
    }
}
