//! Which columns of a schema a file has.
ghost use Rattle.std.specs.Prelude.{◌≡◌, ◌≤◌, length, IfOk};
ghost use Rattle.schema_json.specs.Columns.{AreColumns};
ghost use Rattle.table_load.specs.Reading.{is_in_file, has_numbers, file_columns, roles_of};

use audit_types::NoMemory;
use schema_json::{Role, Schema};
use std::alloc::Global;

/// Which columns of a schema a file has.
#[derive(Clone, Copy, Drop)]
pub(crate) enum FileColumns {
    All,
    Public,
}

impl FileColumns {
    /// Whether a column of this role is in the file.
    pub(crate) fn has(self, role: Role) -> bool
        ensures { result ≡ is_in_file self role }
    {
        match self {
            FileColumns::All => true,
            FileColumns::Public => !role.is_secret(),
        }
    }

    /// The roles of the file's columns, in order.
    pub(crate) fn roles(self, alloc: Global, schema: &Schema) -> Result<Vec<Role>, NoMemory>
        ensures roles { IfOk result (λ v. v.items ≡ roles_of (file_columns self schema.now.columns)) }
        ensures few { length (roles_of (file_columns self schema.now.columns)) ≤ 32 }
    {
        let mut roles = Vec::new(alloc);
        for place in 0..schema.count() {
            let role = schema.role(place);
            if self.has(role) {
                roles.push(role)?;
            }
        }
        Ok(roles)
    }
}

/// Whether the fields of a column are numbers.
pub(crate) fn has_numbers(role: Role) -> bool
    ensures { result ≡ has_numbers role }
{
    match role {
        Role::Text => false,
        Role::Number | Role::Count | Role::Sum | Role::Max | Role::Min => true,
    }
}
