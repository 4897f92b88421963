//! The secrets of a table, with what is guarded of them.
ghost use Rattle.std.specs.Prelude.{◌≡◌};
ghost use Rattle.audit_types.specs.History.{AreProtected};
ghost use Rattle.table_load.specs.Cells.{IsSecret};
ghost use Rattle.table_load.specs.Database.{secret_table};
ghost use Rattle.audit_store.specs.Stores.{secrets_of};

use audit_types::{Guard, Shape};
use std::marker::Model;
use table_load::Secret;

/// The secrets of a table, and what is guarded of them: contracts see the table that both make.
#[derive(Drop)]
pub struct Guarded {
    secret: Secret,
    protected: Guard,
}

impl Model for Guarded {
    ghost use Rattle.audit_types.specs.History.{AreProtected, Table};
    ghost use Rattle.table_load.specs.Database.{secret_table};

    ghost Value = { Table };

    ghost view = { λ g. secret_table g.secret g.protected };

    ghost invariant = { λ g. AreProtected g.secret.shape g.protected };
}

impl Guarded {
    /// Puts both together.
    pub fn new(secret: Secret, protected: Guard) -> Guarded
        requires fit { AreProtected secret.shape protected }
        ensures { result ≡ secret_table secret protected }
    {
        Guarded { secret, protected }
    }

    /// The number of rows, and what each secret column answers.
    pub fn shape(&self) -> Shape
        ensures shape { result ≡ self.now.setting.shape }
        ensures is { IsSecret (secrets_of self.now) }
    {
        self.secret.shape()
    }

    /// Takes both apart.
    pub(crate) fn apart(self) -> (Secret, Guard)
        ensures table { secret_table result.0 result.1 ≡ self }
        ensures fit { AreProtected result.0.shape result.1 }
    {
        let Guarded { secret, protected } = self;
        (secret, protected)
    }
}
