//! What is guarded of a table.
ghost use Rattle.std.specs.Prelude.{◌≡◌, ◌≤◌, ◌<◌, IfOk};
ghost use Rattle.audit_types.specs.Headcount.{CountPeople};

use crate::NoMemory;
use crate::counted_rows::CountedRows;
use crate::records::Protected;
use std::alloc::Global;
use std::marker::Model;

/// What is guarded of a table: what so few people have that stand behind its rows, and the totals of the protected groups; how wide a
/// reduced form may be, and of how many rows a change that leaves every sum may have to be.
#[derive(Drop)]
pub struct Guard {
    groups: Vec<Protected>,
    rows: CountedRows,
    width: u64,
    reach: u16,
}

impl Model for Guard {
    ghost use Rattle.audit_types.specs.History.{Protection};

    ghost Value = { Protection };

    ghost view = { λ g. record { groups = g.groups.items; people = g.rows.people; width = g.width; reach = g.reach } };
}

impl Guard {
    /// The guard of these rows and these groups, by forms of at most this width and this reach.
    pub fn new(groups: Vec<Protected>, rows: CountedRows, width: u64, reach: u16) -> Guard
        ensures { result ≡ record { groups = groups.items; people = rows.people; width = width; reach = reach } }
    {
        Guard {
            groups,
            rows,
            width,
            reach,
        }
    }

    /// The groups whose totals are protected, in order.
    pub fn groups(&self) -> &[Protected]
        ensures { result.now ≡ self.now.groups }
    {
        &self.groups
    }

    /// How many people stand behind the rows, and who asks.
    pub fn rows(&self) -> &CountedRows
        ensures { result.now.people ≡ self.now.people }
    {
        &self.rows
    }

    /// How large an entry of a reduced form may be, and the least common multiple of its pivot entries.
    pub fn width(&self) -> u64
        ensures { result ≡ self.now.width }
    {
        self.width
    }

    /// How many rows a change may need that leaves every sum as it is, and along which something guarded changes.
    pub fn reach(&self) -> u16
        ensures { result ≡ self.now.reach }
    {
        self.reach
    }

    /// The same guard once more.
    pub fn copy(&self, alloc: Global) -> Result<Guard, NoMemory>
        ensures { IfOk result (λ guard. guard ≡ self.now) }
    {
        // Counted rows say of themselves that the people stand behind so many rows.
        let n = self.rows.n();
        Ok(Guard {
            groups: self.groups.to_vec(alloc)?,
            rows: self.rows.over(alloc, n)?,
            width: self.width,
            reach: self.reach,
        })
    }
}
