//! Whether numbers agree with what a history answers of a column.
ghost use Rattle.std.specs.Prelude.{◌≡◌, ◌↔◌, [], length, IsTrue};
ghost use Rattle.audit_types.specs.Column.{Agrees};
ghost use Rattle.audit_types.specs.Headcount.{one_person_each};
ghost use Rattle.audit_types.specs.History.{answers_of};
ghost use Rattle.audit_types.specs.Limits.{most_rows, most_width};
ghost use Rattle.oracles.specs.Ranges.{AreInRange, AreOver};

use crate::truths::truth;
use audit_types::{Answered, Kind};

/// Whether the numbers, one for each row, give each answer that the history has of the column.
pub fn agrees(kind: Kind, numbers: &[i64], history: &[Answered], column: u8) -> bool
    requires in_range { AreInRange numbers.now }
    requires over { AreOver (length numbers.now) history.now }
    ensures { IsTrue result ↔ Agrees (record { kind = kind; n = length numbers.now; answers = answers_of column history.now; groups = []; people = one_person_each; width = most_width; reach = most_rows }) numbers.now }
{
    for record in history {
        if record.column == column && truth(kind, numbers, &record.rows) != record.answer {
            return false;
        }
    }
    true
}
