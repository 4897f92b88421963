//! Whether a history has room for a record.
ghost use Rattle.std.specs.Prelude.{◌≡◌, ◌≤◌, ◌↔◌, length, true};
ghost use Rattle.audit_types.specs.Limits.{most_records};

use audit_core::Core;
use audit_types::MOST_RECORDS;

/// Whether there are as many records as there may be, so that no question is answered any more.
pub fn is_full(core: &Core) -> bool
    ensures { (result ≡ true) ↔ (most_records ≤ length core.now.history) }
{
    core.history().len() >= MOST_RECORDS
}
