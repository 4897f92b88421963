//! The least unit row in the span of a form that isn't that of a shared row.
ghost use Rattle.std.specs.Prelude.{◌≡◌};
ghost use Rattle.sum_basis.specs.Basis.{IsLeastOwnUnit};

use crate::basis::Basis;
use audit_types::RowSet;

impl Basis {
    /// The least row that isn't shared whose unit row lies in the span.
    pub fn unshared_unit_row(&self, shared: &RowSet) -> Option<u16>
        requires { shared.now.n ≡ self.now.n }
        ensures { IsLeastOwnUnit self.now shared.now.list result }
    {
        let form = self.form();
        for k in 0..form.rank() {
            let place = form.pivot(k);
            // Only a row with no other entry has its pivot's unit row in the span.
            if form.free(k).is_empty() && !shared.has(place) {
                return Some(place);
            }
        }
        None
    }
}
