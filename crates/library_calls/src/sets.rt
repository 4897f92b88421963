//! Sets as they are printed.
use crate::equality::same;
use audit_types::RowSet;
use std::alloc::{AllocError, Global};

fn printed(alloc: Global, rows: &RowSet) -> Result<String, AllocError> {
    format!(in alloc; "{rows:?}")
}

#[test]
fn a_set_is_printed_by_its_rows(rt: HostRuntime) {
    let mut rows = RowSet::new(65);
    rows.add(64);
    rows.add(0);
    rows.add(63);
    let printed = printed(rt.alloc(), &rows).expect(&rt, "memory");
    same(&rt, &printed.as_str(), &"{0, 63, 64}");
}
