//! Conditions that are printed, and read again.
use predicate_lang::{print_where, read_where};
use schema_json::{Schema, read_schema};
use std::alloc::Global;
use std::process::Abort;

const STAFF: &[u8] = br#"{"columns":[{"name":"dept","is":"text"},{"name":"age","is":"number"}]}"#;

// A condition, printed as it was read.
fn printed(alloc: Global, schema: &Schema, text: &str) -> Option<String> {
    if text.len() > 8192 {
        return None;
    }
    let pred = read_where(alloc, schema, text).ok()?;
    print_where(alloc, schema, &pred).ok()
}

// Whether a condition is read, and printed as this text.
fn prints(alloc: Global, schema: &Schema, text: &str, wanted: &str) -> bool {
    printed(alloc, schema, text).is_some_and(|found| found.as_str() == wanted)
}

// Conditions, and how they are printed.
const CASES: [(&str, &str); 6] = [
    ("dept='QA'", "dept = 'QA'"),
    (
        "age>=41 and not(dept='DEV')",
        "age >= 41 and not dept = 'DEV'",
    ),
    ("(dept = 'Bob''s')", "dept = 'Bob''s'"),
    ("age in(-007,0 , -0,12)", "age in (-7, 0, 0, 12)"),
    (
        "(all and all)and(all or all)",
        "all and all and (all or all)",
    ),
    ("not(all or not all)", "not (all or not all)"),
];

// Each is printed so, and what is printed as it stands.
fn are_read_again(rt: &impl Abort, alloc: Global, schema: &Schema) {
    for (text, printed) in &CASES {
        assert!(rt; prints(alloc, schema, text, printed), "{text}");
        assert!(rt; prints(alloc, schema, printed, printed), "{printed}");
    }
}

#[test]
fn a_condition_is_printed_and_read_again(rt: HostRuntime) {
    let schema = read_schema(rt.alloc(), STAFF).ok().expect(&rt, "a schema");
    are_read_again(&rt, rt.alloc(), &schema);
}
