//! What a test found beside what it expects.
use std::fmt::Debug;
use std::process::Abort;

/// Ends the test if the two differ, and prints both. It is a function so that an assertion is proved once.
pub fn same<T: PartialEq + Debug>(rt: &impl Abort, found: &T, wanted: &T) {
    assert_eq!(rt; found, wanted);
}
