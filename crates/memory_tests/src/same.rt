//! How a value is compared with the one that is wanted.

use std::process::Abort;

/// Stops unless a value is the one that is wanted, and prints what and which it was. (A derived `Debug` that would print both costs as much
/// proof as ten tests.)
pub fn same<T: PartialEq>(rt: &impl Abort, value: &T, wanted: &T, what: &str, i: usize) {
    assert!(rt; *value == *wanted, "{what} {i}");
}
