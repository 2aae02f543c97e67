//! Values that have to be alike.

use std::fmt::Debug;
use std::process::Abort;

/// What was found is what is wanted; else the test fails with this name and both.
pub fn alike<T: PartialEq + Debug + Drop>(rt: &impl Abort, name: &str, found: T, wanted: T) {
    assert_eq!(rt; found, wanted, "{name}");
}
