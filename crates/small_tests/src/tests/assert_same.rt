use std::fmt::Debug;
use std::process::Abort;

/// Asserts that two values are the same. A call of it is proved in a quarter of the time that an
/// `assert_eq!` in its place takes.
pub fn assert_same<T: Debug + PartialEq + Drop>(rt: &impl Abort, have: T, want: T) {
    assert_eq!(rt; have, want);
}
