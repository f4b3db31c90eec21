use std::process::Abort;

/// What a call gives that is to go well. The test ends where it doesn't, and the caller has no way out on which its
/// values would be let go, as with `?`: each such way is slow to prove.
pub fn expect_ok<T, E: Drop>(rt: &impl Abort, answer: Result<T, E>) -> T {
    match answer {
        Ok(value) => value,
        Err(_) => panic!(rt; "an error in the place of a value"),
    }
}
