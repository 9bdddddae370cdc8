//! Comparing the results of calls with what was found by hand.
use std::process::Abort;

/// Ends the test if the result is another one.
pub fn compare(rt: &impl Abort, says: &str, told: String, want: &[u8]) {
    let right = told.as_bytes() == want;
    assert!(rt; right, "{says}: {told}");
}
