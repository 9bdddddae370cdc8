//! Comparing what calls report with what was found by hand.
use std::process::Abort;

/// Ends the test if something else was reported.
pub fn compare(rt: &impl Abort, says: &str, told: &str, want: &str) {
    let right = told == want;
    assert!(rt; right, "{says}: {told}");
}
