//! The outcome of a run.

use nll_core::Values;
use nll_mail::Growth;

/// The outcome of a run.
///
/// # Shape
/// `values` has a set for each region. `grown` has a log for each owner, in the order of their
/// numbers. `posts` has a settled mailbox for each ordered pair of different owners, by sender and
/// then by receiver.
#[derive(Drop)]
pub struct Outcome<P: Drop> {
    /// The least values.
    pub values: Values,
    /// All growths of each owner's regions, in the order of their ranks.
    pub grown: Vec<Vec<Growth>>,
    /// The settled mailboxes.
    pub posts: Vec<P>,
}
