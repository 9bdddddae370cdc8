//! The outcome of a run.

use fixpoint::Analysis;

/// The outcome of a run.
///
/// # Shape
/// `yields` has what each owner's part returned, and `grown` a log for each owner, in the order of
/// their numbers. `posts` has a settled mailbox for each ordered pair of different owners, by
/// sender and then by receiver.
#[derive(Drop)]
pub struct Outcome<A: Analysis, P: Drop> {
    /// What the parts returned.
    pub yields: Vec<A::Yield>,
    /// All growths of each owner's facts, in the order of their ranks.
    pub grown: Vec<Vec<A::Growth>>,
    /// The settled mailboxes.
    pub posts: Vec<P>,
}
