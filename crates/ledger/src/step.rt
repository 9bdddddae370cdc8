//! What shares do to a book, step by step.

/// A step of a share. No value of it is made: contracts list the steps.
pub enum LedgerStep {
    /// It owed so much more.
    Owed(u64),
    /// It cleared so much more.
    Cleared(u64),
    /// It set the stop flag.
    FlagSet,
    /// It looked at the flag. Whether it was set.
    FlagSeen(bool),
    /// It looked at the balance. Whether it was 0.
    BalanceSeen(bool),
}
