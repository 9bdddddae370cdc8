//! What an owner does, one step at a time.

/// An event of a schedule. Owners are named by their numbers.
#[derive(Clone, Copy, Debug, PartialEq, Eq)]
pub enum Event {
    /// The owner enters the base facts of its regions.
    Load(u16),
    /// The first owner takes a growth from the mailbox in which the second one sends it growths.
    Take(u16, u16),
    /// The owner owes for the growths that its last load or take led to.
    Owe(u16),
    /// The owner clears the load or the growth that it took.
    Clear(u16),
    /// The first owner puts a growth into the mailbox in which it sends growths to the second one.
    Push(u16, u16),
    /// The owner asks whether all is quiet, and then leaves.
    Leave(u16),
}
