//! Who may be started.

ghost use Rattle.std.specs.Prelude.{◌≡◌, ℕ, Bool, true, ⊤};

/// Whether the worker of an owner may be started. By it a test may refuse a start.
pub trait Permit {
    /// What the permit may answer for an owner. By default it may answer anything.
    ghost permits: { Self → ℕ → Bool → Type 0 } = { λ _ _ _. ⊤ };

    /// Whether the worker of this owner may be started. It is asked once for each owner, in the
    /// order of their numbers, right before its start, also after a start that failed. If the
    /// answer is false, the start counts as one that failed.
    fn may_start(&self, owner: usize) -> bool
        ensures { permits self.now owner result };
}

/// A permit that lets each worker be started.
#[derive(Clone, Copy, Debug, PartialEq, Eq)]
pub struct AlwaysStart;

impl Permit for AlwaysStart {
    ghost permits = { λ _ _ answer. answer ≡ true };

    fn may_start(&self, _: usize) -> bool {
        true
    }
}
