//! What every kind of ledger promises.

ghost use Rattle.std.specs.Prelude.{◌≡◌, ◌+◌, ◌<◌, ◌≤◌, ℕ, Bool, true, false, List, [], ◌∷◌};
ghost use Rattle.std.specs.Prelude.{IfOk, Some, slice_get, sum_by, vec_len};
ghost use Rattle.ledger.specs.Amounts.{amount_bound, total_bound};
ghost use Rattle.ledger.specs.Leaving.{IfQuiet, IfStopped, IfLeft, IfOpen};
ghost use Rattle.ledger.specs.declared.step.LedgerStep.{LedgerStep};
ghost use Rattle.ledger.specs.declared.step.LedgerStep.TheVariants.{Owed, Cleared};
ghost use Rattle.ledger.specs.declared.step.LedgerStep.TheVariants.{FlagSet, FlagSeen};
ghost use Rattle.ledger.specs.declared.step.LedgerStep.TheVariants.{BalanceSeen};
ghost use Rattle.fixpoint.specs.Limits.{most_parts};

use nll_sets::Memory;
use std::alloc::Global;

/// How a share left, or that it may not leave yet.
#[derive(Drop)]
pub enum Leave<L, S> {
    /// The balance was found to be 0: all that was owed is cleared.
    Quiet(L),
    /// The stop flag was found set.
    Stopped(L),
    /// Neither was found. The share comes back.
    Open(S),
}

/// What all shares together owed and cleared.
#[derive(Clone, Copy, Debug, PartialEq, Eq)]
pub struct Totals {
    /// The sum of what each share owed.
    pub owed: u64,
    /// The sum of what each share cleared.
    pub cleared: u64,
}

/// A kind of ledger: a book of what the owners of a run owe and have cleared, which tells when
/// nothing is under way, and a flag by which any of them stops all.
///
/// A book is shared by all owners, and each of them has a share of its own. A share knows only its
/// own owner: what this one owed and cleared, what it knows of the flag, and its steps on the book.
/// The balance of a book is what all shares owed less what they cleared; what ties it to the shares
/// is known once all of them have left, in `gather`.
///
/// # Source
/// Project's choice.
pub trait Ledger {
    /// The book of a run.
    type Book: Drop;
    /// What one owner has of a book.
    type Share: Drop;
    /// What is left of a share that has left.
    type Left: Drop;

    /// How many shares a book has.
    ghost owner_count: { Self.Book → ℕ };
    /// The share is of the book.
    ghost belongs: { Self.Book → Self.Share → Type 0 };
    /// The number of the share's owner.
    ghost number: { Self.Share → ℕ };
    /// What the share owed in all.
    ghost owed: { Self.Share → ℕ };
    /// What it cleared in all.
    ghost cleared: { Self.Share → ℕ };
    /// Whether it has called `stop`.
    ghost called: { Self.Share → Bool };
    /// Whether it knows that the flag is set: it has set it, or found it set.
    ghost marked: { Self.Share → Bool };
    /// Its steps on the book, the latest first.
    ghost steps: { Self.Share → List LedgerStep };
    /// What is left is of the book.
    ghost left_belongs: { Self.Book → Self.Left → Type 0 };
    /// The number of the owner that left.
    ghost left_number: { Self.Left → ℕ };
    /// What it owed in all.
    ghost left_owed: { Self.Left → ℕ };
    /// What it cleared in all.
    ghost left_cleared: { Self.Left → ℕ };
    /// Whether it had called `stop`.
    ghost left_called: { Self.Left → Bool };
    /// Whether it left on quiet.
    ghost left_quiet: { Self.Left → Bool };
    /// Its steps on the book, the latest first.
    ghost left_steps: { Self.Left → List LedgerStep };

    /// A new book, and a share for each owner, in their order. Each owes 1, its load.
    ///
    /// # Errors
    /// - `Memory`.
    fn open(&self, alloc: Global, owners: u16) -> Result<(Self::Book, Vec<Self::Share>), Memory>
        requires { (0 < owners) × (owners ≤ most_parts) }
        ensures owners { IfOk result (λ opened. owner_count opened.0 ≡ owners) }
        ensures count { IfOk result (λ opened. vec_len opened.1 ≡ owners) }
        ensures shares { IfOk result (λ opened. (place : ℕ) (share : Self.Share)
            → slice_get opened.1.items place ≡ Some share
            → belongs opened.0 share × (number share ≡ place)
            × (owed share ≡ 1) × (cleared share ≡ 0)
            × (called share ≡ false) × (marked share ≡ false) × (steps share ≡ [])) };

    /// Owes so much more. It is a step at 0 too.
    fn owe(book: &Self::Book, share: &mut Self::Share, amount: u64)
        requires book { belongs book.now share.old }
        requires few { (amount < amount_bound) × (owed share.old + amount < total_bound) }
        ensures book { belongs book.now share.new × (number share.new ≡ number share.old) }
        ensures owed { owed share.new ≡ owed share.old + amount }
        ensures step { steps share.new ≡ Owed amount ∷ steps share.old }
        ensures same { (cleared share.new ≡ cleared share.old)
            × (called share.new ≡ called share.old) × (marked share.new ≡ marked share.old) };

    /// Clears so much more.
    fn clear(book: &Self::Book, share: &mut Self::Share, amount: u64)
        requires book { belongs book.now share.old }
        requires few { (amount < amount_bound) × (cleared share.old + amount < total_bound) }
        ensures book { belongs book.now share.new × (number share.new ≡ number share.old) }
        ensures cleared { cleared share.new ≡ cleared share.old + amount }
        ensures step { steps share.new ≡ Cleared amount ∷ steps share.old }
        ensures same { (owed share.new ≡ owed share.old)
            × (called share.new ≡ called share.old) × (marked share.new ≡ marked share.old) };

    /// Sets the stop flag, for good.
    fn stop(book: &Self::Book, share: &mut Self::Share)
        requires { belongs book.now share.old }
        ensures book { belongs book.now share.new × (number share.new ≡ number share.old) }
        ensures marks { (called share.new ≡ true) × (marked share.new ≡ true) }
        ensures step { steps share.new ≡ FlagSet ∷ steps share.old }
        ensures same { (owed share.new ≡ owed share.old)
            × (cleared share.new ≡ cleared share.old) };

    /// Whether the stop flag was found set. A share that knows of it is always told so.
    fn stopped(book: &Self::Book, share: &mut Self::Share) -> bool
        requires { belongs book.now share.old }
        ensures book { belongs book.now share.new × (number share.new ≡ number share.old) }
        ensures marks { marked share.new ≡ result }
        ensures told { marked share.old ≡ true → result ≡ true }
        ensures step { steps share.new ≡ FlagSeen result ∷ steps share.old }
        ensures same { (owed share.new ≡ owed share.old)
            × (cleared share.new ≡ cleared share.old) × (called share.new ≡ called share.old) };

    /// Leaves the book, where the flag is found set or the balance is found to be 0; else the share
    /// comes back. The flag is looked at first, so a share that knows of it leaves as stopped.
    fn leave(book: &Self::Book, share: Self::Share) -> Leave<Self::Left, Self::Share>
        requires { belongs book.now share }
        ensures left { IfLeft result (λ left. left_belongs book.now left
            × (left_number left ≡ number share)
            × (left_owed left ≡ owed share) × (left_cleared left ≡ cleared share)
            × (left_called left ≡ called share)) }
        ensures quiet { IfQuiet result (λ left. (left_quiet left ≡ true) × (marked share ≡ false)
            × (left_steps left ≡ BalanceSeen true ∷ FlagSeen false ∷ steps share)) }
        ensures stopped { IfStopped result (λ left. (left_quiet left ≡ false)
            × (left_steps left ≡ FlagSeen true ∷ steps share)) }
        ensures back { IfOpen result (λ back. belongs book.now back × (number back ≡ number share)
            × (owed back ≡ owed share) × (cleared back ≡ cleared share)
            × (called back ≡ called share) × (marked back ≡ marked share)
            × (marked share ≡ false)
            × (steps back ≡ BalanceSeen false ∷ FlagSeen false ∷ steps share)) };

    /// Closes a book that all have left: what they owed and cleared together. These are equal where
    /// all left on quiet. Where one didn't, some owner has called `stop`.
    fn gather(book: Self::Book, lefts: Vec<Self::Left>) -> Totals
        requires count { vec_len lefts ≡ owner_count book }
        requires each { (place : ℕ) (left : Self.Left)
            → slice_get lefts.items place ≡ Some left
            → left_belongs book left × (left_number left ≡ place) }
        ensures owed { result.owed ≡ sum_by left_owed lefts.items }
        ensures cleared { result.cleared ≡ sum_by left_cleared lefts.items }
        ensures quiet { ((place : ℕ) (left : Self.Left)
            → slice_get lefts.items place ≡ Some left → left_quiet left ≡ true)
            → result.owed ≡ result.cleared }
        ensures stopped { (place : ℕ) (left : Self.Left)
            → slice_get lefts.items place ≡ Some left → left_quiet left ≡ false
            → (other : ℕ) × (caller : Self.Left)
            × (slice_get lefts.items other ≡ Some caller) × (left_called caller ≡ true) };
}

/// A kind of ledger whose shares may live in as many threads: each whose book may be shared, and
/// whose shares may be sent. That a share finds what another thread owed, cleared or stopped is not
/// promised.
pub trait ThreadLedger: Ledger<Book: Sync, Share: Send, Left: Send> + Sync {}

impl<L: Ledger<Book: Sync, Share: Send, Left: Send> + Sync> ThreadLedger for L {}
