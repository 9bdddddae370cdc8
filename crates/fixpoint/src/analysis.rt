//! What an analysis says, and what each of its parts does.

ghost use Rattle.std.specs.Prelude.{◌≡◌, ◌↔◌, ◌+◌, ◌<◌, ◌≤◌, ℕ, List, true, false, length, Some};
ghost use Rattle.std.specs.Prelude.{Err, slice_get, slice_set, IfOk, OnOk, OnErr, IfSome, IfNone};
ghost use Rattle.std.specs.Prelude.{IsTrue, Contains};
ghost use Rattle.nll_sets.specs.Prefix.{IsPrefix};
ghost use Rattle.fixpoint.specs.State.{State, IsSoundPart, IsDone, IsReadyPart, Passes, first_state};
ghost use Rattle.fixpoint.specs.State.{part_for, given_to, with_growths, GotBeginning};
ghost use Rattle.fixpoint.specs.declared.error.PartError.TheVariants.{Broken};

use crate::error::PartError;
use crate::rules::Rules;
use nll_sets::Memory;
use std::alloc::Global;

/// An analysis whose facts are assigned to owners. Each owner has a part: it keeps what it knows of
/// its own facts and of those of others that it reads, and writes down each growth of its own.
///
/// A contract sees a part as its lists (`state`): the log, what it received from each owner, and
/// how much it gave to each.
pub trait Analysis: Rules {
    /// The part of one owner.
    type Part: Drop;
    /// What a part returns in the end, beside its log.
    type Yield: Drop;

    /// A part as contracts see it.
    ghost state: { Self.Part → State Self Self.Growth };
    /// What the part of this number returns says what its log tells.
    ghost yields: { Self → ℕ → List Self.Growth → Self.Yield → Type 0 };

    /// A part that has done nothing yet.
    ///
    /// # Errors
    /// - `Memory`.
    fn part(&self, alloc: Global, me: u16) -> Result<Self::Part, Memory>
        requires { me < Self.rules.parts self.now }
        ensures { IfOk result (λ part. state part ≡ first_state Self.rules self.now me) };

    /// The number of the part's owner.
    fn me(part: &Self::Part) -> u16
        ensures value { result ≡ (state part.now).me }
        ensures sound { IsSoundPart Self.rules (state part.now) };

    /// How many owners there are.
    fn owners(part: &Self::Part) -> u16
        ensures value { result ≡ Self.rules.parts (state part.now).system }
        ensures sound { IsSoundPart Self.rules (state part.now) };

    /// Enters the facts that follow from nothing, and grows until nothing is left to do.
    ///
    /// # Errors
    /// - `Broken`: an earlier call was refused; nothing has changed.
    /// - `Memory`: the log may have grown.
    fn load(part: &mut Self::Part) -> Result<(), PartError>
        requires { (state part.old).broken ≡ false → (state part.old).loaded ≡ false }
        ensures begins { IsPrefix (state part.old).log (state part.new).log }
        ensures others { state part.new ≡ record (state part.old) {
          log = (state part.new).log;
          loaded = (state part.new).loaded;
          broken = (state part.new).broken;
        } }
        ensures done { OnOk result (IsDone Self.rules (state part.new)) }
        ensures ok { OnOk result (((state part.old).broken ≡ false)
            × ((state part.new).loaded ≡ true) × ((state part.new).broken ≡ false)) }
        ensures err { OnErr result ((state part.new).broken ≡ true) }
        ensures broken { (result ≡ Err Broken) ↔ ((state part.old).broken ≡ true) }
        ensures unchanged { (state part.old).broken ≡ true → state part.new ≡ state part.old }
        ensures sound { IsSoundPart Self.rules (state part.new) };

    /// Receives growths of another owner, in the order in which it sent them, and follows up all of
    /// them together. Nothing is left to do then. The part is loaded, or a call of it was refused.
    ///
    /// # Errors
    /// - `Broken`: an earlier call was refused; nothing has changed.
    /// - `Memory`: a prefix of the growths may have been received, and the log may have grown.
    fn receive_all(
        part: &mut Self::Part,
        from: u16,
        growths: &[Self::Growth],
    ) -> Result<(), PartError>
        requires ready { IsReadyPart (state part.old) }
        requires passes { (g : Self.Growth) → Contains growths.now g
            → Passes Self.rules (state part.old).system (state part.old).me from g }
        ensures begins { IsPrefix (state part.old).log (state part.new).log }
        ensures others { state part.new ≡ record (state part.old) {
          log = (state part.new).log;
          received = (state part.new).received;
          broken = (state part.new).broken;
        } }
        ensures received { OnOk result ((state part.new).received
            ≡ with_growths (state part.old).received from growths.now) }
        ensures perhaps { GotBeginning (state part.old).received from growths.now
            (state part.new).received }
        ensures done { OnOk result (IsDone Self.rules (state part.new)) }
        ensures ok { OnOk result (((state part.old).broken ≡ false)
            × ((state part.new).broken ≡ false)) }
        ensures err { OnErr result ((state part.new).broken ≡ true) }
        ensures broken { (result ≡ Err Broken) ↔ ((state part.old).broken ≡ true) }
        ensures unchanged { (state part.old).broken ≡ true → state part.new ≡ state part.old }
        ensures sound { IsSoundPart Self.rules (state part.new) };

    /// Whether the part may receive a growth from another owner.
    fn passes(part: &Self::Part, from: u16, growth: &Self::Growth) -> bool
        ensures { IsTrue result
            ↔ Passes Self.rules (state part.now).system (state part.now).me from growth.now };

    /// The growth that `outgoing` gives next. None if that gives none.
    fn next_for(part: &Self::Part, to: u16) -> Option<Self::Growth>
        ensures some { IfSome result (λ growth. ((state part.now).broken ≡ false)
            × (slice_get (part_for Self.rules (state part.now) to) (given_to (state part.now) to)
            ≡ Some growth)) }
        ensures none { IfNone result ((state part.now).broken ≡ false
            → to < Self.rules.parts (state part.now).system
            → given_to (state part.now) to
            ≡ length (part_for Self.rules (state part.now) to)) }
        ensures sound { IsSoundPart Self.rules (state part.now) };

    /// The next growth of the part of the log that another owner reads; this call gives it. None if
    /// all of it was given, if `to` is no other owner, and after an error.
    fn outgoing(part: &mut Self::Part, to: u16) -> Option<Self::Growth>
        ensures some { IfSome result (λ growth. ((state part.old).broken ≡ false)
            × (slice_get (part_for Self.rules (state part.old) to) (given_to (state part.old) to)
            ≡ Some growth)
            × (state part.new ≡ record (state part.old) {
              given = slice_set (state part.old).given to (given_to (state part.old) to + 1);
            })) }
        ensures none { IfNone result ((state part.new ≡ state part.old)
            × ((state part.old).broken ≡ false → to < Self.rules.parts (state part.old).system
            → given_to (state part.old) to
            ≡ length (part_for Self.rules (state part.old) to))) }
        ensures sound { IsSoundPart Self.rules (state part.new) };

    /// How many growths of the part of the log that another owner reads weren't given; 0 if `to` is
    /// no other owner, and after an error.
    fn unsent(part: &Self::Part, to: u16) -> u64
        ensures count { (state part.now).broken ≡ false
            → to < Self.rules.parts (state part.now).system
            → given_to (state part.now) to + result
            ≡ length (part_for Self.rules (state part.now) to) }
        ensures past { Self.rules.parts (state part.now).system ≤ to → result ≡ 0 }
        ensures broken { (state part.now).broken ≡ true → result ≡ 0 }
        ensures sound { IsSoundPart Self.rules (state part.now) };

    /// How many growths the log has.
    fn grown(part: &Self::Part) -> u64
        ensures { result ≡ length (state part.now).log };

    /// Returns the log, and what the part says beside it.
    fn into_parts(part: Self::Part, alloc: Global) -> (Vec<Self::Growth>, Self::Yield)
        ensures log { result.0.items ≡ (state part).log }
        ensures yields { yields (state part).system (state part).me (state part).log result.1 };

    /// What is returned where there is no part.
    fn none(alloc: Global) -> Self::Yield;
}

/// An analysis that threads share, each with a part of its own.
pub trait ThreadAnalysis: Rules<Fact: Send, Growth: Send>
    + Analysis<Part: Send, Yield: Send>
    + Sync {}

impl<A: Rules<Fact: Send, Growth: Send> + Analysis<Part: Send, Yield: Send> + Sync> ThreadAnalysis
    for A {}
