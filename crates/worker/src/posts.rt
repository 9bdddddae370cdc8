//! What a worker posts: at most a given number to each owner at once. The rest, and what a full
//! mailbox refuses, is tried again later.

ghost use Rattle.std.specs.Prelude.{◌≡◌, ◌≢◌, ◌+◌, ◌<◌, ℕ, List, map, take};
ghost use Rattle.std.specs.Prelude.{IfOk, OnOk, false, None};
ghost use Rattle.fixpoint.specs.State.{IsSoundPart, part_for, given_to};
ghost use Rattle.worker.specs.Mailboxes.{Alike, Both, HasEnds, Stays, through};
ghost use Rattle.worker.specs.Tallies.{given_of};
ghost use Rattle.worker.specs.Turning.{HasPosted, HasGivenOn, HasGivenMore, WorkerGoesOn, ComesTo};

use crate::inbox::Heard;
use crate::tally::Tally;
use fixpoint::Analysis;
use mail::{Mail, PostError};

// Posts what isn't given yet of the part of the log that another owner reads, until its mailbox is
// full or the number for one time is reached. Returns how many that were.
fn post_part<A: Analysis, M: Mail<A::Growth>>(
    part: &mut A::Part,
    sender: &mut M::S,
    to: u16,
    most: u64,
) -> Result<u64, PostError<A::Growth>>
    requires sound { IsSoundPart A.rules (A.state part.old) }
    requires whole { (A.state part.old).broken ≡ false }
    requires to { to < A.rules.parts (A.state part.old).system }
    requires sent { let o = A.state part.old in M.sent sender.old
        ≡ take (given_to o to) (part_for A.rules o to) }
    ensures sent { M.sent sender.new
        ≡ take (given_to (A.state part.new) to) (part_for A.rules (A.state part.old) to) }
    ensures many { M.is_bounded ≡ false → OnOk result
        (HasGivenOn A.rules most to (A.state part.old) (A.state part.new)) }
    ensures count { IfOk result (λ posted. given_to (A.state part.new) to
        ≡ given_to (A.state part.old) to + posted) }
    ensures others { A.state part.new
        ≡ record (A.state part.old) { given = (A.state part.new).given } }
    ensures other_given { (j : ℕ) → j ≢ to
        → given_to (A.state part.new) j ≡ given_to (A.state part.old) j }
    ensures pair { (r : M.R) → M.pairs sender.old r → M.pairs sender.new r }
    ensures sound { IsSoundPart A.rules (A.state part.new) }
{
    let mut posted = 0;
    while let Some(growth) = A::next_for(part, to) {
        if posted >= most {
            return Ok(posted);
        }
        match M::post(sender, growth) {
            Ok(()) => A::outgoing(part, to),
            Err(PostError::Full(_)) => return Ok(posted),
            Err(error) => return Err(error),
        };
        posted += 1;
    }
    Ok(posted)
}

// Posts what isn't given yet, to all owners that read it and whose mailboxes aren't full: to each
// at most the number for one time. Returns how many that were.
fn post_all<A: Analysis, M: Mail<A::Growth>>(
    part: &mut A::Part,
    senders: &mut Vec<Option<M::S>>,
    most: u64,
) -> Result<u64, PostError<A::Growth>>
    requires sound { IsSoundPart A.rules (A.state part.old) }
    requires whole { (A.state part.old).broken ≡ false }
    requires ends { HasEnds (A.state part.old).me senders.old.items }
    requires posts { HasPosted A.rules (A.state part.old) (map (through M.sent) senders.old.items) }
    ensures posts { HasPosted A.rules (A.state part.new) (map (through M.sent) senders.new.items) }
    ensures many { M.is_bounded ≡ false
        → OnOk result (HasGivenMore A.rules most (A.rules.parts (A.state part.old).system)
        (A.state part.old) (A.state part.new)) }
    ensures count { IfOk result (λ posted. given_of A.rules (A.state part.new)
        ≡ given_of A.rules (A.state part.old) + posted) }
    ensures others { A.state part.new
        ≡ record (A.state part.old) { given = (A.state part.new).given } }
    ensures pairs { Alike (Both (Stays M.Mail)) senders.old.items senders.new.items }
    ensures sound { IsSoundPart A.rules (A.state part.new) }
{
    let mut count = 0;
    for to in 0..A::owners(part) {
        let posted = match &mut senders[to as usize] {
            Some(sender) => post_part::<A, M>(part, sender, to, most)?,
            // None leads from an owner to itself.
            None => 0,
        };
        count += posted;
    }
    Ok(count)
}

/// Posts what waits and counts it as given, unless the worker has to end: returns what it heard, or
/// why it has to end now.
pub fn share_out<A: Analysis, M: Mail<A::Growth>>(
    heard: Heard,
    part: &mut A::Part,
    senders: &mut Vec<Option<M::S>>,
    tally: &mut Tally,
    most: u64,
) -> Heard
    requires sound { IsSoundPart A.rules (A.state part.old) }
    requires came { (taken : List (List A.Growth)) × (owed : ℕ) × (cleared : ℕ)
        × ComesTo A.rules (A.state part.old) taken owed cleared tally.old heard }
    requires ends { HasEnds (A.state part.old).me senders.old.items }
    requires posts { HasPosted A.rules (A.state part.old) (map (through M.sent) senders.old.items) }
    ensures posts { HasPosted A.rules (A.state part.new) (map (through M.sent) senders.new.items) }
    ensures comes { (taken : List (List A.Growth)) (owed cleared : ℕ)
        → ComesTo A.rules (A.state part.old) taken owed cleared tally.old heard
        → ComesTo A.rules (A.state part.new) taken owed cleared tally.new result }
    ensures many { M.is_bounded ≡ false → WorkerGoesOn result
        → HasGivenMore A.rules most (A.rules.parts (A.state part.old).system)
        (A.state part.old) (A.state part.new) }
    ensures others { A.state part.new
        ≡ record (A.state part.old) { given = (A.state part.new).given } }
    ensures pairs { Alike (Both (Stays M.Mail)) senders.old.items senders.new.items }
    ensures sound { IsSoundPart A.rules (A.state part.new) }
{
    match heard {
        Heard::Stray => return heard,
        Heard::Memory => return heard,
        Heard::Growths => {}
        Heard::Nothing => {}
    }
    if tally.waiting == 0 {
        return heard;
    }
    match post_all::<A, M>(part, senders, most) {
        Ok(posted) => {
            tally.waiting -= posted;
            heard
        }
        Err(_) => Heard::Memory,
    }
}
