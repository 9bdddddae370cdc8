//! What a worker takes out of its mailboxes and hands to its part.

ghost use Rattle.std.specs.Prelude.{◌≡◌, ◌<◌, ◌≤◌, ◌++◌, [], false, true, length, map};
ghost use Rattle.std.specs.Prelude.{Contains, slice_set, vec_len, vec_capacity};
ghost use Rattle.mail.specs.Limits.{most_posts};
ghost use Rattle.fixpoint.specs.Logs.{log_of};
ghost use Rattle.fixpoint.specs.State.{IsSoundPart, Passes};
ghost use Rattle.worker.specs.Mailboxes.{Alike, Both, Keeps, through};
ghost use Rattle.worker.specs.Hearing.{LooksInto};
ghost use Rattle.worker.specs.declared.inbox.Heard.TheVariants.{Growths};

use crate::gate::Gate;
use crate::pace::Pace;
use fixpoint::Analysis;
use mail::Mail;

/// The outcome of a look into a mailbox.
#[derive(Clone, Copy, Debug, PartialEq, Eq)]
pub enum Heard {
    /// Nothing was found there.
    Nothing,
    /// The part received growths.
    Growths,
    /// A growth was taken that can't be its sender's.
    Stray,
    /// A growth of memory was refused.
    Memory,
}

/// The receiving ends of a worker's mailboxes, one for each other owner, and a list for what is
/// taken out of one of them.
#[derive(Drop)]
pub struct Inbox<A: Analysis, M: Mail<A::Growth>> {
    /// The ends, by the owner from whom they come; none comes from the worker's own owner.
    pub receivers: Vec<Option<M::R>>,
    /// What was taken at the last look.
    pub batch: Vec<A::Growth>,
}

// Takes growths out of a mailbox into an empty list that has room for them, until none is found
// there, one can't be its sender's, or there are this many. Returns whether all can be their
// sender's.
fn take_batch<A: Analysis, M: Mail<A::Growth>>(
    part: &A::Part,
    receiver: &mut M::R,
    from: u16,
    batch: &mut Vec<A::Growth>,
    most: usize,
) -> bool
    requires empty { batch.old.items ≡ [] }
    requires room { most ≤ vec_capacity batch.old }
    ensures most { length batch.new.items ≤ most }
    ensures taken { M.received receiver.new ≡ M.received receiver.old ++ batch.new.items }
    ensures passes { let o = A.state part.now in result ≡ true → (g : A.Growth)
        → Contains batch.new.items g → Passes A.rules o.system o.me from g }
    ensures stray { let o = A.state part.now in result ≡ false → (g : A.Growth)
        × Contains batch.new.items g × (Passes A.rules o.system o.me from g → ⊥) }
    ensures few { length (M.received receiver.old) ≤ most_posts
        → length (M.received receiver.new) ≤ most_posts }
    ensures pair { (s : M.S) → M.pairs s receiver.old → M.pairs s receiver.new }
    ensures closed { (c : M.Closed) → M.closes c receiver.old → M.closes c receiver.new }
    ensures ends { M.ends receiver.new ≡ M.ends receiver.old }
{
    while batch.len() < most {
        match M::take(receiver) {
            None => return true,
            Some(growth) => {
                batch.push_reserved(growth);
                if !A::passes(part, from, &growth) {
                    return false;
                }
            }
        }
    }
    true
}

// Takes growths out of a mailbox, at most as many as a turn may receive, enters the gate, and hands
// the growths to the part. The list then has what was taken. Room for them is made before, so that
// none is lost if memory is refused.
fn hear<A: Analysis, M: Mail<A::Growth>, G: Gate>(
    pace: &Pace<'_, G>,
    turn: u64,
    part: &mut A::Part,
    receiver: &mut M::R,
    from: u16,
    batch: &mut Vec<A::Growth>,
) -> Heard
    requires sound { IsSoundPart A.rules (A.state part.old) }
    requires whole { (A.state part.old).broken ≡ false }
    requires loaded { (A.state part.old).loaded ≡ true }
    ensures hears { LooksInto A.rules from (A.state part.old) (A.state part.new)
        (M.received receiver.old) (M.received receiver.new) batch.new.items result }
    ensures most { length batch.new.items ≤ pace.now.taken }
    ensures entered { result ≡ Growths → G.entered pace.now.gate.now (A.state part.old).me turn }
    ensures few { length (M.received receiver.old) ≤ most_posts
        → length (M.received receiver.new) ≤ most_posts }
    ensures pair { (s : M.S) → M.pairs s receiver.old → M.pairs s receiver.new }
    ensures closed { (c : M.Closed) → M.closes c receiver.old → M.closes c receiver.new }
    ensures ends { M.ends receiver.new ≡ M.ends receiver.old }
{
    batch.clear();
    match batch.reserve(pace.taken) {
        Ok(()) => {}
        Err(_) => return Heard::Memory,
    }
    if !take_batch::<A, M>(part, receiver, from, batch, pace.taken) {
        return Heard::Stray;
    }
    if batch.is_empty() {
        return Heard::Nothing;
    }
    pace.gate.enter(A::me(part) as usize, turn);
    match A::receive_all(part, from, batch) {
        Ok(()) => Heard::Growths,
        Err(_) => Heard::Memory,
    }
}

/// Takes growths out of one of the mailboxes, at most as many as a turn may receive, enters the
/// gate, and hands the growths to the part. The inbox then has what was taken.
pub fn hear_from<A: Analysis, M: Mail<A::Growth>, G: Gate>(
    pace: &Pace<'_, G>,
    turn: u64,
    part: &mut A::Part,
    inbox: &mut Inbox<A, M>,
    from: u16,
) -> Heard
    requires sound { IsSoundPart A.rules (A.state part.old) }
    requires whole { (A.state part.old).broken ≡ false }
    requires loaded { (A.state part.old).loaded ≡ true }
    requires from { from < vec_len inbox.old.receivers }
    ensures hears { LooksInto A.rules from (A.state part.old) (A.state part.new)
        (log_of (map (through M.received) inbox.old.receivers.items) from)
        (log_of (map (through M.received) inbox.new.receivers.items) from)
        inbox.new.batch.items result }
    ensures most { length inbox.new.batch.items ≤ pace.now.taken }
    ensures entered { result ≡ Growths → G.entered pace.now.gate.now (A.state part.old).me turn }
    ensures few { length (log_of (map (through M.received) inbox.old.receivers.items) from)
        ≤ most_posts
        → length (log_of (map (through M.received) inbox.new.receivers.items) from) ≤ most_posts }
    ensures others { map (through M.received) inbox.new.receivers.items ≡ slice_set
        (map (through M.received) inbox.old.receivers.items) from
        (log_of (map (through M.received) inbox.new.receivers.items) from) }
    ensures keeps { Alike (Both (Keeps M.Mail)) inbox.old.receivers.items
        inbox.new.receivers.items }
{
    let batch = &mut inbox.batch;
    match &mut inbox.receivers[from as usize] {
        Some(receiver) => hear::<A, M, G>(pace, turn, part, receiver, from, batch),
        None => {
            batch.clear();
            Heard::Nothing
        }
    }
}
