//! The sending ends of a worker's mailboxes.

ghost use Rattle.std.specs.Prelude.{◌≡◌, ◌≤◌, [], vec_len, vec_capacity};
ghost use Rattle.worker.specs.Mailboxes.{Alike, Both, Shuts};

use fixpoint::Analysis;
use mail::Mail;
use std::collections::VecDeque;

/// The sending ends of a worker's mailboxes, one for each other owner. Dropping one closes it.
pub struct Outbox<A: Analysis, M: Mail<A::Growth>> {
    /// The ends, by the owner to whom they lead; none leads to the worker's own owner.
    pub senders: Vec<Option<M::S>>,
}

impl<A: Analysis, M: Mail<A::Growth>> Drop for Outbox<A, M> {
    fn drop(self) {
        let Outbox { mut senders } = self;
        while let Some(sender) = senders.pop() {
            match sender {
                Some(sender) => drop(M::close(sender)),
                None => {}
            }
        }
        senders.destroy_empty();
    }
}

impl<A: Analysis, M: Mail<A::Growth>> Outbox<A, M> {
    /// Closes the ends, and puts each at its index of a list that has room for them.
    pub fn close_all(self, room: Vec<Option<M::Closed>>) -> Vec<Option<M::Closed>>
        requires { (room.items ≡ []) × (vec_len self.senders ≤ vec_capacity room) }
        ensures { Alike (Both (Shuts M.Mail)) self.senders.items result.items }
    {
        let Outbox { senders } = self;
        let mut senders = VecDeque::from(senders);
        let mut closed = room;
        while let Some(sender) = senders.pop_front() {
            closed.push_reserved(match sender {
                Some(sender) => Some(M::close(sender)),
                None => None,
            });
        }
        senders.destroy_empty();
        closed
    }
}
