//! Mailboxes on rings.
//!
//! A ring of fixed room, with one end that pushes and one that pops. A push is the one step of a
//! post, a pop the one step of a take. No call waits for the other end, and none asks for memory
//! once the ring is made. The rule of the ring tells the receiver of each message that fewer were
//! sent before it than a mailbox may carry.
//!
//! Source: the ring of one producer and one consumer of the Rust crate `rtrb`, as the kit has it.

ghost use Rattle.std.specs.Prelude.{◌≡◌, length};
ghost use Rattle.rtrb.specs.Ring.{producer_capacity, consumer_capacity, received as popped};
ghost use Rattle.mail.specs.Limits.{most_places};

use crate::mail::{Mail, PostError};
use nll_sets::Memory;
use rtrb::{Consumer, Producer, Protocol, RingBuffer};
use std::alloc::Global;

/// The places of a ring.
const PLACES: usize = 256;

/// The rule of a mailbox's ring: fewer messages were sent before each one than a mailbox may carry.
#[derive(Clone, Copy)]
pub struct Few;

impl<T> Protocol<T> for Few {
    ghost use Rattle.std.specs.Prelude.{◌<◌, length};
    ghost use Rattle.mail.specs.Limits.{most_posts};

    ghost allows = { λ before _. length before < most_posts };
}

type Pushing<T> = Producer<T, Global, Few>;

type Popping<T> = Consumer<T, Global, Few>;

/// Mailboxes on rings of 256 places in all. A message leaves its place when it is given.
///
/// # Threads
/// No call holds a runtime, and none waits.
///
/// # Cost
/// `pair` makes two allocations: the places, and the words by which the ends meet. No other call
/// asks for memory. `post` and `take` are a few steps each, of which the other end sees one. A
/// `post` looks at the other end's word only where no place is known to be free, a `take` only
/// where no message is known to be there, and each of them once. The memory is given back where
/// both ends are gone, and with it the messages that were left.
#[derive(Clone, Copy)]
pub struct RingMail;

/// The end that posts.
pub struct RingSender<T: Drop> {
    producer: Pushing<T>,
    ghost places: { producer_capacity producer ≡ most_places },
}

/// The end that takes.
#[derive(Drop)]
pub struct RingReceiver<T: Drop> {
    from: u16,
    to: u16,
    count: u64,
    consumer: Popping<T>,
    ghost places: { consumer_capacity consumer ≡ most_places },
    ghost counted: { count ≡ length (popped consumer) },
}

/// A sender that posts no more.
#[derive(Drop)]
pub struct RingClosed<T: Drop> {
    producer: Pushing<T>,
}

/// A settled mailbox.
#[derive(Drop)]
pub struct RingPost<T: Drop> {
    from: u16,
    to: u16,
    count: u64,
    producer: Pushing<T>,
    consumer: Popping<T>,
    ghost places: { consumer_capacity consumer ≡ most_places },
    ghost counted: { count ≡ length (popped consumer) },
}

impl<T: Send + Drop> Mail<T> for RingMail {
    ghost use Rattle.std.specs.Prelude.{◌≡◌, ◌+◌, ◌<◌, ◌++◌, [], ◌∷◌, true, length};
    ghost use Rattle.std.specs.Prelude.{IsOk, IfOk, OnOk, IfErr, IsSome, IfSome, IfNone};
    ghost use Rattle.rtrb.specs.Ring.{sent as pushed, received as popped, known_items};
    ghost use Rattle.mail.specs.Channel.{refusal};
    ghost use Rattle.mail.specs.Rings.{sent_by, received_by, ends_of, room_of, seen_by};
    ghost use Rattle.mail.specs.Rings.{IsJoined, ClosesRing};
    ghost use Rattle.mail.specs.declared.ring_mail.RingSender.{RingSender};
    ghost use Rattle.mail.specs.declared.ring_mail.RingClosed.{RingClosed};
    ghost use Rattle.mail.specs.declared.ring_mail.RingReceiver.{RingReceiver};
    ghost use Rattle.mail.specs.Limits.{most_posts, most_places};

    type S = RingSender<T>;

    type R = RingReceiver<T>;

    type Closed = RingClosed<T>;

    type Post = RingPost<T>;

    ghost is_bounded = { true };

    ghost sent = { sent_by };

    ghost received = { received_by };

    ghost ends = { ends_of };

    ghost pairs = { IsJoined };

    ghost all_sent = { λ closed. pushed closed.producer };

    ghost closes = { ClosesRing };

    ghost post_ends = { λ post. (post.from, post.to) };

    ghost post_sent = { λ post. pushed post.producer };

    ghost post_received = { λ post. popped post.consumer };

    ghost post_rest = { λ post. known_items post.consumer };

    /// The two ends of a new ring. All its places are free, and the sender knows it.
    ///
    /// # Errors
    /// - `Memory`.
    fn pair(
        &self,
        alloc: Global,
        from: u16,
        to: u16,
    ) -> Result<(RingSender<T>, RingReceiver<T>), Memory>
        ensures pair { IfOk result (λ both. IsJoined both.0 both.1) }
        ensures ends { IfOk result (λ both. ends_of both.1 ≡ (from, to)) }
        ensures sent { IfOk result (λ both. sent_by both.0 ≡ []) }
        ensures received { IfOk result (λ both. received_by both.1 ≡ []) }
        ensures room { IfOk result (λ both. room_of both.0 ≡ most_places) }
    {
        let (producer, consumer) = RingBuffer::with_protocol::<Global, Few>(alloc, PLACES)?;
        let sender = RingSender { producer };
        let receiver = RingReceiver {
            from,
            to,
            count: 0,
            consumer,
        };
        Ok((sender, receiver))
    }

    /// Puts a message at the back of the ring. It is sure to succeed where the sender knows of a
    /// free place, and then fills exactly one of those that it knows.
    ///
    /// # Errors
    /// The message comes back, and nothing was sent.
    /// - `Full`, where the sender looked and found no place free.
    fn post(sender: &mut RingSender<T>, message: T) -> Result<(), PostError<T>>
        requires { length (sent_by sender.old) < most_posts }
        ensures ok { OnOk result (sent_by sender.new ≡ sent_by sender.old ++ message ∷ []) }
        ensures refused { IfErr result (λ error. error ≡ refusal true message) }
        ensures unchanged { IfErr result (λ _. sent_by sender.new ≡ sent_by sender.old) }
        ensures pair { (receiver : RingReceiver T)
            → IsJoined sender.old receiver → IsJoined sender.new receiver }
        ensures room { 0 < room_of sender.old → IsOk result }
        ensures fills { OnOk result
            (0 < room_of sender.old → room_of sender.old ≡ room_of sender.new + 1) }
        ensures full { IfErr result (λ _. room_of sender.new ≡ 0) }
    {
        if sender.producer.cached_slots() == 0 && sender.producer.slots() == 0 {
            return Err(PostError::Full(message));
        }
        sender.producer.push_reserved(message);
        Ok(())
    }

    /// Takes the message at the front of the mailbox: the first of those that were seen, where any
    /// were. It looks only where none was seen, and gives none where it then sees none.
    fn take(receiver: &mut RingReceiver<T>) -> Option<T>
        ensures some { IfSome result
            (λ message. received_by receiver.new ≡ received_by receiver.old ++ message ∷ []) }
        ensures none { IfNone result (received_by receiver.new ≡ received_by receiver.old) }
        ensures few { IfSome result (λ _. length (received_by receiver.old) < most_posts) }
        ensures ends { ends_of receiver.new ≡ ends_of receiver.old }
        ensures pair { (sender : RingSender T)
            → IsJoined sender receiver.old → IsJoined sender receiver.new }
        ensures closed { (closed : RingClosed T)
            → ClosesRing closed receiver.old → ClosesRing closed receiver.new }
        ensures seen { 0 < length (seen_by receiver.old) → IsSome result }
        ensures front { IfSome result (λ message.
            0 < length (seen_by receiver.old)
            → seen_by receiver.old ≡ message ∷ seen_by receiver.new) }
        ensures empty { IfNone result (seen_by receiver.new ≡ []) }
    {
        if receiver.consumer.cached_slots() == 0 && receiver.consumer.slots() == 0 {
            return None;
        }
        let message = receiver.consumer.pop_known();
        receiver.count += 1;
        Some(message)
    }

    fn close(sender: RingSender<T>) -> RingClosed<T> {
        let RingSender { producer } = sender;
        RingClosed { producer }
    }

    fn settle(closed: RingClosed<T>, receiver: RingReceiver<T>) -> RingPost<T> {
        let RingClosed { mut producer } = closed;
        let RingReceiver {
            from,
            to,
            count,
            mut consumer,
        } = receiver;
        consumer.slots_beside(&mut producer);
        RingPost {
            from,
            to,
            count,
            producer,
            consumer,
        }
    }

    fn count(post: &RingPost<T>) -> u64 {
        post.count
    }
}

impl RingMail {
    ghost use Rattle.std.specs.Prelude.{◌≡◌, ◌≤◌, length};
    ghost use Rattle.mail.specs.Rings.{sent_by, room_of, IsJoined};
    ghost use Rattle.mail.specs.declared.ring_mail.RingReceiver.{RingReceiver};
    ghost use Rattle.mail.specs.declared.ring_mail.RingPost.{RingPost};
    ghost use Rattle.mail.specs.Limits.{most_places};

    /// Mailboxes on rings. Each of them is made by `pair`, and nothing was sent through it.
    pub fn new() -> RingMail
        ensures { result ≡ record {} }
    {
        RingMail
    }

    /// How many posts are sure to succeed: the sender looks, and knows of so many free places,
    /// which no one else fills. The receiver may free more at any time.
    pub fn room<T: Drop>(sender: &mut RingSender<T>) -> usize
        ensures exact { result ≡ room_of sender.new }
        ensures least { room_of sender.old ≤ room_of sender.new }
        ensures most { result ≤ most_places }
        ensures sent { sent_by sender.new ≡ sent_by sender.old }
        ensures pair { (receiver : RingReceiver T)
            → IsJoined sender.old receiver → IsJoined sender.new receiver }
    {
        sender.producer.slots()
    }

    /// A law: a ring has 256 places in all, so whatever its ends did, at most 256 messages were
    /// sent and not received where they are settled.
    pub fn few_left<T: Send + Drop>()
        ensures { (post : RingPost T)
            → length (⟦<RingMail as Mail<T>>⟧.post_rest post) ≤ most_places }
    {}
}
