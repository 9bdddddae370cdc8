//! What every kind of mailbox promises.

ghost use Rattle.std.specs.Prelude.{◌≡◌, ℕ, ◌<◌, Bool, List, [], ◌∷◌, ◌++◌, length};
ghost use Rattle.std.specs.Prelude.{IfOk, OnOk, IfErr, IfSome, IfNone};
ghost use Rattle.mail.specs.Channel.{refusal};
ghost use Rattle.mail.specs.Limits.{most_posts};

use nll_sets::Memory;
use std::alloc::Global;

/// Why a post is refused. The message comes back.
#[derive(Clone, Copy, Drop, Debug, PartialEq, Eq)]
pub enum PostError<T> {
    /// No place is free. Only a mailbox of bounded room is ever full.
    Full(T),
    /// A growth of memory was refused. Only a mailbox that grows asks for memory.
    Memory(T),
}

/// A kind of mailbox: a channel from one owner to another that keeps what is posted in order.
///
/// A mailbox has two ends, and each of them knows only its own list: the sender what was sent, the
/// receiver what was received. What ties the two lists is known once both ends meet, in `settle`.
pub trait Mail<T> {
    /// The end that posts. It is used up by `close`, and can't be let go.
    type S;
    /// The end that takes.
    type R: Drop;
    /// A sender that posts no more.
    type Closed: Drop;
    /// A settled mailbox.
    type Post: Drop;

    /// Its room is bounded: a post may find it full, and asks for no memory.
    ghost is_bounded: { Bool };
    /// What a sender has sent, in order.
    ghost sent: { Self.S → List T };
    /// What a receiver has received, in order.
    ghost received: { Self.R → List T };
    /// From whom to whom the mailbox of a receiver goes.
    ghost ends: { Self.R → ℕ × ℕ };
    /// The two are the ends of one mailbox.
    ghost pairs: { Self.S → Self.R → Type 0 };
    /// What a closed sender has sent, in order.
    ghost all_sent: { Self.Closed → List T };
    /// The closed sender and the receiver are the ends of one mailbox.
    ghost closes: { Self.Closed → Self.R → Type 0 };
    /// From whom to whom a settled mailbox went.
    ghost post_ends: { Self.Post → ℕ × ℕ };

    /// What was sent through a settled mailbox, in order.
    ghost post_sent: { Self.Post → List T };

    /// What was received through it, in order.
    ghost post_received: { Self.Post → List T };

    /// What was left in it, in order.
    ghost post_rest: { Self.Post → List T };

    /// The two ends of a new mailbox, through which nothing was sent.
    ///
    /// # Errors
    /// - `Memory`.
    fn pair(&self, alloc: Global, from: u16, to: u16) -> Result<(Self::S, Self::R), Memory>
        ensures pair { IfOk result (λ both. pairs both.0 both.1) }
        ensures ends { IfOk result (λ both. ends both.1 ≡ (from, to)) }
        ensures sent { IfOk result (λ both. sent both.0 ≡ []) }
        ensures received { IfOk result (λ both. received both.1 ≡ []) };

    /// Puts a message at the back of the mailbox.
    ///
    /// # Errors
    /// The message comes back, and nothing was sent.
    /// - `Full`, where the room is bounded.
    /// - `Memory`, where it isn't.
    fn post(sender: &mut Self::S, message: T) -> Result<(), PostError<T>>
        requires { length (sent sender.old) < most_posts }
        ensures ok { OnOk result (sent sender.new ≡ sent sender.old ++ message ∷ []) }
        ensures refused { IfErr result (λ error. error ≡ refusal is_bounded message) }
        ensures unchanged { IfErr result (λ _. sent sender.new ≡ sent sender.old) }
        ensures pair { (receiver : Self.R)
            → pairs sender.old receiver → pairs sender.new receiver };

    /// Takes the message at the front of the mailbox; none where none is found there.
    fn take(receiver: &mut Self::R) -> Option<T>
        ensures some { IfSome result
            (λ message. received receiver.new ≡ received receiver.old ++ message ∷ []) }
        ensures none { IfNone result (received receiver.new ≡ received receiver.old) }
        ensures few { IfSome result (λ _. length (received receiver.old) < most_posts) }
        ensures ends { ends receiver.new ≡ ends receiver.old }
        ensures pair { (sender : Self.S) → pairs sender receiver.old → pairs sender receiver.new }
        ensures closed { (closed : Self.Closed)
            → closes closed receiver.old → closes closed receiver.new };

    /// Ends the sender.
    fn close(sender: Self::S) -> Self::Closed
        ensures sent { all_sent result ≡ sent sender }
        ensures pair { (receiver : Self.R) → pairs sender receiver → closes result receiver };

    /// Puts the two ends of one mailbox together: what was received is a beginning of what was
    /// sent.
    fn settle(closed: Self::Closed, receiver: Self::R) -> Self::Post
        requires { closes closed receiver }
        ensures ends { post_ends result ≡ ends receiver }
        ensures sent { post_sent result ≡ all_sent closed }
        ensures received { post_received result ≡ received receiver }
        ensures rest { post_sent result ≡ post_received result ++ post_rest result };

    /// How many messages were received.
    fn count(post: &Self::Post) -> u64
        ensures { result ≡ length (post_received post.now) };
}

/// A kind of mailbox whose two ends may live in two threads: each whose ends, and what becomes of
/// them, may be sent to another. That a `take` finds what another thread has posted is not
/// promised.
pub trait ThreadMail<T>: Mail<T, S: Send, R: Send, Closed: Send, Post: Send> + Sync {}

impl<T, M: Mail<T, S: Send, R: Send, Closed: Send, Post: Send> + Sync> ThreadMail<T> for M {}
