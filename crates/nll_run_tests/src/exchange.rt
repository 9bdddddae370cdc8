//! Growths that one thread posts and another takes.

ghost use Rattle.std.specs.Prelude.{◌≡◌, ◌≤◌, ◌++◌, [], IfOk};
ghost use Rattle.mail.specs.Limits.{most_posts};

use nll_mail::{Growth, Mail, PostError, QueueMail, RingMail};
use nll_problem::RegionId;
use nll_sets::{Element, Memory};
use std::alloc::Global;
use std::sync::Wait;
use std::sync::atomic::{AtomicBool, Ordering};
use std::thread;
use std::thread::Threads;

/// A kind of mailbox of growths.
pub trait GrowthMail: Mail<Growth, S: Send, R: Send, Closed: Send, Post: Send> + Sync {}

impl<R: Wait + Copy + Send + Sync> GrowthMail for QueueMail<R> {}

impl GrowthMail for RingMail {}

/// A sender that is closed when it is let go. A thread's closure can hold it.
pub struct Sending<M: GrowthMail> {
    sender: M::S,
}

impl<M: GrowthMail> Drop for Sending<M> {
    fn drop(self) {
        let Sending { sender } = self;
        drop(M::close(sender));
    }
}

impl<M: GrowthMail> Sending<M> {
    // The sender.
    fn out(self) -> M::S
        ensures { result ≡ self.sender }
    {
        let Sending { sender } = self;
        sender
    }
}

/// The growth that is posted as the one of this number.
pub fn numbered(number: u64) -> Growth {
    Growth {
        region: RegionId(1),
        element: Element((number % 4096) as u32),
        rank: number.wrapping_add(1),
    }
}

// Posts growths up to this number of them, and closes the sender. Tries again where the mailbox is
// full, and gives up where memory is refused.
fn post_all<M: GrowthMail, R: Wait>(
    rt: &R,
    sending: Sending<M>,
    growths: u64,
    gave_up: &AtomicBool,
) -> M::Closed
    requires few { growths ≤ most_posts }
    requires new { M.sent sending.sender ≡ [] }
    ensures { (receiver : M.R) → M.pairs sending.sender receiver → M.closes result receiver }
{
    let mut sender = sending.out();
    let mut number = 0;
    for _ in rt.forever() {
        if number >= growths {
            break;
        }
        match M::post(&mut sender, numbered(number)) {
            Ok(()) => number += 1,
            Err(PostError::Full(_)) => thread::yield_now(),
            Err(PostError::Memory(_)) => {
                gave_up.store(true, Ordering::SeqCst);
                break;
            }
        }
    }
    M::close(sender)
}

// Takes growths until there are so many, or none is left of a sender that gave up. Answers whether
// they came in order.
fn take_all<M: GrowthMail, R: Wait>(
    rt: &R,
    mut receiver: M::R,
    growths: u64,
    gave_up: &AtomicBool,
) -> (M::R, bool)
    ensures ends { M.ends result.0 ≡ M.ends receiver }
    ensures closed { (closed : M.Closed)
        → M.closes closed receiver → M.closes closed result.0 }
{
    let mut count = 0;
    let mut in_order = true;
    for _ in rt.forever() {
        if count >= growths {
            break;
        }
        match M::take(&mut receiver) {
            Some(growth) => {
                in_order = in_order && growth == numbered(count);
                count += 1;
            }
            None if gave_up.load(Ordering::SeqCst) => break,
            None => thread::yield_now(),
        }
    }
    (receiver, in_order)
}

/// Posts growths in one thread, and takes them in another until there are so many or memory is
/// refused. Answers the settled mailbox, and whether they came in order.
pub fn through_two_threads<M: GrowthMail, R: Threads + Wait + Sync>(
    rt: &R,
    alloc: Global,
    mail: &M,
    growths: u64,
) -> Result<(M::Post, bool), Memory>
    requires { growths ≤ most_posts }
    ensures ends { IfOk result (λ settled. M.post_ends settled.0 ≡ (1, 2)) }
    ensures order { IfOk result (λ settled.
        M.post_sent settled.0 ≡ M.post_received settled.0 ++ M.post_rest settled.0) }
{
    let (sender, receiver) = mail.pair(alloc, 1, 2)?;
    let sending = Sending { sender };
    let gave_up = AtomicBool::new(false);
    let flag = &gave_up;
    let ((receiver, in_order), closed) = thread::join(
        rt,
        move || -> (M::R, bool)
            ensures { (M.ends result.0 ≡ M.ends receiver)
                × ((closed : M.Closed) → M.closes closed receiver → M.closes closed result.0) }
        { take_all::<M, R>(rt, receiver, growths, flag) },
        move || -> M::Closed
            requires { (growths ≤ most_posts) × (M.sent sending.sender ≡ []) }
            ensures { (other : M.R) → M.pairs sending.sender other → M.closes result other }
        { post_all::<M, R>(rt, sending, growths, flag) },
    );
    Ok((M::settle(closed, receiver), in_order))
}
