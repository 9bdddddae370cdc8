//! Mailboxes whose messages are texts, which own memory and aren't copied: both kinds, through the
//! bound of all mailboxes.
ghost use Rattle.std.specs.Prelude.{◌+◌, ◌<◌, ◌≤◌, length};

use mail::{Mail, PostError, QueueMail, RingMail};
use nll_sets::Memory;
use std::alloc::Global;
use std::test::Fail;

// The text of this number.
fn text(alloc: Global, number: u64) -> Result<String, Memory> {
    Ok(format!(in alloc; "text {number}")?)
}

// Posts a text. Answers the text that comes back, if it is refused.
fn post_one<M: Mail<String>>(sender: &mut M::S, text: String) -> Option<String>
    requires { length (M.sent sender.old) < 1000 }
    ensures few { length (M.sent sender.new) ≤ length (M.sent sender.old) + 1 }
    ensures pair { (receiver : M.R) → M.pairs sender.old receiver → M.pairs sender.new receiver }
{
    match M::post(sender, text) {
        Ok(()) => None,
        Err(PostError::Full(back) | PostError::Memory(back)) => Some(back),
    }
}

// What two takes behind the posts of two texts give, and how many were received.
fn take_two<M: Mail<String>>(
    alloc: Global,
    mail: &M,
    first: String,
    second: String,
) -> Result<(Option<String>, Option<String>, u64), Memory> {
    let (mut sender, mut receiver) = mail.pair(alloc, 0, 1)?;
    let _ = post_one::<M>(&mut sender, first);
    let _ = post_one::<M>(&mut sender, second);
    let one = M::take(&mut receiver);
    let other = M::take(&mut receiver);
    let settled = M::settle(M::close(sender), receiver);
    Ok((one, other, M::count(&settled)))
}

// Texts come in the order in which they were posted.
#[test]
fn texts_come_in_order(rt: HostRuntime) -> Result<(), Fail> {
    let alloc = rt.alloc();
    let wanted = (Some(text(alloc, 1)?), Some(text(alloc, 2)?), 2);
    let told = take_two(alloc, &QueueMail::new(rt), text(alloc, 1)?, text(alloc, 2)?)?;
    assert_eq!(rt; told, wanted, "on a queue");
    let told = take_two(alloc, &RingMail::new(), text(alloc, 1)?, text(alloc, 2)?)?;
    assert_eq!(rt; told, wanted, "on a ring");
    Ok(())
}
