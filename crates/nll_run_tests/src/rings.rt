//! What holds of rings alone: their places, and the room that a sender knows of.
ghost use Rattle.std.specs.Prelude.{◌≡◌, ◌+◌, ◌<◌, ◌≤◌, ◌++◌, [], ◌∷◌, length, IsTrue};
ghost use Rattle.mail.specs.Rings.{sent_by};
ghost use Rattle.mail.specs.Limits.{most_posts};

use super::exchange::numbered;
use nll_mail::{Growth, Mail, PostError, RingMail, RingSender};
use nll_sets::Memory;
use std::alloc::Global;
use std::test::Fail;

// Posts a growth where there is room, which then succeeds. Answers whether there was.
fn post_into_room(sender: &mut RingSender<Growth>, growth: Growth) -> bool
    requires { length (sent_by sender.old) < most_posts }
    ensures { IsTrue result → sent_by sender.new ≡ sent_by sender.old ++ growth ∷ [] }
{
    if RingMail::room(sender) == 0 {
        return false;
    }
    match RingMail::post(sender, growth) {
        Ok(()) => true,
        Err(_) => unreachable!(),
    }
}

// Posts a growth. Answers the error, if there is one.
fn post_one<M: Mail<Growth>>(sender: &mut M::S, growth: Growth) -> Option<PostError<Growth>>
    requires { length (M.sent sender.old) < 1000 }
    ensures few { length (M.sent sender.new) ≤ length (M.sent sender.old) + 1 }
    ensures pair { (receiver : M.R) → M.pairs sender.old receiver → M.pairs sender.new receiver }
{
    M::post(sender, growth).err()
}

// Posts this many growths. Answers whether all were accepted.
fn post_many<M: Mail<Growth>>(sender: &mut M::S, growths: u64) -> bool
    requires { (length (M.sent sender.old) < 1) × (growths < 1000) }
    ensures few { length (M.sent sender.new) ≤ growths }
    ensures pair { (receiver : M.R) → M.pairs sender.old receiver → M.pairs sender.new receiver }
{
    let mut all = true;
    for number in 0..growths {
        let refused = post_one::<M>(sender, numbered(number));
        all = all && refused.is_none();
    }
    all
}

/// What a ring tells in one thread.
#[derive(Clone, Copy, Debug, PartialEq, Eq)]
struct Told {
    /// The room of a new ring.
    room: usize,
    /// Whether 256 posts were accepted.
    accepted: bool,
    /// What one more answers.
    refused: Option<PostError<Growth>>,
    /// The room then.
    left: usize,
    /// What a take gives then.
    taken: Option<Growth>,
    /// Why the next post is refused, if it is.
    posted: Option<PostError<Growth>>,
    /// What one more answers.
    full: Option<PostError<Growth>>,
    /// What a take gives then.
    next: Option<Growth>,
    /// Whether there is room for a post then, which succeeds.
    posted_into_room: bool,
}

fn fill_ring(alloc: Global) -> Result<Told, Memory> {
    let (mut sender, mut receiver) = RingMail::new().pair(alloc, 0, 1)?;
    let room = RingMail::room(&mut sender);
    let accepted = post_many::<RingMail>(&mut sender, 256);
    let refused = post_one::<RingMail>(&mut sender, numbered(256));
    let left = RingMail::room(&mut sender);
    let taken = RingMail::take(&mut receiver);
    let posted = post_one::<RingMail>(&mut sender, numbered(256));
    let full = post_one::<RingMail>(&mut sender, numbered(257));
    let next = RingMail::take(&mut receiver);
    let posted_into_room = post_into_room(&mut sender, numbered(257));
    drop(RingMail::close(sender));
    Ok(Told {
        room,
        accepted,
        refused,
        left,
        taken,
        posted,
        full,
        next,
        posted_into_room,
    })
}

// A ring has 256 places in all: the 257th growth comes back, and each take makes room for exactly
// one more.
#[test]
fn a_ring_has_256_places(rt: HostRuntime) -> Result<(), Fail> {
    let told = fill_ring(rt.alloc())?;
    let wanted = Told {
        room: 256,
        accepted: true,
        refused: Some(PostError::Full(numbered(256))),
        left: 0,
        taken: Some(numbered(0)),
        posted: None,
        full: Some(PostError::Full(numbered(257))),
        next: Some(numbered(1)),
        posted_into_room: true,
    };
    assert_eq!(rt; told, wanted);
    Ok(())
}
