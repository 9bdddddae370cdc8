//! How an owner begins, and what loading and receiving do to what it keeps.

ghost use Rattle.std.specs.Prelude.{◌≡◌, ◌<◌, true, length, Contains, IfOk, OnOk, Err};
ghost use Rattle.nll_mail.specs.declared.growth.Growth.{Growth};
ghost use Rattle.nll_owner.specs.Owner.{IsSoundOwner, IsDone, Passes, with_growths, first_owner};
ghost use Rattle.nll_owner.specs.Tables.{AreTables};
ghost use Rattle.nll_owner.specs.Keeping.{OwnerGrows, Receives};
ghost use Rattle.nll_owner.specs.Following.{IsFollowing, Nothing};
ghost use Rattle.nll_owner.specs.Outboxes.{AreQueued, AreAllQueued};
ghost use Rattle.fixpoint.specs.declared.error.PartError.TheVariants.{Broken};

use crate::follow_up::Following;
use crate::knowledge::Knowledge;
use crate::outboxes::Outboxes;
use crate::slots::Slots;
use crate::tables::Tables;
use fixpoint::PartError;
use nll_cut::Cut;
use nll_mail::Growth;
use nll_problem::Problem;
use nll_sets::Memory;
use std::alloc::Global;

/// What an owner that has done nothing yet knows, has followed up and has to send.
pub fn parts_of<'q>(
    alloc: Global,
    problem: &'q Problem,
    cut: &'q Cut,
    tables: &Tables,
    me: u16,
) -> Result<(Knowledge<'q>, Following, Outboxes), Memory>
    requires cut { length cut.now.list ≡ problem.now.regions }
    requires tables { AreTables problem.now cut.now tables.now }
    requires me { me < cut.now.owners }
    ensures owner { IfOk result (λ parts. parts.0 ≡ first_owner problem.now cut.now me) }
    ensures sound { IfOk result (λ parts. IsSoundOwner parts.0) }
    ensures following { IfOk result
        (λ parts. IsFollowing Nothing (first_owner problem.now cut.now me) parts.1) }
    ensures queued { IfOk result
        (λ parts. AreAllQueued (first_owner problem.now cut.now me) parts.2) }
{
    let outboxes = Outboxes::new(alloc, cut.owners())?;
    let slots = Slots::of(alloc, cut, &tables.readers, me, problem.regions())?;
    let following = Following::new(alloc, problem, cut, &tables.index, &slots, me)?;
    match Knowledge::new(alloc, problem, cut, slots, me) {
        Ok(knowledge) => Ok((knowledge, following, outboxes)),
        Err(error) => Err(error),
    }
}

/// Enters the base elements, settles, and queues what was added to the log.
pub fn load_all(
    knowledge: &mut Knowledge,
    following: &mut Following,
    outboxes: &mut Outboxes,
    tables: &Tables,
) -> Result<(), PartError>
    requires sound { IsSoundOwner knowledge.old }
    requires tables { AreTables knowledge.old.problem knowledge.old.cut tables.now }
    requires following { IsFollowing Nothing knowledge.old following.old }
    requires queued { AreQueued knowledge.old outboxes.old }
    ensures grows { OwnerGrows knowledge.old knowledge.new }
    ensures following { OnOk result (IsFollowing Nothing knowledge.new following.new) }
    ensures queued { OnOk result (AreAllQueued knowledge.new outboxes.new) }
    ensures done { OnOk result (IsDone knowledge.new) }
    ensures whole { result ≡ Err Broken → ⊥ }
{
    knowledge.enter_bases()?;
    following.settle(knowledge, &tables.steps)?;
    knowledge.queue(&tables.readers, outboxes)?;
    Ok(())
}

/// Enters growths into the copies of their regions, settles, and queues what was added to the log.
pub fn receive_and_queue(
    knowledge: &mut Knowledge,
    following: &mut Following,
    outboxes: &mut Outboxes,
    tables: &Tables,
    from: u16,
    growths: &[Growth],
) -> Result<(), PartError>
    requires sound { IsSoundOwner knowledge.old }
    requires tables { AreTables knowledge.old.problem knowledge.old.cut tables.now }
    requires loaded { knowledge.old.loaded ≡ true }
    requires following { IsFollowing Nothing knowledge.old following.old }
    requires queued { AreQueued knowledge.old outboxes.old }
    requires passes { let o = knowledge.old in (g : Growth) → Contains growths.now g
        → Passes o.problem o.cut o.me from g }
    ensures receives { Receives from growths.now knowledge.old knowledge.new }
    ensures received { OnOk result
        (knowledge.new.received ≡ with_growths knowledge.old.received from growths.now) }
    ensures following { OnOk result (IsFollowing Nothing knowledge.new following.new) }
    ensures queued { OnOk result (AreAllQueued knowledge.new outboxes.new) }
    ensures done { OnOk result (IsDone knowledge.new) }
    ensures whole { result ≡ Err Broken → ⊥ }
{
    knowledge.enter_all_received(from, growths)?;
    following.follow_all(knowledge, &tables.steps, growths)?;
    knowledge.queue(&tables.readers, outboxes)?;
    Ok(())
}
