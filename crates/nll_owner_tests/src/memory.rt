//! Owners that run out of memory: an answer or `Memory`, then `Broken`, and the log only grows.
//! Each allocation is refused in turn from outside; with none refused the owners reach their
//! values.
ghost use Rattle.std.specs.Prelude.{◌≡◌, false, length};
ghost use Rattle.nll_owner.specs.Owner.{IsReadyOwner, Passes};

use nll_core::{BuildError, Problem};
use nll_cut::{Cut, CutError};
use nll_mail::Growth;
use nll_owner::{Owner, OwnerError};
use nll_worked::{BY_TURNS, FILLED_HOLE, REACHED, Written, worked_problem};
use std::alloc::Global;

// How it ends: with this many growths of each owner; with memory refused, and each owner as it must
// be then; or otherwise.
#[derive(Clone, Copy, Debug, PartialEq, Eq)]
enum Ending {
    Grown(usize, usize),
    Refused,
    Wrong,
}

// Whether a log has the growths that it had, this many of which this is the last.
fn has_still(log: &[Growth], count: usize, last: Option<Growth>) -> bool {
    log.len() >= count && (count == 0 || log.get(count - 1) == last.as_ref())
}

// How it ends where a call of an owner was refused: it says `Memory`, and then `Broken`.
fn refusal(error: OwnerError, again: Result<(), OwnerError>, kept: bool) -> Ending {
    if error == OwnerError::Memory && again == Err(OwnerError::Broken) && kept {
        Ending::Refused
    } else {
        Ending::Wrong
    }
}

// Whether an owner has nothing for itself and one other.
fn is_silent(owner: &mut Owner<'_>) -> bool {
    let none_left = owner.unsent(0) == 0 && owner.unsent(1) == 0 && owner.next_for(1).is_none();
    none_left && owner.outgoing(0).is_none() && owner.outgoing(1).is_none()
}

// Loads an owner. Answers how it ends, if that is refused.
fn load(owner: &mut Owner<'_>) -> Option<Ending>
    requires { owner.old.broken ≡ false → owner.old.loaded ≡ false }
{
    let error = owner.load().err()?;
    let again = owner.load();
    let silent = is_silent(owner);
    Some(refusal(error, again, silent))
}

// Hands a growth to an owner. Answers how it ends, if that is refused.
fn receive(owner: &mut Owner<'_>, from: u16, growth: Growth) -> Option<Ending>
    requires ready { IsReadyOwner owner.old }
    requires passes { Passes owner.old.problem owner.old.cut owner.old.me from growth }
{
    let count = owner.log().len();
    let last = owner.log().last().copied();
    let error = owner.receive(from, growth).err()?;
    let kept = has_still(owner.log(), count, last);
    let again = owner.receive(from, growth);
    let silent = is_silent(owner);
    Some(refusal(error, again, kept && silent))
}

// Hands over all growths of one owner for the other. Answers how it ends, if one is refused.
fn hand(one: &mut Owner<'_>, from: u16, other: &mut Owner<'_>, to: u16) -> Option<Ending> {
    for _ in 0..100 {
        let growth = one.outgoing(to)?;
        if !other.is_loaded() || !other.passes(from, &growth) {
            return Some(Ending::Wrong);
        }
        if let Some(ending) = receive(other, from, growth) {
            return Some(ending);
        }
    }
    Some(Ending::Wrong)
}

// Loads two owners, and passes on growths until none is left.
fn exchange(first: &mut Owner<'_>, second: &mut Owner<'_>) -> Option<Ending> {
    if first.is_loaded() || second.is_loaded() {
        return Some(Ending::Wrong);
    }
    if let Some(ending) = load(first) {
        return Some(ending);
    }
    if let Some(ending) = load(second) {
        return Some(ending);
    }
    for _ in 0..10 {
        if let Some(ending) = hand(first, 0, second, 1) {
            return Some(ending);
        }
        if let Some(ending) = hand(second, 1, first, 0) {
            return Some(ending);
        }
    }
    None
}

// How it ends with two owners.
fn with_both(first: &mut Owner<'_>, second: &mut Owner<'_>) -> Ending {
    match exchange(first, second) {
        Some(ending) => ending,
        None => Ending::Grown(first.log().len(), second.log().len()),
    }
}

// Like `with_both`, but makes the second owner.
fn with_first(alloc: Global, problem: &Problem, cut: &Cut, first: &mut Owner<'_>) -> Ending
    requires cut { length cut.now.list ≡ problem.now.regions }
    requires two { cut.now.owners ≡ 2 }
{
    match Owner::new(alloc, problem, cut, 1) {
        Ok(mut second) => {
            let ending = with_both(first, &mut second);
            drop(second);
            ending
        }
        Err(_) => Ending::Refused,
    }
}

// Like `with_first`, for the two owners of a cut.
fn over(alloc: Global, problem: &Problem, cut: &Cut) -> Ending
    requires { length cut.now.list ≡ problem.now.regions }
{
    if cut.owners() != 2 {
        return Ending::Wrong;
    }
    match Owner::new(alloc, problem, cut, 0) {
        Ok(mut first) => {
            let ending = with_first(alloc, problem, cut, &mut first);
            drop(first);
            ending
        }
        Err(_) => Ending::Refused,
    }
}

// Like `over`, with the regions of a problem assigned round-robin.
fn dealt(alloc: Global, problem: &Problem) -> Ending {
    match Cut::round(alloc, problem.regions(), 2) {
        Ok(cut) => over(alloc, problem, &cut),
        Err(CutError::Memory) => Ending::Refused,
        Err(_) => Ending::Wrong,
    }
}

// Like `dealt`, for a written problem.
fn of_written(alloc: Global, written: Written) -> Ending {
    match worked_problem(alloc, written) {
        Ok(problem) => dealt(alloc, &problem),
        Err(BuildError::Memory) => Ending::Refused,
        Err(_) => Ending::Wrong,
    }
}

#[test]
fn refused_owners_are_broken(rt: HostRuntime) {
    for (written, first, second) in [(REACHED, 6, 2), (BY_TURNS, 5, 2), (FILLED_HOLE, 7, 4)] {
        let told = of_written(rt.alloc(), written);
        let is_right = told == Ending::Refused || told == Ending::Grown(first, second);
        assert!(rt; is_right, "{told:?}");
    }
}
