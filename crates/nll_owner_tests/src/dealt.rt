//! What is asked of worked problems whose regions are assigned round-robin to owners.
ghost use Rattle.std.specs.Prelude.{◌≡◌, length};

use super::driver::Turn;
use super::failure::Failure;
use super::holdings::handed_over;
use super::lent::lent_over;
use super::owner_text::{answers_over, driven_over, known_over, last_answers_over, logs_over};
use super::world_text::{replayed_over, stepped_over};
use nll_core::Problem;
use nll_cut::Cut;
use nll_mail::Growth;
use nll_model::Event;
use nll_worked::{Written, worked_problem};
use std::alloc::Global;

/// What is asked of the owners of a cut: what the function of the same name tells.
#[derive(Clone, Copy)]
pub enum Asked<'t> {
    Driven(&'t [Turn]),
    Known(&'t [Turn]),
    Logs(&'t [Turn]),
    Answers(&'t [Turn]),
    LastAnswers,
    Lent,
    /// Of an owner, once it got these growths of another one.
    Handed(u16, u16, &'t [Growth]),
    Replayed(&'t [Event]),
    Stepped(&'t [Event]),
}

// What is told of the owners of a cut; `Length` where the owner that is asked for isn't there.
fn told_over(
    alloc: Global,
    problem: &Problem,
    cut: &Cut,
    asked: Asked<'_>,
) -> Result<String, Failure>
    requires { length cut.now.list ≡ problem.now.regions }
{
    match asked {
        Asked::Driven(turns) => driven_over(alloc, problem, cut, turns),
        Asked::Known(turns) => known_over(alloc, problem, cut, turns),
        Asked::Logs(turns) => logs_over(alloc, problem, cut, turns),
        Asked::Answers(turns) => answers_over(alloc, problem, cut, turns),
        Asked::LastAnswers => last_answers_over(alloc, problem, cut),
        Asked::Lent => lent_over(alloc, problem, cut),
        Asked::Handed(me, from, growths) => {
            if me < cut.owners() {
                handed_over(alloc, problem, cut, me, from, growths)
            } else {
                Err(Failure::Length)
            }
        }
        Asked::Replayed(events) => replayed_over(alloc, problem, cut, events),
        Asked::Stepped(events) => stepped_over(alloc, problem, cut, events),
    }
}

// Like `told_over`, with the regions of a problem assigned round-robin.
fn told_round(
    alloc: Global,
    problem: &Problem,
    owners: u16,
    asked: Asked<'_>,
) -> Result<String, Failure> {
    let cut = Cut::round(alloc, problem.regions(), owners)?;
    let told = told_over(alloc, problem, &cut, asked);
    drop(cut);
    told
}

/// What is told of this many owners of a written problem, whose regions are assigned round-robin.
pub fn told(
    alloc: Global,
    written: Written,
    owners: u16,
    asked: Asked<'_>,
) -> Result<String, Failure> {
    let problem = worked_problem(alloc, written)?;
    let told = told_round(alloc, &problem, owners, asked);
    drop(problem);
    told
}
