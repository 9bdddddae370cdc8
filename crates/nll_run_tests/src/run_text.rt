//! The outcome of a run, written.
ghost use Rattle.std.specs.Prelude.{◌≡◌, ◌<◌, length};
ghost use Rattle.nll_core.specs.Values.{IsShaped};

use super::deals::{Deal, cut_of};
use super::failure::Failure;
use nll_core::{Problem, RegionId, Values};
use nll_cut::Cut;
use nll_ledger::{Ledger, ThreadLedger};
use nll_mail::{Growth, Mail, ThreadMail};
use nll_run::{Gate, Outcome, run};
use nll_worked::{Written, worked_problem};
use std::alloc::{AllocError, Global};
use std::process::Abort;
use std::sync::Wait;
use std::thread::Threads;

// Writes the value of a region.
fn write_value(out: &mut String, values: &Values, region: RegionId) -> Result<(), AllocError>
    requires { region < length values.now }
{
    write!(out, "{}:", region.0)?;
    for element in values.iter(region) {
        write!(out, " {}", element.0)?;
    }
    out.push('|')
}

// Writes how many logs there are, and the length of each that isn't empty.
fn write_logs(out: &mut String, grown: &[Vec<Growth>]) -> Result<(), AllocError> {
    write!(out, "{}:", grown.len())?;
    let mut owner = 0u32;
    for log in grown {
        if !log.is_empty() {
            write!(out, " {owner} {}", log.len())?;
        }
        owner = owner.saturating_add(1);
    }
    out.push('|')
}

// Writes how many posts there are, and how many growths each that isn't empty received: for each
// sender for each other owner.
fn write_posts<M: ThreadMail<Growth>>(
    out: &mut String,
    posts: &[M::Post],
    owners: u16,
) -> Result<(), AllocError> {
    write!(out, "{}:", posts.len())?;
    let mut from = 0u16;
    let mut to = 0u16;
    for post in posts {
        if to == from {
            to = to.saturating_add(1);
        }
        let count = M::count(post);
        if count > 0 {
            write!(out, " {from}-{to} {count}")?;
        }
        to = to.saturating_add(1);
        if to >= owners {
            to = 0;
            from = from.saturating_add(1);
        }
    }
    Ok(())
}

// Writes the value of each region, the logs and the posts.
fn write_outcome<M: ThreadMail<Growth>>(
    out: &mut String,
    problem: &Problem,
    owners: u16,
    outcome: &Outcome<M::Post>,
) -> Result<(), AllocError>
    requires { IsShaped problem.now outcome.now.values }
{
    for number in 0..problem.regions() {
        write_value(out, &outcome.values, RegionId(number))?;
    }
    write_logs(out, &outcome.grown)?;
    write_posts::<M>(out, &outcome.posts, owners)
}

/// The outcome of a run of the owners of a cut, written. The bounds are all that a run asks of
/// mailboxes, a ledger and a gate.
pub fn told_over<
    M: Mail<Growth, S: Send, R: Send, Closed: Send, Post: Send> + Sync,
    L: Ledger<Book: Sync, Share: Send, Left: Send> + Sync,
    G: Gate + Sync,
    R: Threads + Wait + Sync,
>(
    rt: &R,
    alloc: Global,
    problem: &Problem,
    cut: &Cut,
    mail: &M,
    ledger: &L,
    gate: &G,
) -> Result<String, Failure>
    requires { length cut.now.list ≡ problem.now.regions }
{
    let outcome = run::<M, L, G, R>(rt, alloc, problem, cut, mail, ledger, gate)?;
    let mut out = String::new(alloc);
    let written = write_outcome::<M>(&mut out, problem, cut.owners(), &outcome);
    drop(outcome);
    written?;
    Ok(out)
}

// Like `told_over`, for a problem whose regions are assigned so.
fn told_of<M: ThreadMail<Growth>, L: ThreadLedger, G: Gate + Sync, R: Threads + Wait + Sync>(
    rt: &R,
    alloc: Global,
    problem: &Problem,
    deal: Deal,
    mail: &M,
    ledger: &L,
    gate: &G,
) -> Result<String, Failure> {
    let cut = cut_of(alloc, deal, problem.regions())?;
    let told = told_over::<M, L, G, R>(rt, alloc, problem, &cut, mail, ledger, gate);
    drop(cut);
    told
}

/// The outcome of a run of a written problem, whose regions are assigned so: the value of each
/// region; how many logs there are, and the length of each that isn't empty, after its owner; and
/// how many posts there are, and what each that isn't empty received, after its ends.
pub fn told<M: ThreadMail<Growth>, L: ThreadLedger, G: Gate + Sync, R: Threads + Wait + Sync>(
    rt: &R,
    alloc: Global,
    written: Written,
    deal: Deal,
    mail: &M,
    ledger: &L,
    gate: &G,
) -> Result<String, Failure> {
    let problem = worked_problem(alloc, written)?;
    let told = told_of::<M, L, G, R>(rt, alloc, &problem, deal, mail, ledger, gate);
    drop(problem);
    told
}

// Writes a region that has the first this many elements.
fn write_first(out: &mut String, region: u32, count: u32) -> Result<(), AllocError> {
    write!(out, "{region}:")?;
    for element in 0..count {
        write!(out, " {element}")?;
    }
    out.push('|')
}

/// The outcome of a run of 300 points whose regions all have all points.
pub fn filled(alloc: Global, rest: &str) -> Result<String, AllocError> {
    let mut out = String::new(alloc);
    let universal = write_first(&mut out, 0, 301);
    let first = write_first(&mut out, 1, 300);
    let second = write_first(&mut out, 2, 300);
    let rest = out.push_str(rest);
    universal.and(first).and(second).and(rest).and(Ok(out))
}

/// Compares what was written.
pub fn compare(rt: &impl Abort, told: Result<String, Failure>, want: &str) {
    match told {
        Ok(text) => assert!(rt; text.as_str() == want, "{text} for {want}"),
        Err(failure) => assert!(rt; false, "{failure:?} for {want}"),
    }
}
