//! The outcome of a schedule, and the states of a world, as text.
ghost use Rattle.std.specs.Prelude.{◌≡◌, ◌<◌, length};
ghost use Rattle.nll_core.specs.Values.{IsShaped};

use super::failure::Failure;
use nll_core::{Problem, RegionId, Values};
use nll_cut::Cut;
use nll_mail::Growth;
use nll_model::{Event, Lane, ModelError, Replay, Seat, Step, World, replay};
use std::alloc::{AllocError, Global};
use std::collections::VecDeque;

// Writes what an event answers.
fn write_answer(out: &mut String, answer: Option<Step>) -> Result<(), AllocError> {
    out.push_str(match answer {
        Some(Step::Done) => "done|",
        Some(Step::Quiet) => "quiet|",
        Some(Step::Open) => "open|",
        None => "not now|",
    })
}

// Writes the value of a region.
fn write_value(out: &mut String, values: &Values, region: RegionId) -> Result<(), AllocError>
    requires { region < length values.now }
{
    write!(out, "{}:", region.0)?;
    for element in values.iter(region) {
        write!(out, " {}", element.0)?;
    }
    out.push('|')
}

/// Writes the value of each region.
pub fn write_values(out: &mut String, problem: &Problem, values: &Values) -> Result<(), AllocError>
    requires { IsShaped problem.now values.now }
{
    for number in 0..problem.regions() {
        write_value(out, values, RegionId(number))?;
    }
    Ok(())
}

// Writes what each event answered, the balance and the values.
fn write_replay(out: &mut String, problem: &Problem, told: &Replay) -> Result<(), AllocError>
    requires { IsShaped problem.now told.now.values }
{
    for answer in &told.answers {
        write_answer(out, *answer)?;
    }
    write!(out, "balance {}|", told.balance)?;
    write_values(out, problem, &told.values)
}

/// The outcome of a schedule of the owners of a cut: what each event answers, the balance, and the
/// value of each region.
pub fn replayed_over(
    alloc: Global,
    problem: &Problem,
    cut: &Cut,
    events: &[Event],
) -> Result<String, Failure>
    requires { length cut.now.list ≡ problem.now.regions }
{
    let told = replay(alloc, problem, cut, events)?;
    let mut out = String::new(alloc);
    let written = write_replay(&mut out, problem, &told);
    drop(told);
    written?;
    Ok(out)
}

// ---- states

// Writes growths, each as its region and its element.
fn write_growths(out: &mut String, growths: &[Growth]) -> Result<(), AllocError> {
    for growth in growths {
        write!(out, " {}-{}", growth.region.0, growth.element.0)?;
    }
    Ok(())
}

// Writes one list of a lane, if something is in it.
fn write_queue(out: &mut String, name: &str, growths: &VecDeque<Growth>) -> Result<(), AllocError> {
    if growths.is_empty() {
        return Ok(());
    }
    write!(out, " {name}")?;
    let (front, back) = growths.as_slices();
    write_growths(out, front)?;
    write_growths(out, back)
}

// Writes what is on a lane.
fn write_lane(out: &mut String, lane: &Lane) -> Result<(), AllocError> {
    write_queue(out, "fresh", lane.fresh())?;
    write_queue(out, "out", lane.out())?;
    write_queue(out, "box", lane.boxed())
}

// Writes what an owner works on, how many growths it has grown, what is on its lanes, and whether
// it has left.
fn write_seat(out: &mut String, seat: &Seat) -> Result<(), AllocError> {
    let item = seat.item();
    write!(out, "{item:?} {}", seat.owner().log().len())?;
    for lane in seat.lanes() {
        write_lane(out, lane)?;
    }
    if seat.has_left() {
        out.push_str(" left")?;
    }
    out.push('|')
}

// Writes the state of a world.
fn write_state(out: &mut String, world: &World) -> Result<(), AllocError> {
    for seat in world.seats() {
        write_seat(out, seat)?;
    }
    if world.is_broken() {
        out.push_str("broken|")?;
    }
    write!(out, "{}", world.balance())
}

// Writes what a world answers to an event.
fn write_step(out: &mut String, world: &mut World, event: Event) -> Result<(), AllocError> {
    match world.step(event) {
        Ok(answer) => write_answer(out, Some(answer)),
        Err(ModelError::NotNow) => write_answer(out, None),
        Err(error) => write!(out, "{error}|"),
    }
}

// Takes a world through events, and writes what the last one answers, and the state then.
fn write_last(out: &mut String, world: &mut World, events: &[Event]) -> Result<(), AllocError> {
    for event in events {
        out.clear();
        write_step(out, world, *event)?;
    }
    write_state(out, world)
}

/// What the last of these events of the owners of a cut answers, and the state of the world then:
/// for each owner what it works on, how many growths it has grown, what is on its lanes and whether
/// it has left; and the balance.
pub fn stepped_over(
    alloc: Global,
    problem: &Problem,
    cut: &Cut,
    events: &[Event],
) -> Result<String, Failure>
    requires { length cut.now.list ≡ problem.now.regions }
{
    let mut out = String::new(alloc);
    let mut world = World::new(alloc, problem, cut)?;
    let written = write_last(&mut out, &mut world, events);
    drop(world);
    written?;
    Ok(out)
}
