//! The replay of a schedule, and its report.

ghost use Rattle.std.specs.Prelude.{◌≡◌, ◌++◌, ◌∷◌, [], length, IfErr, IfOk, OnOk};
ghost use Rattle.nll_core.specs.Values.{IsHeld, IsShaped};
ghost use Rattle.nll_model.specs.declared.error.ModelError.TheVariants.{Owner};
ghost use Rattle.fixpoint.specs.declared.error.PartError.TheVariants.{Memory as memory};
ghost use Rattle.nll_answer.specs.Report.{IsValuesReport};
ghost use Rattle.nll_answer.specs.ReplayReport.{IsReplayPrinted, IsReplayReport, answer_line};
ghost use Rattle.nll_answer.specs.ReplayReport.{answer_lines, answer_text};

use crate::values_report::values_text;
use itoa::Buffer;
use nll_core::Values;
use nll_cut::Cut;
use nll_format::Labels;
use nll_model::{Event, ModelError, Replay, Step, replay};
use nll_problem::Problem;
use nll_sets::Memory;
use std::alloc::Global;

/// Replays a schedule by the owners of a cut, and prints the outcome.
///
/// # Shape
/// A line for each event, in order: its number from 1, one space, and `done`, `quiet`, `open` or
/// `not now`. Then the line `balance B`, and then a line for each region as `values_text` prints
/// it, of the values that the owners' logs say at the end.
///
/// # Errors
/// - `Owner(Memory)`, and no other.
///
/// # Cost
/// That of the replay, and time linear in the report (not proved).
pub fn replay_text(
    alloc: Global,
    problem: &Problem,
    labels: &Labels,
    cut: &Cut,
    events: &[Event],
) -> Result<Vec<u8>, ModelError>
    requires cut { length cut.now.list ≡ problem.now.regions }
    requires named { length labels.now.names ≡ problem.now.regions }
    ensures report { IfOk result (λ text.
        IsReplayReport problem.now labels.now cut.now events.now text.items) }
    ensures memory { IfErr result (λ error. error ≡ Owner memory) }
{
    let replayed = replay(alloc, problem, cut, events)?;
    let text = lines_of(alloc, problem, labels, &replayed);
    // Early drop.
    drop(replayed);
    Ok(text?)
}

// The lines of the outcome of a schedule.
fn lines_of(
    alloc: Global,
    problem: &Problem,
    labels: &Labels,
    replayed: &Replay,
) -> Result<Vec<u8>, Memory>
    requires shaped { IsShaped problem.now replayed.now.values }
    requires named { length labels.now.names ≡ problem.now.regions }
    ensures { IfOk result (λ text. IsReplayPrinted problem.now labels.now
        replayed.now.answers.items replayed.now.balance replayed.now.values text.items) }
{
    let mut out = Vec::new(alloc);
    push_answers(&mut out, replayed.answers.as_slice())?;
    let mut digits = Buffer::new();
    out.extend_from_slice(b"balance ")?;
    out.extend_from_slice(digits.format(replayed.balance).as_bytes())?;
    out.extend_from_slice(b"\n")?;
    let lines = values_text(alloc, problem, labels, &replayed.values)?;
    out.extend_from_slice(lines.as_slice())?;
    Ok(out)
}

// Appends the lines of the events.
fn push_answers(out: &mut Vec<u8>, answers: &[Option<Step>]) -> Result<(), Memory>
    ensures { OnOk result (out.new.items ≡ out.old.items ++ answer_lines answers.now) }
{
    for (index, answer) in answers.iter().enumerate() {
        push_answer(out, index as u64 + 1, *answer)?;
    }
    Ok(())
}

// Appends the line of the event of this number.
fn push_answer(out: &mut Vec<u8>, number: u64, answer: Option<Step>) -> Result<(), Memory>
    ensures { OnOk result (out.new.items ≡ out.old.items ++ answer_line number answer) }
{
    let mut digits = Buffer::new();
    out.extend_from_slice(digits.format(number).as_bytes())?;
    out.extend_from_slice(b" ")?;
    out.extend_from_slice(words_of(answer).as_bytes())?;
    out.extend_from_slice(b"\n")?;
    Ok(())
}

// The words for what an event answers.
fn words_of(answer: Option<Step>) -> &'static str
    ensures { result.now ≡ answer_text answer }
{
    match answer {
        Some(Step::Done) => "done",
        Some(Step::Quiet) => "quiet",
        Some(Step::Open) => "open",
        None => "not now",
    }
}
