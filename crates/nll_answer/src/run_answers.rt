//! The answer to a problem by owners at work in threads.

ghost use Rattle.std.specs.Prelude.{◌≡◌, ◌≤◌, ◌↔◌, ℕ, IfErr, IfOk, length};
ghost use Rattle.nll_problem.specs.Solution.{Least};
ghost use Rattle.nll_core.specs.Values.{IsHeld, IsShaped};
ghost use Rattle.nll_answer.specs.Answer.{IsProblemAnswer};
ghost use Rattle.nll_answer.specs.Running.{IsRunAnswer, IsRunError};

use crate::answers::{Command, found_faults, told_faults};
use crate::error::AnswerError;
use crate::values_report::values_text;
use nll_core::{Memory, Problem, Values};
use nll_cut::Cut;
use nll_facts::Facts;
use nll_format::Labels;
use nll_ledger::ThreadLedger;
use nll_mail::{Growth, ThreadMail};
use nll_run::{Gate, Outcome, run};
use std::alloc::Global;
use std::sync::Wait;
use std::thread::Threads;

/// The answer to a command on a problem and its labels, found by the owners of a cut, each in a
/// thread of its own. The logs and the mailboxes are freed before the report is made.
///
/// # Errors
/// - `Run`: a thread couldn't be started.
/// - `Memory`.
pub fn answer_run<M: ThreadMail<Growth>, L: ThreadLedger, G: Gate + Sync, R: Threads + Wait + Sync>(
    rt: &R,
    alloc: Global,
    command: Command,
    facts: &Facts,
    cut: &Cut,
    mail: &M,
    ledger: &L,
    gate: &G,
) -> Result<(Vec<u8>, u8), AnswerError>
    requires named { length facts.now.labels.names ≡ facts.now.problem.regions }
    requires cut { length cut.now.list ≡ facts.now.problem.regions }
    ensures ok { IfOk result (λ r.
        IsRunAnswer command facts.now.problem facts.now.labels cut.now r.0.items r.1) }
    ensures status { IfOk result (λ r. r.1 ≤ 1) }
    ensures err { IfErr result IsRunError }
{
    match run::<M, L, G, R>(rt, alloc, &facts.problem, cut, mail, ledger, gate) {
        Ok(outcome) => {
            let Outcome {
                values,
                grown,
                posts,
            } = outcome;
            drop(grown);
            drop(posts);
            Ok(told(alloc, command, &facts.problem, &facts.labels, values)?)
        }
        Err(error) => Err(AnswerError::from(error)),
    }
}

// The report and the status that a command asks of the least values.
fn told(
    alloc: Global,
    command: Command,
    problem: &Problem,
    labels: &Labels,
    values: Values,
) -> Result<(Vec<u8>, u8), Memory>
    requires shaped { IsShaped problem.now values }
    requires least { (r e : ℕ) → IsHeld values r e ↔ Least problem.now r e }
    requires named { length labels.now.names ≡ problem.now.regions }
    ensures ok { IfOk result (λ r. IsProblemAnswer command problem.now labels.now r.0.items r.1) }
    ensures status { IfOk result (λ r. r.1 ≤ 1) }
{
    match command {
        Command::Values => {
            let report = values_text(alloc, problem, labels, &values);
            drop(values);
            Ok((report?, 0))
        }
        Command::Check => {
            let found = found_faults(alloc, problem, values)?;
            told_faults(alloc, labels, found)
        }
    }
}
