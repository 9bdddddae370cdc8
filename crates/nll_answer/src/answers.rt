//! The answer to a text: read, solve, and print.

ghost use Rattle.std.specs.Prelude.{◌≡◌, ◌<◌, ◌≤◌, ◌↔◌, ℕ, All, IfErr, IfOk, length};
ghost use Rattle.nll_problem.specs.Faults.{AreFaults};
ghost use Rattle.nll_problem.specs.Problem.{IsSound};
ghost use Rattle.nll_problem.specs.Solution.{Least};
ghost use Rattle.nll_core.specs.Values.{IsHeld, IsShaped};
ghost use Rattle.nll_answer.specs.Answer.{IsAnswer, IsProblemAnswer, status_of_faults};
ghost use Rattle.nll_answer.specs.Report.{IsValuesReport, faults_report};
ghost use Rattle.nll_answer.specs.Texts.{IsAnswerError};

use crate::error::AnswerError;
use crate::faults_report::faults_text;
use crate::meant_problem::{meaning, read_meaning};
use crate::values_report::region_lines;
use nll_core::{Memory, Problem, RegionId, Values, faults, solve};
use nll_facts::Facts;
use nll_format::Labels;
use std::alloc::Global;

/// What is asked of a text.
#[derive(Clone, Copy, Debug, PartialEq, Eq)]
pub enum Command {
    /// The least values of all regions.
    Values,
    /// The universal region errors.
    Check,
}

/// Answers a command on a facts text or a MIR text: the report's bytes and the program's status.
///
/// # Errors
/// - `Text`: the text's fault, at its line.
/// - `Rule`: the body that the text means has more than `MAX_CONSTRAINTS` constraints.
/// - `Memory`.
pub fn answer(alloc: Global, command: Command, text: &[u8]) -> Result<(Vec<u8>, u8), AnswerError>
    ensures ok { IfOk result (λ r. IsAnswer command text.now r.0.items r.1) }
    ensures status { IfOk result (λ r. r.1 ≤ 1) }
    ensures err { IfErr result (IsAnswerError text.now) }
{
    let facts = meaning(alloc, text)?;
    Ok(answer_of(alloc, command, facts)?)
}

/// Like `answer`, but takes the text, and frees it once it is read.
///
/// # Errors
/// As of `answer`.
pub fn answer_text(
    alloc: Global,
    command: Command,
    text: Vec<u8>,
) -> Result<(Vec<u8>, u8), AnswerError>
    ensures ok { IfOk result (λ r. IsAnswer command text.items r.0.items r.1) }
    ensures status { IfOk result (λ r. r.1 ≤ 1) }
    ensures err { IfErr result (IsAnswerError text.items) }
{
    let facts = read_meaning(alloc, text)?;
    Ok(answer_of(alloc, command, facts)?)
}

/// The answer to a command on a problem and its labels. The problem is freed before its report is
/// made.
///
/// # Errors
/// `Memory` alone.
pub fn answer_of(alloc: Global, command: Command, facts: Facts) -> Result<(Vec<u8>, u8), Memory>
    requires { length facts.labels.names ≡ facts.problem.regions }
    ensures ok { IfOk result (λ r.
        IsProblemAnswer command facts.problem facts.labels r.0.items r.1) }
    ensures status { IfOk result (λ r. r.1 ≤ 1) }
{
    let Facts { problem, labels } = facts;
    let answer = asked(alloc, command, problem, &labels);
    // Early drop.
    drop(labels);
    answer
}

// The answer to a command on a problem, by the names of the labels.
fn asked(
    alloc: Global,
    command: Command,
    problem: Problem,
    labels: &Labels,
) -> Result<(Vec<u8>, u8), Memory>
    requires { length labels.now.names ≡ problem.regions }
    ensures ok { IfOk result (λ r. IsProblemAnswer command problem labels.now r.0.items r.1) }
    ensures status { IfOk result (λ r. r.1 ≤ 1) }
{
    match command {
        Command::Values => {
            let report = values_of(alloc, problem, labels)?;
            Ok((report, 0))
        }
        Command::Check => {
            let faults = faults_of(alloc, &problem);
            drop(problem);
            let faults = faults?;
            told_faults(alloc, labels, faults)
        }
    }
}

// The report of the least values.
fn values_of(alloc: Global, problem: Problem, labels: &Labels) -> Result<Vec<u8>, Memory>
    requires { length labels.now.names ≡ problem.regions }
    ensures { IfOk result (λ report.
        IsValuesReport problem labels.now (Least problem) report.items) }
{
    let points = problem.points();
    let regions = problem.regions();
    let values = solve(alloc, &problem);
    drop(problem);
    let values = values?;
    let report = region_lines(alloc, points, regions, labels, &values);
    // Early drop.
    drop(values);
    report
}

/// The report of faults, and the status that says whether there are any.
pub(crate) fn told_faults(
    alloc: Global,
    labels: &Labels,
    faults: Vec<(RegionId, RegionId)>,
) -> Result<(Vec<u8>, u8), Memory>
    requires { All (λ fault. (fault.0 < length labels.now.names)
        × (fault.1 < length labels.now.names)) faults.items }
    ensures report { IfOk result (λ r. r.0.items ≡ faults_report labels.now faults.items) }
    ensures told { IfOk result (λ r. r.1 ≡ status_of_faults faults.items) }
    ensures status { IfOk result (λ r. r.1 ≤ 1) }
{
    let report = faults_text(alloc, labels, faults.as_slice());
    let status = if faults.is_empty() { 0 } else { 1 };
    drop(faults);
    Ok((report?, status))
}

// The faults of the least values.
fn faults_of(alloc: Global, problem: &Problem) -> Result<Vec<(RegionId, RegionId)>, Memory>
    ensures exact { IfOk result (λ found. AreFaults problem.now (Least problem.now) found.items) }
    ensures sound { IfOk result (λ _. IsSound problem.now) }
{
    let values = solve(alloc, problem)?;
    found_faults(alloc, problem, values)
}

/// The faults of values that are the least.
pub(crate) fn found_faults(
    alloc: Global,
    problem: &Problem,
    values: Values,
) -> Result<Vec<(RegionId, RegionId)>, Memory>
    requires shaped { IsShaped problem.now values }
    requires least { (r e : ℕ) → IsHeld values r e ↔ Least problem.now r e }
    ensures exact { IfOk result (λ found. AreFaults problem.now (Least problem.now) found.items) }
    ensures sound { IfOk result (λ _. IsSound problem.now) }
{
    // Clause call: the problem is sound.
    let _ = problem.universals();
    let found = faults(alloc, problem, &values);
    // Early drop.
    drop(values);
    found
}
