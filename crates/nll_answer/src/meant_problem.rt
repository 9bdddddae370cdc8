//! The problem that a text means.

ghost use Rattle.std.specs.Prelude.{◌≡◌, ◌↔◌, length, Err, IfErr, IfOk, IsOkAnd, IsTrue, Ok};
ghost use Rattle.nll_body.specs.Bodies.{labels_of};
ghost use Rattle.nll_mir_text.specs.MirText.{IsMirFault, Means as IsBodyOf};
ghost use Rattle.nll_answer.specs.Texts.{HasProblem, IsAnswerError, IsBodyError, IsErrorOf};
ghost use Rattle.nll_answer.specs.Texts.{IsMeaning, IsMir, error_of_body, error_of_text};

use crate::error::AnswerError;
use nll_body::Body;
use nll_core::Problem;
use nll_facts::{Facts, read_facts};
use nll_format::TextError;
use nll_mir_text::{is_mir_header, read_mir};
use nll_rules::{RuleError, problem_of};
use nll_text::next_line;
use std::alloc::Global;

/// The problem that a facts text or a MIR text means, with the names of its regions and points.
///
/// # Errors
/// - `Text`: the text's fault, at its line.
/// - `Rule`: the body that the text means has more than `MAX_CONSTRAINTS` constraints.
/// - `Memory`.
pub fn meaning(alloc: Global, text: &[u8]) -> Result<Facts, AnswerError>
    ensures ok { IfOk result (λ facts. IsMeaning text.now facts.problem facts.labels) }
    ensures named { IfOk result (λ facts. length facts.labels.names ≡ facts.problem.regions) }
    ensures err { IfErr result (IsAnswerError text.now) }
{
    if is_mir(text) {
        let body = body_of(alloc, text)?;
        facts_of_body(alloc, body)
    } else {
        facts_meaning(alloc, text)
    }
}

/// Like `meaning`, but takes the text, and frees it once it is read: a MIR text is freed before the
/// problem of its body is made.
///
/// # Errors
/// As of `meaning`.
pub fn read_meaning(alloc: Global, text: Vec<u8>) -> Result<Facts, AnswerError>
    ensures ok { IfOk result (λ facts. IsMeaning text.items facts.problem facts.labels) }
    ensures named { IfOk result (λ facts. length facts.labels.names ≡ facts.problem.regions) }
    ensures err { IfErr result (IsAnswerError text.items) }
{
    if is_mir(text.as_slice()) {
        let body = read_body(alloc, text)?;
        facts_of_body(alloc, body)
    } else {
        let facts = facts_meaning(alloc, text.as_slice());
        // Early drop.
        drop(text);
        facts
    }
}

// Whether the first line is the header of a version of MIR texts.
fn is_mir(text: &[u8]) -> bool
    ensures { IsTrue result ↔ IsMir text.now }
{
    let (header, _) = next_line(text);
    is_mir_header(header)
}

// The body of a MIR text that is freed once it is read.
fn read_body(alloc: Global, text: Vec<u8>) -> Result<Body, AnswerError>
    ensures ok { IfOk result (IsBodyOf text.items) }
    ensures err { IfErr result (IsErrorOf (IsMirFault text.items)) }
{
    let body = body_of(alloc, text.as_slice());
    // Early drop.
    drop(text);
    body
}

// The problem that a facts text means.
fn facts_meaning(alloc: Global, text: &[u8]) -> Result<Facts, AnswerError>
    requires { IsMir text.now → ⊥ }
    ensures ok { IfOk result (λ facts. IsMeaning text.now facts.problem facts.labels) }
    ensures named { IfOk result (λ facts. length facts.labels.names ≡ facts.problem.regions) }
    ensures err { IfErr result (IsAnswerError text.now) }
{
    told(read_facts(alloc, text))
}

// The body of a MIR text.
fn body_of(alloc: Global, text: &[u8]) -> Result<Body, AnswerError>
    ensures ok { IfOk result (IsBodyOf text.now) }
    ensures err { IfErr result (IsErrorOf (IsMirFault text.now)) }
{
    told(read_mir(alloc, text))
}

// What was read of a text, or the error of its answer.
fn told<T>(read: Result<T, TextError>) -> Result<T, AnswerError>
    ensures ok { IfOk read (λ value. result ≡ Ok value) }
    ensures err { IfErr read (λ error. result ≡ Err (error_of_text error)) }
{
    match read {
        Ok(value) => Ok(value),
        Err(error) => Err(AnswerError::from(error)),
    }
}

// The problem of a body, with its labels.
fn facts_of_body(alloc: Global, body: Body) -> Result<Facts, AnswerError>
    ensures ok { IfOk result (λ facts. HasProblem body facts.problem facts.labels) }
    ensures err { IfErr result (IsBodyError body) }
{
    let problem = problem_of(alloc, &body);
    labelled(problem, body)
}

// A problem with the labels of its body, or the error of the answer.
fn labelled(problem: Result<Problem, RuleError>, body: Body) -> Result<Facts, AnswerError>
    ensures ok { IfOk problem (λ problem. IsOkAnd result (λ facts.
        (facts.problem ≡ problem) × (facts.labels ≡ labels_of body))) }
    ensures err { IfErr problem (λ error. result ≡ Err (error_of_body error)) }
{
    match problem {
        Ok(problem) => Ok(Facts {
            problem,
            labels: body.into_labels(),
        }),
        Err(error) => {
            drop(body);
            Err(AnswerError::from(error))
        }
    }
}
