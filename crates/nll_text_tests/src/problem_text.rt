//! The problem of a text's body, as text.
use nll_body::Body;
use nll_mir_text::read_mir;
use nll_problem::{At, BaseRun, Problem};
use nll_rules::problem_of;
use nll_worked::text_of;
use std::alloc::{AllocError, Global};

// Writes how many regions there are, the outlives facts and the base facts.
fn write_facts(out: &mut String, problem: &Problem) -> Result<(), AllocError> {
    write!(out, "{} regions|", problem.regions())?;
    for (longer, shorter) in problem.outlives_facts() {
        write!(out, "outlives {} {}|", longer.0, shorter.0)?;
    }
    for run in problem.base_runs() {
        write_run(out, run)?;
    }
    Ok(())
}

// Writes the base facts of a run.
fn write_run(out: &mut String, run: &BaseRun) -> Result<(), AllocError> {
    for point in run.first..run.end {
        write!(out, "base {} {point}|", run.region.0)?;
    }
    Ok(())
}

// Writes the constraints, by the region that is outlived, the one that outlives it and the point;
// those at all points come before those of the same regions at a point.
fn write_constraints(out: &mut String, alloc: Global, problem: &Problem) -> Result<(), AllocError> {
    let mut constraints = Vec::from_slice(alloc, problem.constraints())?;
    constraints.sort_unstable();
    for constraint in constraints.as_slice() {
        let (sup, sub) = (constraint.sup.0, constraint.sub.0);
        match constraint.at {
            At::All => write!(out, "{sup}: {sub} @ all|")?,
            At::Point(point) => write!(out, "{sup}: {sub} @ {point}|")?,
        }
    }
    Ok(())
}

// What a problem says.
fn told(alloc: Global, problem: &Problem) -> Result<String, AllocError> {
    let mut out = String::new(alloc);
    write_facts(&mut out, problem)?;
    write_constraints(&mut out, alloc, problem)?;
    Ok(out)
}

// What the problem of a body says, or why it has none.
fn told_of_body(alloc: Global, body: &Body) -> Result<String, AllocError> {
    match problem_of(alloc, body) {
        Ok(problem) => {
            let told = told(alloc, &problem);
            drop(problem);
            told
        }
        Err(error) => format!(in alloc; "{error}"),
    }
}

// How many constraints the problem of a body has, or why it has none.
fn count_of_body(alloc: Global, body: &Body) -> Result<String, AllocError> {
    match problem_of(alloc, body) {
        Ok(problem) => {
            let count = problem.constraints().len();
            drop(problem);
            format!(in alloc; "{count} constraints")
        }
        Err(error) => format!(in alloc; "{error}"),
    }
}

// What the problem of a text's body says, or why there is none.
fn told_of_text(alloc: Global, text: &[u8]) -> Result<String, AllocError> {
    match read_mir(alloc, text) {
        Ok(body) => {
            let told = told_of_body(alloc, &body);
            drop(body);
            told
        }
        Err(fault) => format!(in alloc; "line {}: {:?}", fault.line, fault.kind),
    }
}

/// What the problem of a text of lines that end with `|` says, or why there is none.
pub fn problem_told(alloc: Global, lines: &str) -> Result<String, AllocError> {
    let text = text_of(alloc, lines)?;
    let told = told_of_text(alloc, text.as_slice());
    drop(text);
    told
}

/// How many constraints the problem of a text's body has, or why there is none.
pub fn constraints_told(alloc: Global, text: &[u8]) -> Result<String, AllocError> {
    match read_mir(alloc, text) {
        Ok(body) => {
            let told = count_of_body(alloc, &body);
            drop(body);
            told
        }
        Err(fault) => format!(in alloc; "line {}: {:?}", fault.line, fault.kind),
    }
}
