//! What tests ask, and tables of what is reported. Each row of a table has a subject, a question
//! and the expected report.
use super::builder_calls::write_new;
use super::calls::{Call, Calls, write_behind, write_problem, write_random};
use super::cuts::{Deal, write_cut, write_cut_file};
use super::element_frontiers::write_elements;
use super::end_texts::write_loop;
use super::frontiers::{write_frontier, write_frontier_everywhere, write_frontier_to_end};
use super::graphs::{Then, write_graph_then};
use super::lines::{OfLine, write_line};
use super::messages::{write_memory, write_messages};
use super::mir_lines::write_form;
use super::problem_text::OfProblem;
use super::schedules::write_schedule;
use super::sets::{write_last_bit, write_runs, write_sets, write_within};
use super::skipped::write_skipped;
use super::transcript::Transcript;
use super::type_text::{OfType, write_typed};
use nll_core::At;
use std::alloc::Global;
use std::process::Abort;

/// What is asked.
#[derive(Clone, Copy)]
pub enum Asked {
    /// Of the line that the row looks at.
    Line(OfLine),
    /// Of a line of bytes: whether it is skipped.
    Skipped(&'static [u8]),
    /// Of a line of bytes of a MIR text: its form.
    Form(&'static [u8]),
    /// Of a graph and of a problem of this many points and universal regions: whether they can be
    /// made.
    New(u32, u32),
    /// Of points and universal regions, of first calls, this many of them, and of further ones:
    /// what these answer.
    Behind((u32, u32), (Calls, u32), &'static [Call]),
    /// Of points and universal regions and of calls, up to twenty of them: what the problem reports
    /// that they make.
    Made((u32, u32), &'static [Call], OfProblem),
    /// Of a number: whether both solvers give the random problem of that number the same values.
    Random(u32),
    /// Of points, universal regions and calls: what becomes of the graph that they make.
    Graph((u32, u32), &'static [Call], Then),
    /// Of runs that come into a set: what a frontier reaches.
    Frontier(&'static [(u32, u32)]),
    /// Like `Frontier`, where walks may reach an end.
    FrontierToEnd(&'static [(u32, u32)]),
    /// Like `Frontier`, for a constraint at all points.
    FrontierEverywhere(&'static [(u32, u32)]),
    /// Of where a constraint holds and of elements that come into a set: what a list holds to which
    /// its frontier appends what it reaches, with a set of bits and one of runs.
    Elements(At, &'static [u32]),
    /// Of this many regions and owners: how the regions are assigned.
    Cut(u32, u16, Deal),
    /// Of a text: which owners it lists, as a cut file.
    CutFile(&'static [u8]),
    /// Of a number of owners and a text: which events it lists, as a schedule.
    Schedule(u16, &'static [u8]),
    /// Of a set of a length: what it reports as elements are inserted, and of the next element from
    /// some numbers on.
    Sets(u32, &'static [u32], &'static [u32]),
    /// Of a set of bits: the elements that its own method gives.
    LastBit,
    /// Of elements that are inserted into a set of runs: how many runs there are.
    Runs(&'static [u32]),
    /// Of the elements of two sets of runs: whether the first set is seen to be within the second.
    Within(&'static [u32], &'static [u32]),
    /// Of types, structs and shapes.
    Type(OfType),
    /// Of a text: which of its lines the loop over them passes on, and what it says of them.
    Loop(&'static [u8]),
    /// What errors print.
    Messages,
    /// What becomes of a failed allocation.
    Memory,
}

/// A subject, a question, and the expected report.
pub type Row = (&'static str, Asked, &'static str);

// Writes what is reported.
fn write_told(out: &mut Transcript, says: &str, asked: Asked) {
    match asked {
        Asked::Line(of_line) => write_line(out, says, of_line),
        Asked::Skipped(line) => write_skipped(out, line),
        Asked::Form(line) => write_form(out, line),
        Asked::New(points, universals) => write_new(out, points, universals),
        Asked::Behind(numbers, first, calls) => write_behind(out, numbers, first, calls),
        Asked::Made(numbers, calls, of_problem) => {
            write_problem(out, numbers, (Calls::Listed(calls), 20), of_problem)
        }
        Asked::Random(seed) => write_random(out, seed),
        Asked::Graph(numbers, calls, then) => write_graph_then(out, numbers, calls, then),
        Asked::Frontier(runs) => write_frontier(out, runs),
        Asked::FrontierToEnd(runs) => write_frontier_to_end(out, runs),
        Asked::FrontierEverywhere(runs) => write_frontier_everywhere(out, runs),
        Asked::Elements(at, elements) => write_elements(out, at, elements),
        Asked::Cut(regions, owners, deal) => write_cut(out, (regions, owners), deal),
        Asked::CutFile(text) => write_cut_file(out, text),
        Asked::Schedule(owners, text) => write_schedule(out, owners, text),
        Asked::Sets(len, inserted, from) => write_sets(out, len, inserted, from),
        Asked::LastBit => write_last_bit(out),
        Asked::Runs(elements) => write_runs(out, elements),
        Asked::Within(inner, outer) => write_within(out, inner, outer),
        Asked::Type(of_type) => write_typed(out, of_type),
        Asked::Loop(text) => write_loop(out, text),
        Asked::Messages => write_messages(out),
        Asked::Memory => write_memory(out),
    }
}

/// Ends the test if something else is reported.
pub fn compare(rt: &impl Abort, alloc: Global, says: &str, asked: Asked, want: &str) {
    let mut out = Transcript::new(alloc);
    write_told(&mut out, says, asked);
    out.compare(rt, says, want);
    drop(out);
}

/// Ends the test unless each row's report is as the row says.
pub fn compare_rows(rt: &impl Abort, alloc: Global, rows: &[Row]) {
    for row in rows {
        compare(rt, alloc, row.0, row.1, row.2);
    }
}

/// Like `compare_rows`, for lines and what is reported about each.
pub fn compare_lines(rt: &impl Abort, alloc: Global, of_line: OfLine, lines: &[(&str, &str)]) {
    for line in lines {
        compare(rt, alloc, line.0, Asked::Line(of_line), line.1);
    }
}

/// Like `compare_lines`, for a text: in each row a line, ` ~ `, and what is reported. An empty row
/// says nothing.
pub fn compare_text(rt: &impl Abort, alloc: Global, of_line: OfLine, rows: &str) {
    for row in rows.split('\n') {
        if !row.is_empty() {
            let (line, want) = row.split_once(" ~ ").unwrap_or((row, "a row"));
            compare(rt, alloc, line, Asked::Line(of_line), want);
        }
    }
}
