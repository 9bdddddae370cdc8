//! What a facts text says, and what is wrong with one, as text.
use super::notes::{count, say, show};
use nll_core::{At, Constraint, Element, Graph, Problem, RegionId};
use nll_facts::{Facts, read_facts};
use nll_format::{Labels, TextError};
use nll_report::{Command, answer_of};
use std::alloc::Global;
use std::process::Abort;

/// Writes a fault.
pub fn write_fault(out: &mut String, error: TextError) {
    say(out, "line ");
    count(out, error.line);
    say(out, ": ");
    show(out, &error.kind);
}

// Writes a name.
fn say_name(out: &mut String, name: &str) {
    say(out, " '");
    say(out, name);
}

// Writes a number, which ends a line.
fn end_line(out: &mut String, number: u32) {
    say(out, " ");
    count(out, u64::from(number));
    say(out, "\n");
}

// The name of a region.
fn name_of(labels: &Labels, region: RegionId) -> &str {
    if (region.0 as usize) < labels.regions() {
        labels.region(region)
    } else {
        "none"
    }
}

// Writes the regions in their order.
fn write_regions(out: &mut String, problem: &Problem, labels: &Labels) {
    for number in 0..problem.regions() {
        let is_universal = number < problem.universals();
        let kind = if is_universal { "universal" } else { "region" };
        say(out, kind);
        say_name(out, name_of(labels, RegionId(number)));
        say(out, "\n");
    }
}

// Writes the edges and the return points, by points.
fn write_graph(out: &mut String, graph: &Graph) {
    for point in 0..graph.points() {
        for to in graph.next_of(point) {
            say(out, "next ");
            count(out, u64::from(point));
            end_line(out, *to);
        }
        if graph.is_return(point) {
            say(out, "return");
            end_line(out, point);
        }
    }
}

// Writes the points that are base elements of a region.
fn write_bases(out: &mut String, problem: &Problem, region: RegionId, name: &str) {
    for point in 0..problem.points() {
        if problem.is_base(region, Element(point)) {
            say(out, "base");
            say_name(out, name);
            end_line(out, point);
        }
    }
}

// Writes the constraints.
fn write_constraints(out: &mut String, constraints: &[Constraint], labels: &Labels) {
    for constraint in constraints {
        say(out, "constraint");
        say_name(out, name_of(labels, constraint.sup));
        say_name(out, name_of(labels, constraint.sub));
        match constraint.at {
            At::All => say(out, " all\n"),
            At::Point(point) => end_line(out, point),
        }
    }
}

// Writes all that a text says. A universal region holds all points, so no base of it is written.
fn write_said(out: &mut String, problem: &Problem, labels: &Labels) {
    say(out, "points");
    end_line(out, problem.points());
    write_regions(out, problem, labels);
    write_graph(out, problem.graph());
    for number in problem.universals()..problem.regions() {
        let region = RegionId(number);
        write_bases(out, problem, region, name_of(labels, region));
    }
    write_constraints(out, problem.constraints(), labels);
}

// Hands a problem on to be answered, which frees it. To prove here how it is freed would cost more
// than all else of this module.
fn hand_on(rt: &impl Abort, alloc: Global, facts: Facts) {
    assert!(rt; facts.labels.regions() == facts.problem.regions() as usize);
    let _ = answer_of(alloc, Command::Check, facts);
}

/// What a text says, or its fault.
pub fn said(rt: &impl Abort, alloc: Global, text: &[u8]) -> String {
    let mut out = String::new(alloc);
    match read_facts(alloc, text) {
        Ok(facts) => {
            write_said(&mut out, &facts.problem, &facts.labels);
            hand_on(rt, alloc, facts);
        }
        Err(error) => write_fault(&mut out, error),
    }
    out
}

/// How a point of a text is named.
pub fn point_told(rt: &impl Abort, alloc: Global, text: &[u8], point: u32) -> String {
    let facts = read_facts(alloc, text).expect(rt, "facts");
    let mut out = String::new(alloc);
    show(&mut out, &facts.labels.point(point));
    hand_on(rt, alloc, facts);
    out
}
