//! What graphs, problems, values and sets report, as text.
ghost use Rattle.std.specs.Prelude.{◌≡◌, IfOk};
ghost use Rattle.nll_core.specs.Values.{IsShaped};

use super::transcript::Transcript;
use crate::rounds::solve_by_rounds;
use nll_core::{
    Element, ElementSet, Elements, Graph, Memory, Problem, RegionId, Values, faults, solve,
};
use nll_cut::Cut;
use nll_problem::{At, BaseRun, ConstraintIndex, Predecessors};
use std::alloc::Global;

/// What is asked of a problem.
#[derive(Clone, Copy)]
pub enum OfProblem {
    /// Its graph, each region's base elements, its constraints and outlives facts.
    Facts,
    /// Its constraints by the region that they read.
    Readers,
    /// Its least values, whether the plain solver gives it the same ones, and its faults.
    Values,
    /// Whether both solvers give it the same values.
    BothSolvers,
    /// Who reads what, where its regions go round this many owners.
    ReadersAmong(u16),
    /// What values of it that hold nothing answer where an element is inserted into a region's.
    Inserted(u32, u32),
}

/// Writes what a problem reports.
pub fn tell(out: &mut Transcript, problem: &Problem, asked: OfProblem) {
    match asked {
        OfProblem::Facts => write_facts(out, problem),
        OfProblem::Readers => write_readers(out, problem),
        OfProblem::Values => write_solved(out, problem),
        OfProblem::BothSolvers => write_both(out, problem),
        OfProblem::ReadersAmong(owners) => write_readers_among(out, problem, owners),
        OfProblem::Inserted(region, element) => write_inserted(out, problem, region, element),
    }
}

/// Writes the successors of each point and its predecessors, and which points return.
pub fn write_graph(out: &mut Transcript, graph: &Graph) {
    if let Ok(predecessors) = Predecessors::of(out.alloc, graph) {
        for point in 0..graph.points() {
            out.number("", point, " to ");
            out.numbers("", graph.next_of(point));
            out.numbers(" from ", predecessors.previous_of(point));
            let is_return = graph.is_return(point);
            out.say(if is_return { " and out|" } else { "|" });
        }
        drop(predecessors);
    }
    out.numbers("out ", graph.returns());
    out.say("|");
}

// Writes the base facts of a run.
fn write_run(out: &mut Transcript, run: &BaseRun) {
    for point in run.first..run.end {
        out.pair(run.region.0, " has ", point, "|");
    }
}

// Writes where a constraint holds, and what follows.
fn write_at(out: &mut Transcript, at: At, after: &str) {
    match at {
        At::All => {
            out.say("all");
            out.say(after);
        }
        At::Point(point) => out.number("", point, after),
    }
}

// Writes the base facts, the constraints and the outlives facts.
fn write_lists(out: &mut Transcript, problem: &Problem) {
    for run in problem.base_runs() {
        write_run(out, run);
    }
    for constraint in problem.constraints() {
        out.pair(constraint.sup.0, " holds ", constraint.sub.0, " at ");
        write_at(out, constraint.at, "|");
    }
    for (longer, shorter) in problem.outlives_facts() {
        out.pair(longer.0, " over ", shorter.0, ", back ");
        out.flag("", problem.has_outlives(*shorter, *longer), "|");
    }
}

// Writes the facts of a problem, the base elements of each region among them.
fn write_facts(out: &mut Transcript, problem: &Problem) {
    write_graph(out, problem.graph());
    for region in 0..problem.regions() {
        out.number("", region, ":");
        for number in 0..problem.points() + problem.universals() {
            if problem.is_base(RegionId(region), Element(number)) {
                out.number(" ", number, "");
            }
        }
        out.say("|");
    }
    write_lists(out, problem);
}

// Writes the constraints of a problem by the region that they read.
fn write_readers(out: &mut Transcript, problem: &Problem) {
    if let Ok(index) = ConstraintIndex::of(out.alloc, problem) {
        for number in 0..problem.regions() {
            out.number("", number, ":");
            for constraint in index.reading(RegionId(number)) {
                out.number(" ", constraint.sup.0, " at ");
                write_at(out, constraint.at, "");
            }
            out.say("|");
        }
    }
}

// Writes which regions each owner reads where the regions of a problem go round this many owners:
// of those that there are, and one more; and those of an owner that there isn't.
fn write_readers_among(out: &mut Transcript, problem: &Problem, owners: u16) {
    if let Ok(cut) = Cut::round(out.alloc, problem.regions(), owners) {
        if let Ok(readers) = cut.readers(out.alloc, problem) {
            for owner in 0..=owners {
                out.number("", u32::from(owner), " reads");
                for number in 0..=problem.regions() {
                    let region = RegionId(number);
                    let next = readers.next_reader(region, owner);
                    if readers.reads(owner, region) && next == Some(owner) {
                        out.number(" ", number, "");
                    }
                }
                out.say("|");
            }
        }
    }
}

/// Writes the elements that are still to come.
pub fn write_elements<S: ElementSet>(out: &mut Transcript, elements: Elements<'_, S>) {
    for element in elements {
        out.number(" ", element.0, "");
    }
}

// Writes the values of all regions.
fn write_values(out: &mut Transcript, problem: &Problem, values: &Values)
    requires { IsShaped problem.now values.now }
{
    for number in 0..problem.regions() {
        out.number("", number, ":");
        for element in values.iter(RegionId(number)) {
            out.number(" ", element.0, "");
        }
        out.say("|");
    }
}

// What a solver gives a problem, as text.
fn values_told(alloc: Global, problem: &Problem, solved: Result<Values, Memory>) -> Transcript
    requires { IfOk solved (IsShaped problem.now) }
{
    let mut out = Transcript::new(alloc);
    if let Ok(values) = solved {
        write_values(&mut out, problem, &values);
        drop(values);
    }
    out
}

// Writes the least values of a problem as both solvers give them, or that they are the same.
fn write_both(out: &mut Transcript, problem: &Problem) {
    let quick = values_told(out.alloc, problem, solve(out.alloc, problem));
    let plain = values_told(out.alloc, problem, solve_by_rounds(out.alloc, problem));
    let is_told = !quick.text().is_empty();
    if is_told && quick.text() == plain.text() {
        out.say("same");
    } else {
        out.say(quick.text());
        out.say(" and ");
        out.say(plain.text());
    }
    drop(quick);
    drop(plain);
}

// Writes the faults of values.
fn write_faults(out: &mut Transcript, problem: &Problem, values: &Values)
    requires { IsShaped problem.now values.now }
{
    match faults(out.alloc, problem, values) {
        Ok(found) => {
            for pair in &found {
                out.pair(pair.0.0, " over ", pair.1.0, "|");
            }
            drop(found);
        }
        Err(_) => out.say("refused"),
    }
}

// Writes the least values of a problem, what both solvers make of it, and its faults.
fn write_solved(out: &mut Transcript, problem: &Problem) {
    if let Ok(values) = solve(out.alloc, problem) {
        write_values(out, problem, &values);
        write_both(out, problem);
        out.say("|");
        write_faults(out, problem, &values);
        drop(values);
    }
}

// Writes whether values that hold nothing have an element of a region, and what they answer where
// it is inserted.
fn write_inserted(out: &mut Transcript, problem: &Problem, region: u32, element: u32) {
    if let Ok(mut values) = Values::empty(out.alloc, problem) {
        let (region, element) = (RegionId(region), Element(element));
        if region.0 < problem.regions() && element.0 < problem.points() {
            out.flag("", values.has(region, element), " ");
            out.show("", &values.insert(region, element));
        }
        drop(values);
    }
}
