//! Graphs: what their builder answers, and what they and their copies report.
use super::calls::Call;
use super::calls::Call::{Next, Ret};
use super::problem_text::{OfProblem, tell, write_graph};
use super::rows::{Asked, Row, compare_rows};
use super::transcript::Transcript;
use nll_core::{BuildError, Graph, ProblemBuilder};
use nll_problem::GraphBuilder;

// Makes a call of a graph's builder. Calls that it doesn't have are out of its range.
fn make(builder: &mut GraphBuilder, call: Call) -> Result<(), BuildError> {
    match call {
        Next(from, to) => builder.next(from, to),
        Ret(point) => builder.ret(point),
        _ => Err(BuildError::RegionRange),
    }
}

// Makes calls, and writes which of them are refused.
fn write_refused(out: &mut Transcript, builder: &mut GraphBuilder, calls: &[Call]) {
    for call in calls {
        if let Err(error) = make(builder, *call) {
            out.show("", &error);
            out.say("|");
        }
    }
}

// What becomes of a finished graph.
#[derive(Clone, Copy)]
pub enum Then {
    Copied,
    // A problem gets it.
    OfProblem,
}

// Writes what is reported about a problem without facts that gets a graph.
fn write_problem(out: &mut Transcript, graph: &Graph) {
    if let Ok(builder) = ProblemBuilder::new(out.alloc, graph.points(), graph.universals()) {
        if let Ok(mut problem) = builder.finish() {
            if let Ok(()) = problem.copy_graph(out.alloc, graph) {
                tell(out, &problem, OfProblem::Facts);
            }
            drop(problem);
        }
    }
}

// Writes what is reported about what becomes of a graph.
fn write_then(out: &mut Transcript, graph: &Graph, then: Then) {
    match then {
        Then::Copied => {
            if let Ok(copied) = graph.copy(out.alloc) {
                write_graph(out, &copied);
                drop(copied);
            }
        }
        Then::OfProblem => write_problem(out, graph),
    }
}

/// Writes what is reported about what becomes of the graph that calls make.
pub fn write_graph_then(out: &mut Transcript, numbers: (u32, u32), calls: &[Call], then: Then) {
    if let Ok(mut builder) = GraphBuilder::new(out.alloc, numbers.0, numbers.1) {
        write_refused(out, &mut builder, calls);
        let graph = builder.finish();
        write_then(out, &graph, then);
        drop(graph);
    }
}

// Points, universal regions and calls, what becomes of the graph, and what it reports then.
const GRAPHS: &[Row] = &[
    (
        "one point alone",
        Asked::Graph((1, 1), &[], Then::Copied),
        "0 to [] from []|out []|",
    ),
    (
        "edges, one of them twice, and one to its own point",
        Asked::Graph(
            (3, 1),
            &[
                Next(0, 2),
                Next(2, 2),
                Next(0, 1),
                Next(0, 2),
                Ret(2),
                Ret(0),
                Ret(2),
            ],
            Then::Copied,
        ),
        "0 to [2, 1] from [] and out|1 to [] from [0]|2 to [2] from [0, 2] and out|out [2, 0]|",
    ),
    (
        "edges from a point that has more than are searched one by one, behind those of another",
        Asked::Graph(
            (12, 1),
            &[
                Next(0, 1),
                Next(0, 2),
                Next(0, 3),
                Next(0, 4),
                Next(0, 5),
                Next(0, 6),
                Next(0, 7),
                Next(0, 8),
                Next(0, 9),
                Next(0, 10),
                Next(1, 0),
                Next(0, 1),
                Next(0, 11),
                Next(0, 2),
                Next(0, 11),
            ],
            Then::Copied,
        ),
        "0 to [1, 2, 3, 4, 5, 6, 7, 8, 9, 10, 11] from [1]|1 to [0] from [0]|\
         2 to [] from [0]|3 to [] from [0]|4 to [] from [0]|5 to [] from [0]|\
         6 to [] from [0]|7 to [] from [0]|8 to [] from [0]|9 to [] from [0]|\
         10 to [] from [0]|11 to [] from [0]|out []|",
    ),
    (
        "calls of which some are refused or say nothing new",
        Asked::Graph(
            (2, 3),
            &[
                Next(0, 1),
                Ret(1),
                Next(0, 1),
                Next(1, 2),
                Next(1, 0),
                Ret(1),
                Ret(2),
                Ret(0),
            ],
            Then::Copied,
        ),
        "PointRange|PointRange|0 to [1] from [1] and out|\
         1 to [0] from [0] and out|out [1, 0]|",
    ),
    (
        "a problem's graph",
        Asked::Graph((2, 2), &[Next(1, 0), Ret(0)], Then::OfProblem),
        "0 to [] from [1] and out|1 to [0] from []|out [0]|0: 0 1 2|1: 0 1 3|",
    ),
];

// A graph reports its edges both ways and its return points, and so does what becomes of it.
#[test]
fn graphs_tell_their_edges(rt: HostRuntime) {
    compare_rows(&rt, rt.alloc(), GRAPHS);
}
