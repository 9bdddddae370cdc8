//! The graph of a body: the edges that leave its points, and its return points.

ghost use Rattle.std.specs.Prelude.{◌≡◌, ◌↔◌, ◌<◌, ◌≤◌, ◌+◌, ◌==◌, ℕ, [], length};
ghost use Rattle.std.specs.Prelude.{Contains, IfErr, IfOk, OnOk, IsTrue, true};
ghost use Rattle.indexmap.specs.IndexSet.{insert_all};
ghost use Rattle.nll_problem.specs.Answers.{AddsFact};
ghost use Rattle.nll_problem.specs.Graph.{IsNext};
ghost use Rattle.nll_problem.specs.GraphBuilding.{bare_graph};
ghost use Rattle.nll_problem.specs.Limits.{most_points, most_edges, most_universals};
ghost use Rattle.nll_body.specs.Effects.{targets};
ghost use Rattle.nll_body.specs.Flat.{StatementLists, statement_in, statements_in};
ghost use Rattle.nll_body.specs.Statements.{is_terminator, return};
ghost use Rattle.nll_body.specs.Edges.{LeadsToBlock, LeavesTo, edges_from, edge_count};
ghost use Rattle.nll_body.specs.Making.{AddsTargets, AddsPoint, AreBlocks, AreEdgeEnds, HasPoints};

use crate::flat::Stmt;
use crate::statements::Statements;
use nll_problem::{BuildError, Graph, GraphBuilder};
use std::alloc::Global;

// Adds an edge for which there is room.
fn add_edge(graph: &mut GraphBuilder, from: u32, to: u32) -> Result<(), BuildError>
    requires from { from < graph.old.points }
    requires to { to < graph.old.points }
    requires room { (IsNext graph.old from to → ⊥) → length graph.old.edges < most_edges }
    ensures ok { OnOk result (AddsFact graph.old.edges graph.new.edges (from, to)) }
    ensures others { graph.new ≡ record graph.old { edges = graph.new.edges } }
    ensures err { IfErr result (λ e. e ≡ BuildError.Memory) }
{
    graph.next(from, to)
}

// Adds the edges from a point to the first points of these blocks.
fn add_targets(
    graph: &mut GraphBuilder,
    point: u32,
    starts: &[u32],
    blocks: &[u32],
) -> Result<(), BuildError>
    requires point { point < graph.old.points }
    requires blocks { (b : ℕ) → Contains blocks.now b → b < length starts.now }
    requires starts { (q : ℕ) → LeadsToBlock starts.now blocks.now q → q < graph.old.points }
    requires room { length graph.old.edges + length (insert_all (λ b c. b == c) [] blocks.now)
        ≤ most_edges }
    ensures ok { OnOk result (AddsTargets starts.now point blocks.now graph.old graph.new) }
    ensures err { IfErr result (λ e. e ≡ BuildError.Memory) }
{
    for block in blocks {
        add_edge(graph, point, starts[*block as usize])?;
    }
    Ok(())
}

// Whether it ends the body's run.
fn is_return(statement: &Stmt) -> bool
    ensures { (lists : StatementLists)
        → IsTrue result ↔ (statement_in lists statement.now ≡ return) }
{
    match statement {
        Stmt::Return => true,
        _ => false,
    }
}

// Adds the edges that leave a statement or terminator at a point, and the point to the return
// points where it is one. The list of blocks is scratch space.
fn add_next(
    graph: &mut GraphBuilder,
    point: u32,
    points: &Statements,
    statement: &Stmt,
    starts: &[u32],
    blocks: &mut Vec<u32>,
) -> Result<(), BuildError>
    requires few { graph.old.points ≤ most_points }
    requires point { point < graph.old.points }
    requires blocks { (b : ℕ) → Contains (targets (statement_in points.now statement.now)) b
        → b < length starts.now }
    requires ends { (q : ℕ) → LeavesTo starts.now point (statement_in points.now statement.now) q
        → q < graph.old.points }
    requires room { length graph.old.edges + edges_from (statement_in points.now statement.now)
        ≤ most_edges }
    ensures ok { OnOk result
        (AddsPoint starts.now point (statement_in points.now statement.now) graph.old graph.new) }
    ensures err { IfErr result (λ e. e ≡ BuildError.Memory) }
{
    if !points.is_terminator(statement) {
        return add_edge(graph, point, point + 1);
    }
    blocks.clear();
    points.targets(statement, blocks)?;
    add_targets(graph, point, starts, blocks.as_slice())?;
    if !is_return(statement) {
        return Ok(());
    }
    graph.ret(point)
}

// Adds the edges of every point to a graph that has only its points.
fn add_points(
    graph: &mut GraphBuilder,
    starts: &[u32],
    points: &Statements,
    blocks: &mut Vec<u32>,
) -> Result<(), BuildError>
    requires bare { graph.old
        ≡ bare_graph (length (statements_in points.now)) graph.old.universals }
    requires few { length (statements_in points.now) ≤ most_points }
    requires blocks { AreBlocks (length starts.now) (statements_in points.now) }
    requires ends { AreEdgeEnds starts.now (statements_in points.now) }
    requires room { edge_count (statements_in points.now) ≤ most_edges }
    ensures ok { OnOk result (HasPoints starts.now graph.old.universals
        (statements_in points.now) (length (statements_in points.now)) graph.new) }
    ensures err { IfErr result (λ e. e ≡ BuildError.Memory) }
{
    for point in 0..points.len() {
        let statement = points.at(point);
        add_next(graph, point as u32, points, statement, starts, blocks)?;
    }
    Ok(())
}

/// The graph of a body with this many universal regions, blocks with these first points, and
/// these statements and terminators at its points.
///
/// # Errors
/// `Memory` alone.
pub(crate) fn graph_of(
    alloc: Global,
    universals: u32,
    starts: &[u32],
    points: &Statements,
) -> Result<Graph, BuildError>
    requires some { 0 < length (statements_in points.now) }
    requires few { length (statements_in points.now) ≤ most_points }
    requires some_universal { 0 < universals }
    requires few_universals { universals ≤ most_universals }
    requires blocks { AreBlocks (length starts.now) (statements_in points.now) }
    requires ends { AreEdgeEnds starts.now (statements_in points.now) }
    requires room { edge_count (statements_in points.now) ≤ most_edges }
    ensures ok { IfOk result (λ g. HasPoints starts.now universals
        (statements_in points.now) (length (statements_in points.now)) g) }
    ensures err { IfErr result (λ e. e ≡ BuildError.Memory) }
{
    let mut graph = GraphBuilder::new(alloc, points.len() as u32, universals)?;
    let mut blocks = Vec::new(alloc);
    let told = add_points(&mut graph, starts, points, &mut blocks);
    // Early drop.
    drop(blocks);
    match told {
        Ok(()) => Ok(graph.finish()),
        Err(error) => {
            drop(graph);
            Err(error)
        }
    }
}
