//! Reachability by owners in threads, over each pair of mailbox and ledger, and by one keeper
//! alone, beside a plain search.

ghost use Rattle.std.specs.Prelude.{◌≡◌, ◌<◌, ◌≤◌};

use fixpoint::Growth;
use keeper::{Keepers, solve};
use ledger::{LockLedger, ThreadLedger, WordLedger};
use mail::{QueueMail, RingMail, ThreadMail};
use nll_sets::Memory;
use reach::Graph;
use run::{RunError, run};
use std::alloc::{AllocError, Global};
use std::sync::Wait;
#[cfg(test)]
use std::test::Fail;
use std::thread::Threads;
use worker::NoGate;

const NODES: u32 = 40;

// The next of a row of numbers that look random.
fn next_number(state: &mut u64) -> u32 {
    *state = state
        .wrapping_mul(6364136223846793005)
        .wrapping_add(1442695040888963407);
    (*state >> 33) as u32
}

// Up to 80 edges between 40 nodes: for each node where they lead, but for some of the last.
fn random_edges(alloc: Global, state: &mut u64) -> Result<Vec<Vec<u32>>, AllocError> {
    let mut edges = Vec::new(alloc);
    let with_edges = 1 + next_number(state) % NODES;
    for _ in 0..with_edges {
        edges.push(Vec::new(alloc))?;
    }
    for _ in 0..next_number(state) % 80 {
        let from = next_number(state) % with_edges;
        let to = next_number(state) % NODES;
        if let Some(ends) = edges.get_mut(from as usize) {
            ends.push(to)?;
        }
    }
    Ok(edges)
}

fn unmarked(alloc: Global) -> Result<Vec<bool>, AllocError> {
    let mut marks = Vec::new(alloc);
    for _ in 0..NODES {
        marks.push(false)?;
    }
    Ok(marks)
}

fn is_marked(marks: &[bool], node: u32) -> bool {
    match marks.get(node as usize) {
        Some(mark) => *mark,
        None => false,
    }
}

fn mark(marks: &mut [bool], node: u32) {
    if let Some(mark) = marks.get_mut(node as usize) {
        *mark = true;
    }
}

// Marks what the edges of marked nodes lead to, once.
fn follow(marks: &mut [bool], edges: &[Vec<u32>]) {
    let mut from = 0u32;
    for ends in edges {
        if is_marked(marks, from) {
            for end in ends {
                mark(marks, *end);
            }
        }
        from = from.saturating_add(1);
    }
}

// Follows each edge as often as there are nodes.
fn searched(alloc: Global, edges: &[Vec<u32>], root: u32) -> Result<Vec<bool>, AllocError> {
    let mut marks = unmarked(alloc)?;
    mark(marks.as_mut_slice(), root);
    for _ in 0..NODES {
        follow(marks.as_mut_slice(), edges);
    }
    Ok(marks)
}

// Which nodes the log of one keeper alone tells.
fn told_alone(alloc: Global, graph: &Graph<'_>) -> Result<Vec<bool>, Memory>
    requires { graph.now.owners ≡ 1 }
{
    let mut marks = unmarked(alloc)?;
    let log = solve(alloc, graph)?;
    for growth in &log {
        mark(marks.as_mut_slice(), growth.fact);
    }
    Ok(marks)
}

// Which nodes the logs of a run tell.
fn told<M: ThreadMail<Growth<u32>>, L: ThreadLedger, R: Threads + Wait + Sync>(
    rt: &R,
    alloc: Global,
    mail: &M,
    ledger: &L,
    graph: &Graph<'_>,
) -> Result<Vec<bool>, RunError> {
    let mut marks = unmarked(alloc)?;
    let outcome = run(rt, alloc, &Keepers::new(graph), mail, ledger, &NoGate)?;
    for log in &outcome.grown {
        for growth in log {
            mark(marks.as_mut_slice(), growth.fact);
        }
    }
    Ok(marks)
}

// Whether one keeper alone tells other nodes than the wanted ones.
fn differs_alone(
    alloc: Global,
    edges: &[Vec<u32>],
    roots: &[u32],
    wanted: &[bool],
) -> Result<bool, Memory> {
    let graph = Graph {
        edges,
        roots,
        owners: 1,
    };
    let marks = told_alone(alloc, &graph)?;
    Ok(marks.as_slice() != wanted)
}

// Whether a run tells other nodes than the wanted ones.
fn differs<M: ThreadMail<Growth<u32>>, L: ThreadLedger, R: Threads + Wait + Sync>(
    rt: &R,
    alloc: Global,
    mail: &M,
    ledger: &L,
    graph: &Graph<'_>,
    wanted: &[bool],
) -> Result<bool, RunError> {
    let marks = told(rt, alloc, mail, ledger, graph)?;
    Ok(marks.as_slice() != wanted)
}

// The pair of mailbox and ledger whose run tells other nodes than the wanted ones.
fn wrong_pair<R: Threads + Wait + Copy + Send + Sync>(
    rt: &R,
    alloc: Global,
    graph: &Graph<'_>,
    wanted: &[bool],
) -> Result<Option<&'static str>, RunError> {
    let queue = QueueMail::new(*rt);
    let ring = RingMail::new();
    let lock = LockLedger::new(*rt);
    let words = WordLedger::new();
    if differs(rt, alloc, &queue, &words, graph, wanted)? {
        return Ok(Some("queues, words"));
    }
    if differs(rt, alloc, &ring, &words, graph, wanted)? {
        return Ok(Some("rings, words"));
    }
    if differs(rt, alloc, &queue, &lock, graph, wanted)? {
        return Ok(Some("queues, a lock"));
    }
    if differs(rt, alloc, &ring, &lock, graph, wanted)? {
        return Ok(Some("rings, a lock"));
    }
    Ok(None)
}

// Whose answer to this graph differs from the wanted one.
fn wrong_answer<R: Threads + Wait + Copy + Send + Sync>(
    rt: &R,
    alloc: Global,
    graph: &Graph<'_>,
    wanted: &[bool],
) -> Result<Option<&'static str>, RunError> {
    if differs_alone(alloc, graph.edges, graph.roots, wanted)? {
        return Ok(Some("alone"));
    }
    wrong_pair(rt, alloc, graph, wanted)
}

// Whose answer to these edges differs from a plain search's.
fn compare<R: Threads + Wait + Copy + Send + Sync>(
    rt: &R,
    alloc: Global,
    edges: &[Vec<u32>],
    root: u32,
    owners: u16,
) -> Result<Option<&'static str>, RunError>
    requires some { 0 < owners }
    requires few { owners ≤ 64 }
{
    let wanted = searched(alloc, edges, root)?;
    let graph = Graph {
        edges,
        roots: &[root],
        owners,
    };
    let whose = wrong_answer(rt, alloc, &graph, wanted.as_slice());
    // Early drop.
    drop(wanted);
    whose
}

// Whose answer to the next random graph differs from a plain search's.
fn compare_next<R: Threads + Wait + Copy + Send + Sync>(
    rt: &R,
    alloc: Global,
    state: &mut u64,
) -> Result<Option<&'static str>, RunError> {
    let edges = random_edges(alloc, state)?;
    let root = next_number(state) % NODES;
    let owners = 1 + (next_number(state) % 64) as u16;
    let whose = compare(rt, alloc, edges.as_slice(), root, owners);
    // Early drop.
    drop(edges);
    whose
}

/// Answers this many random graphs, each by 1 to 64 owners in threads and by one keeper alone, and
/// returns the number of the first of which an answer differs from a plain search's, and whose
/// answer that is.
///
/// # Errors
/// - Those of `run`.
pub fn first_difference<R: Threads + Wait + Copy + Send + Sync>(
    rt: &R,
    alloc: Global,
    seed: u64,
    graphs: u32,
) -> Result<Option<(u32, &'static str)>, RunError> {
    let mut state = seed;
    for number in 0..graphs {
        if let Some(whose) = compare_next(rt, alloc, &mut state)? {
            return Ok(Some((number, whose)));
        }
    }
    Ok(None)
}

// By this seed the graphs have 50, 7, 1, 40, 64, 64, 2, 33, 19, 57, 51 and 43 owners.
#[test]
fn owners_reach_what_a_search_reaches(rt: HostRuntime) -> Result<(), Fail> {
    assert_eq!(rt; first_difference(&rt, rt.alloc(), 62, 12), Ok(None));
    Ok(())
}
