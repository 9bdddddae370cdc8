//! The chains of a body's points: a point is in one chain with the point before it where that is
//! its only predecessor.

ghost use Rattle.std.specs.Prelude.{◌≡◌, ◌<◌, ◌≤◌, IfOk};
ghost use Rattle.nll_problem.specs.Graph.{IsNext};
ghost use Rattle.nll_live.specs.Chains.{HaveStarts, IsChain};

use nll_problem::Predecessors;
use nll_sets::Memory;
use std::alloc::Global;

/// For each of this many points, all that there are, the first one of its chain.
///
/// # Cost
/// A step for each point (not proved).
pub(crate) fn chain_starts(
    alloc: Global,
    previous: &Predecessors<'_>,
    points: u32,
) -> Result<Vec<u32>, Memory>
    requires { points ≡ previous.now.points }
    ensures { IfOk result (λ starts. HaveStarts (IsNext previous.now) points starts.items) }
{
    let mut starts = Vec::with_capacity(alloc, points as usize)?;
    for point in 0..points {
        let start = start_of(previous, starts.as_slice(), point);
        starts.push(start)?;
    }
    Ok(starts)
}

// The first point of the chain of a point. The starts are of the points before it.
fn start_of(previous: &Predecessors<'_>, starts: &[u32], point: u32) -> u32
    requires point { point < previous.now.points }
    requires starts { HaveStarts (IsNext previous.now) point starts.now }
    ensures before { result ≤ point }
    ensures chain { IsChain (IsNext previous.now) result point }
{
    let points = previous.previous_of(point);
    if points.len() == 1 && point > 0 && points[0] == point - 1 {
        starts[point as usize - 1]
    } else {
        point
    }
}
