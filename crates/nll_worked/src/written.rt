//! Problems as constants, and the problem that such a one is.

ghost use Rattle.std.specs.Prelude.{◌≡◌, ◌+◌, IfOk, OnOk};

use nll_problem::{At, BuildError, Constraint, Problem, ProblemBuilder, RegionId};
use std::alloc::Global;

/// A problem: its points, of which the last returns, each next to the one before; its region
/// variables; those of them that have all points; its other base facts, as a region and a point;
/// and its constraints, as the larger region, the smaller one and where it holds.
#[derive(Clone, Copy)]
pub struct Written {
    pub points: u32,
    pub variables: u32,
    pub full: &'static [u32],
    pub bases: &'static [(u32, u32)],
    pub constraints: &'static [(u32, u32, At)],
}

// Gives a region all points.
fn fill(builder: &mut ProblemBuilder, region: u32, points: u32) -> Result<(), BuildError>
    ensures { builder.new ≡ record builder.old { bases = builder.new.bases } }
{
    for point in 0..points {
        builder.base(RegionId(region), point)?;
    }
    Ok(())
}

// Puts the facts of a written problem into a builder.
fn enter(builder: &mut ProblemBuilder, written: Written) -> Result<(), BuildError>
    ensures points { builder.new.graph.points ≡ builder.old.graph.points }
    ensures universals { builder.new.graph.universals ≡ builder.old.graph.universals }
    ensures regions { OnOk result (builder.new.regions ≡ builder.old.regions + written.variables) }
{
    for _ in 0..written.variables {
        builder.region()?;
    }
    for point in 1..written.points {
        builder.next(point - 1, point)?;
    }
    builder.ret(written.points.saturating_sub(1))?;
    for region in written.full {
        fill(builder, *region, written.points)?;
    }
    for (region, point) in written.bases {
        builder.base(RegionId(*region), *point)?;
    }
    for (sup, sub, at) in written.constraints {
        builder.constraint(Constraint {
            sup: RegionId(*sup),
            sub: RegionId(*sub),
            at: *at,
        })?;
    }
    Ok(())
}

/// The problem that is written.
pub fn worked_problem(alloc: Global, written: Written) -> Result<Problem, BuildError>
    ensures points { IfOk result (λ q. q.graph.points ≡ written.points) }
    ensures universals { IfOk result (λ q. q.graph.universals ≡ 1) }
    ensures regions { IfOk result (λ q. q.regions ≡ 1 + written.variables) }
{
    let mut builder = ProblemBuilder::new(alloc, written.points, 1)?;
    let entered = enter(&mut builder, written);
    entered.and(builder.finish())
}
