//! The constraints of a body: a statement asks them at each successor of its point, and a body
//! asserts some at all points.

ghost use Rattle.std.specs.Prelude.{◌≡◌, ◌<◌, ℕ, Contains, IfErr, OnOk, length};
ghost use Rattle.nll_problem.specs.At.{IsAmong};
ghost use Rattle.nll_problem.specs.Problem.{SameSet};
ghost use Rattle.nll_body.specs.Sound.{IsSoundBody};
ghost use Rattle.nll_rules.specs.Adding.{AddsConstraints, IsPairOfRegions};
ghost use Rattle.nll_rules.specs.Adding.{IsOfPairs, IsOfPairsEverywhere, IsRoomRefused};
ghost use Rattle.nll_rules.specs.Knowing.{IsOfBody};
ghost use Rattle.nll_rules.specs.BodyProblem.{IsAskedAt, IsAskedSomewhere, IsConstraint};

use crate::asking::Asked;
use crate::known::Known;
use crate::meetings::Pairs;
use nll_body::Body;
use nll_problem::{At, BuildError, Constraint, ProblemBuilder, RegionId};
use std::alloc::Global;

// As many pairs are kept as they are, even if some are there twice.
const FEW: usize = 8;

/// Adds the constraints of a body to a problem of its points and regions.
pub(crate) fn add_constraints(
    alloc: Global,
    body: &Body,
    builder: &mut ProblemBuilder,
) -> Result<(), BuildError>
    requires points { builder.old.graph.points ≡ length body.now.points }
    requires regions { builder.old.regions ≡ length body.now.names }
    ensures ok { OnOk result (AddsConstraints (IsConstraint body.now) builder.old builder.new) }
    ensures err { IfErr result (IsRoomRefused (IsConstraint body.now) builder.old) }
{
    // Clause call: the body is sound.
    let _ = body.points();
    add_everywhere(builder, body.asserts())?;
    let mut known = Known::new(alloc, body.typed())?;
    let mut asked = Asked {
        pairs: Vec::new(alloc),
        crossed: Vec::new(alloc),
    };
    let told = add_points(alloc, body, &mut known, &mut asked, builder);
    // Early drop.
    drop(known);
    drop(asked);
    told
}

// Adds these pairs of regions, the first of which must hold what the second holds, at all points.
fn add_everywhere(builder: &mut ProblemBuilder, pairs: &[(u32, u32)]) -> Result<(), BuildError>
    requires { (x : ℕ × ℕ) → Contains pairs.now x → IsPairOfRegions x builder.old }
    ensures ok { OnOk result
        (AddsConstraints (IsOfPairsEverywhere pairs.now) builder.old builder.new) }
    ensures err { IfErr result (IsRoomRefused (IsOfPairsEverywhere pairs.now) builder.old) }
{
    for pair in pairs {
        let (sup, sub) = (RegionId(pair.0), RegionId(pair.1));
        let at = At::All;
        add_constraint(builder, Constraint { sup, sub, at })?;
    }
    Ok(())
}

// Adds the constraints that the statement at each point asks. The list is scratch space.
fn add_points(
    alloc: Global,
    body: &Body,
    known: &mut Known<'_>,
    asked: &mut Asked,
    builder: &mut ProblemBuilder,
) -> Result<(), BuildError>
    requires known { IsOfBody body.now known.old }
    requires points { builder.old.graph.points ≡ length body.now.points }
    requires regions { builder.old.regions ≡ length body.now.names }
    ensures ok { OnOk result (AddsConstraints (IsAskedSomewhere body.now) builder.old builder.new) }
    ensures err { IfErr result (IsRoomRefused (IsAskedSomewhere body.now) builder.old) }
{
    for point in 0..body.points() {
        add_next(alloc, body, point, known, asked, builder)?;
    }
    Ok(())
}

// Adds the constraints that the statement at a point asks. The list is scratch space.
fn add_next(
    alloc: Global,
    body: &Body,
    point: u32,
    known: &mut Known<'_>,
    asked: &mut Asked,
    builder: &mut ProblemBuilder,
) -> Result<(), BuildError>
    requires sound { IsSoundBody body.now }
    requires known { IsOfBody body.now known.old }
    requires point { point < length body.now.points }
    requires points { builder.old.graph.points ≡ length body.now.points }
    requires regions { builder.old.regions ≡ length body.now.names }
    ensures known { IsOfBody body.now known.new }
    ensures ok { OnOk result (AddsConstraints (IsAskedAt body.now point) builder.old builder.new) }
    ensures err { IfErr result (IsRoomRefused (IsAskedAt body.now point) builder.old) }
{
    asked.pairs.clear();
    known.make_room(alloc);
    known.asks(alloc, known.statements().at(point as usize), asked)?;
    keep_once(&mut asked.pairs);
    add_pairs(builder, body.graph().next_of(point), asked.pairs.as_slice())?;
    Ok(())
}

// Keeps each pair once, where there are many.
fn keep_once(pairs: &mut Pairs)
    ensures { SameSet pairs.old.items pairs.new.items }
{
    if pairs.len() > FEW {
        pairs.sort_unstable();
        pairs.dedup();
    }
}

// Adds these pairs of regions, the first of which must outlive the second, at these points.
fn add_pairs(
    builder: &mut ProblemBuilder,
    points: &[u32],
    pairs: &[(RegionId, RegionId)],
) -> Result<(), BuildError>
    requires points { (p : ℕ) → Contains points.now p → p < builder.old.graph.points }
    requires regions { (x : ℕ × ℕ) → Contains pairs.now x → IsPairOfRegions x builder.old }
    ensures ok { OnOk result
        (AddsConstraints (IsOfPairs points.now pairs.now) builder.old builder.new) }
    ensures err { IfErr result (IsRoomRefused (IsOfPairs points.now pairs.now) builder.old) }
{
    for pair in pairs {
        let (sup, sub) = *pair;
        for point in points {
            let at = At::Point(*point);
            add_constraint(builder, Constraint { sup, sub, at })?;
        }
    }
    Ok(())
}

// Adds a constraint of regions of the problem, at all points or at one of the problem.
fn add_constraint(builder: &mut ProblemBuilder, constraint: Constraint) -> Result<(), BuildError>
    requires at { IsAmong builder.old.graph.points constraint.at }
    requires sup { constraint.sup < builder.old.regions }
    requires sub { constraint.sub < builder.old.regions }
    ensures ok { OnOk result (AddsConstraints (λ c. constraint ≡ c) builder.old builder.new) }
    ensures err { IfErr result (IsRoomRefused (λ c. constraint ≡ c) builder.old) }
{
    // Clause call: no constraint is there twice.
    let _ = builder.constraints();
    builder.constraint(constraint)?;
    Ok(())
}
