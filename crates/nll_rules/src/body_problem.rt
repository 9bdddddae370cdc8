//! The problem of a body.

ghost use Rattle.std.specs.Prelude.{IfErr, IfOk, OnOk};
ghost use Rattle.nll_rules.specs.Adding.{HasFactsOf, IsBareOf, IsRefusedFor};
ghost use Rattle.nll_rules.specs.BodyProblem.{HasTooMany, IsProblemOf, IsRuleError};

use crate::constraints::add_constraints;
use crate::error::{RuleError, told_of};
use crate::facts::{add_bases, add_outlives, add_regions};
use nll_body::Body;
use nll_live::live_runs;
use nll_problem::{BuildError, Problem, ProblemBuilder};
use std::alloc::Global;

/// The problem of a body: its graph and its regions, the base elements that the liveness of its
/// variables gives them, and the constraints that its statements and terminators ask.
///
/// # Errors
/// - `Limit(Constraints)`: the body has more than `MAX_CONSTRAINTS` constraints. No more than that
///   many are made before the refusal.
/// - `Memory`.
///
/// # Cost
/// That of liveness, and for each point what its statement asks, once for each successor (not
/// proved).
///
/// # Source
/// RFC 2094, "Liveness", "Drop", "Subtyping", "Reborrow constraints" and "Layer 4: Named
/// lifetimes".
pub fn problem_of(alloc: Global, body: &Body) -> Result<Problem, RuleError>
    ensures ok { IfOk result (IsProblemOf body.now) }
    ensures few { IfOk result (λ _. HasTooMany body.now → ⊥) }
    ensures err { IfErr result (IsRuleError body.now) }
{
    match facts_of(alloc, body) {
        Ok(mut problem) => match problem.copy_graph(alloc, body.graph()) {
            Ok(()) => Ok(problem),
            Err(_) => {
                drop(problem);
                Err(RuleError::Memory)
            }
        },
        Err(error) => Err(told_of(error)),
    }
}

// The problem of a body, but for the edges and return points.
fn facts_of(alloc: Global, body: &Body) -> Result<Problem, BuildError>
    ensures ok { IfOk result (HasFactsOf body.now) }
    ensures err { IfErr result (IsRefusedFor body.now) }
{
    let mut builder = ProblemBuilder::new(alloc, body.points(), body.universals())?;
    match fill(alloc, body, &mut builder) {
        Ok(()) => builder.finish(),
        Err(error) => {
            drop(builder);
            Err(error)
        }
    }
}

// Adds all facts of a body, but for the edges and return points.
fn fill(alloc: Global, body: &Body, builder: &mut ProblemBuilder) -> Result<(), BuildError>
    requires { IsBareOf body.now builder.old }
    ensures ok { OnOk result (HasFactsOf body.now builder.new) }
    ensures err { IfErr result (IsRefusedFor body.now) }
{
    // Clause call: the body is sound.
    let _ = body.points();
    add_regions(builder, body.universals(), body.regions());
    add_outlives(builder, body.outlives())?;
    {
        let live = live_runs(alloc, body)?;
        add_bases(builder, live.as_slice())?;
    }
    add_constraints(alloc, body, builder)?;
    Ok(())
}
