//! The values of exactly the base elements.

ghost use Rattle.std.specs.Prelude.{ℕ, ◌<◌, ◌↔◌, IfOk, OnOk};
ghost use Rattle.nll_problem.specs.Problem.{IsBase};
ghost use Rattle.nll_core.specs.Values.{IsHeld, IsShaped};
ghost use Rattle.nll_core.specs.Growing.{Gains, HoldsPoints, HoldsEnds, HoldsFacts};

use crate::values::Values;
use nll_problem::{Problem, RegionId};
use nll_sets::{Element, Memory, Run};
use std::alloc::Global;

/// The values of exactly the base elements.
pub fn base_values(alloc: Global, problem: &Problem) -> Result<Values, Memory>
    ensures shaped { IfOk result (IsShaped problem.now) }
    ensures exact { IfOk result (λ values. (r e : ℕ) → IsHeld values r e ↔ IsBase problem.now r e) }
{
    let mut values = Values::empty(alloc, problem)?;
    insert_universals(problem, &mut values)?;
    insert_bases(problem, &mut values)?;
    Ok(values)
}

// Inserts what the universal regions hold from the start.
fn insert_universals(problem: &Problem, values: &mut Values) -> Result<(), Memory>
    requires { IsShaped problem.now values.old }
    ensures gains { OnOk result (Gains (IsBase problem.now) values.old values.new) }
    ensures points { OnOk result (HoldsPoints problem.now values.new) }
    ensures ends { OnOk result (HoldsEnds problem.now values.new) }
{
    let points = problem.points();
    let all = Run {
        first: 0,
        last: points - 1,
    };
    for number in 0..problem.universals() {
        let region = RegionId(number);
        values.insert_run(region, all)?;
        values.insert(region, Element(points + number))?;
    }
    Ok(())
}

// Inserts the base elements that were given, a run of them at a time.
fn insert_bases(problem: &Problem, values: &mut Values) -> Result<(), Memory>
    requires { IsShaped problem.now values.old }
    ensures gains { OnOk result (Gains (IsBase problem.now) values.old values.new) }
    ensures covers { OnOk result (HoldsFacts problem.now values.new) }
{
    let runs = problem.base_runs();
    for run in runs {
        values.insert_run(run.region, run.points())?;
    }
    Ok(())
}
