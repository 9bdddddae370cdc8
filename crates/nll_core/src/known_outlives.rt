//! Which universal regions are known to outlive which.

ghost use Rattle.std.specs.Prelude.{◌≡◌, ◌↔◌, ℕ, ◌≤◌, ◌<◌, AllPairs, Contains, length, IfOk, OnOk};
ghost use Rattle.nll_problem.specs.Problem.{IsUniversal, IsEarlier};
ghost use Rattle.nll_problem.specs.Faults.{IsAbove};
ghost use Rattle.nll_core.specs.Outliving.{IsShorterOf, AreOutlived};
ghost use Rattle.nll_core.specs.Search.{Visits};

use crate::search::{Relation, Search, search_from};
use nll_problem::{Problem, RegionId};
use nll_sets::{BitSet, Element, ElementSet, Memory};
use std::alloc::Global;

// The universal regions of a problem, each with those that it is directly known to outlive.
#[derive(Drop)]
struct Outliving<'a> {
    problem: &'a Problem,
}

impl<'a> Relation for Outliving<'a> {
    ghost step = { λ outliving. IsAbove outliving.problem.now };

    ghost count = { λ outliving. outliving.problem.now.graph.universals };

    fn count(&self) -> u32 {
        self.problem.universals()
    }

    // 'static outlives each of them.
    fn visit_next<R: ElementSet>(
        &self,
        from: Element,
        search: &mut Search<R>,
    ) -> Result<(), Memory> {
        if from.0 == 0 {
            visit_below(self.problem.universals(), search)
        } else {
            let facts = self.problem.outlives_facts();
            visit_shorter(facts_of(facts, RegionId(from.0)), search)
        }
    }
}

// Of ascending facts, those that say what a region outlives.
fn facts_of(facts: &[(RegionId, RegionId)], longer: RegionId) -> &[(RegionId, RegionId)]
    requires { AllPairs IsEarlier facts.now }
    ensures { (x : ℕ × ℕ) → Contains result.now x ↔ (Contains facts.now x × (x.0 ≡ longer)) }
{
    let first = facts.partition_point(|fact| fact.0.0 < longer.0);
    let rest = &facts[first..];
    let count = rest.partition_point(|fact| fact.0.0 <= longer.0);
    &rest[..count]
}

// Visits each element below a number.
fn visit_below<R: ElementSet>(count: u32, search: &mut Search<R>) -> Result<(), Memory>
    requires { count ≤ length search.old.reached }
    ensures { OnOk result (Visits (λ x. x < count) search.old search.new) }
{
    for number in 0..count {
        search.visit(Element(number))?;
    }
    Ok(())
}

// Visits the second region of each fact.
fn visit_shorter<R: ElementSet>(
    facts: &[(RegionId, RegionId)],
    search: &mut Search<R>,
) -> Result<(), Memory>
    requires { (b : ℕ) → IsShorterOf facts.now b → b < length search.old.reached }
    ensures { OnOk result (Visits (IsShorterOf facts.now) search.old search.new) }
{
    for fact in facts {
        let (_, shorter) = *fact;
        search.visit(Element(shorter.0))?;
    }
    Ok(())
}

/// The universal regions that one of them is known to outlive.
pub fn outlived_by(alloc: Global, problem: &Problem, longer: RegionId) -> Result<BitSet, Memory>
    requires { IsUniversal problem.now longer }
    ensures width { IfOk result (λ outlived. length outlived ≡ problem.now.graph.universals) }
    ensures exact { IfOk result (AreOutlived problem.now longer) }
{
    let outliving = Outliving { problem };
    let search = search_from::<Outliving, BitSet>(alloc, &outliving, Element(longer.0))?;
    let (outlived, _) = search.into_parts();
    Ok(outlived)
}
