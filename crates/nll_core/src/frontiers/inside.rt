//! The steps of a graph that lead into a set.

ghost use Rattle.std.specs.Prelude.{◌≡◌, ◌≤◌, ◌<◌, Contains, length, OnOk};
ghost use Rattle.nll_problem.specs.Graph.{element_count};
ghost use Rattle.nll_core.specs.Search.{HoldsFrom, IsInRange, IsStepInside, VisitsWithin};

use crate::search::{Relation, Search};
use nll_problem::Graph;
use nll_sets::{Element, ElementSet, Memory};

/// The steps of a graph that lead into a set.
#[derive(Drop)]
pub struct Inside<'a, S: ElementSet> {
    pub graph: &'a Graph,
    pub set: &'a S,
    ghost width: { length (S.flags set.now) ≡ element_count graph.now },
}

impl<'a, S: ElementSet> Inside<'a, S> {
    // Visits an element that is in the set.
    fn visit<R: ElementSet>(&self, element: Element, search: &mut Search<R>) -> Result<(), Memory>
        requires width { element_count self.now.graph.now ≤ length search.old.reached }
        requires element { element < element_count self.now.graph.now }
        ensures { OnOk result
            (VisitsWithin (S.flags self.now.set.now) (λ x. x ≡ element) search.old search.new) }
    {
        if self.set.has(element) {
            search.visit(element)?;
        }
        Ok(())
    }

    // Visits the points of a list that are in the set.
    fn visit_points<R: ElementSet>(
        &self,
        points: &[u32],
        search: &mut Search<R>,
    ) -> Result<(), Memory>
        requires width { element_count self.now.graph.now ≤ length search.old.reached }
        requires points { HoldsFrom 0 points.now (λ x. x < element_count self.now.graph.now) }
        ensures { OnOk result
            (VisitsWithin (S.flags self.now.set.now) (Contains points.now) search.old search.new) }
    {
        for point in points {
            self.visit(Element(*point), search)?;
        }
        Ok(())
    }

    // Visits the elements from one up to another that are in the set.
    fn visit_range<R: ElementSet>(
        &self,
        from: u32,
        to: u32,
        search: &mut Search<R>,
    ) -> Result<(), Memory>
        requires width { element_count self.now.graph.now ≤ length search.old.reached }
        requires to { to ≤ element_count self.now.graph.now }
        ensures { OnOk result
            (VisitsWithin (S.flags self.now.set.now) (IsInRange from to) search.old search.new) }
    {
        for number in from..to {
            self.visit(Element(number), search)?;
        }
        Ok(())
    }
}

impl<'a, S: ElementSet> Relation for Inside<'a, S> {
    ghost step = { λ inside. IsStepInside inside.graph.now (S.flags inside.set.now) };

    ghost count = { λ inside. element_count inside.graph.now };

    fn count(&self) -> u32 {
        self.graph.points() + self.graph.universals()
    }

    fn visit_next<R: ElementSet>(
        &self,
        from: Element,
        search: &mut Search<R>,
    ) -> Result<(), Memory> {
        let points = self.graph.points();
        if from.0 >= points {
            return Ok(());
        }
        self.visit_points(self.graph.next_of(from.0), search)?;
        if self.graph.is_return(from.0) {
            self.visit_range(points, points + self.graph.universals(), search)?;
        }
        Ok(())
    }
}
