//! The elements of the value of a region, one after another.

ghost use Rattle.std.specs.Prelude.{◌≡◌};
ghost use Rattle.std.specs.Iterator.{YieldsFirst, item_count};
ghost use Rattle.nll_sets.specs.ElementSet.{elements};

use nll_sets::{Element, Elements, RunSet};
use std::marker::Model;

/// The elements of the value of a region that are still to come, ascending. Contracts see it as
/// their list.
#[derive(Drop)]
pub struct RegionElements<'a> {
    elements: Elements<'a, RunSet>,
}

impl<'a> Model for RegionElements<'a> {
    ghost use Rattle.std.specs.Prelude.{List, ℕ};

    ghost Value = { List ℕ };

    ghost view = { λ it. it.elements };
}

impl<'a> RegionElements<'a> {
    // All elements of the set of a region.
    pub(crate) fn of(set: &'a RunSet) -> RegionElements<'a>
        ensures { result ≡ elements set.now }
    {
        RegionElements {
            elements: set.iter(),
        }
    }
}

impl<'a> Iterator for RegionElements<'a> {
    type Item = Element;

    ghost next_gives = { YieldsFirst (λ left. left) };

    ghost remaining = { item_count (λ left. left) };

    fn next(&mut self) -> Option<Element> {
        self.elements.next()
    }
}
