//! Searches: what the walks of a relation reach from an element.
//!
//! A search keeps the elements that it has reached twice: as a set, which shows what is new, and as
//! a list in the order in which they were reached, the end of which is still to be followed.

ghost use Rattle.std.specs.Prelude.{◌≡◌, ℕ, ◌≤◌, ◌<◌, false, [], length, replicate, slice_index};
ghost use Rattle.std.specs.Prelude.{IfOk, OnOk};
ghost use Rattle.nll_core.specs.Search.{Visits, IsPending, Spreads, IsFound};

use nll_sets::{Element, ElementSet, Memory};
use std::alloc::Global;
use std::marker::Model;

/// Which elements may follow which, among the elements below a number.
pub trait Relation {
    /// The second element may follow the first.
    ghost step: { Self → ℕ → ℕ → Type 0 };

    /// The elements are the numbers below it.
    ghost count: { Self → ℕ };

    /// How many elements there are.
    fn count(&self) -> u32
        ensures { result ≡ count self.now };

    /// Visits each element that one step from this one leads to.
    fn visit_next<R: ElementSet>(&self, from: Element, search: &mut Search<R>) -> Result<(), Memory>
        requires { count self.now ≤ length search.old.reached }
        ensures { OnOk result (Visits (step self.now from) search.old search.new) };
}

/// What a search has reached.
#[derive(Drop)]
pub struct Search<R: ElementSet> {
    reached: R,
    list: Vec<Element>,
}

impl<R: ElementSet> Model for Search<R> {
    ghost use Rattle.nll_core.specs.Search as spec;

    ghost Value = { spec.Search };

    ghost view = { λ s. record { reached = R.flags s.reached; list = s.list.items } };
}

impl<R: ElementSet> Search<R> {
    /// A search among the elements below a number, which has reached none.
    pub fn new(alloc: Global, count: u32) -> Result<Search<R>, Memory>
        ensures { IfOk result (λ s. s ≡ record { reached = replicate count false; list = [] }) }
    {
        Ok(Search {
            reached: R::empty(alloc, count)?,
            list: Vec::new(alloc),
        })
    }

    /// A search that has reached a set already, and has nothing left to do there.
    pub fn over(alloc: Global, reached: R) -> Search<R>
        ensures { result ≡ record { reached = R.flags reached; list = [] } }
    {
        Search {
            reached,
            list: Vec::new(alloc),
        }
    }

    /// Inserts an element into the set and appends it to the list, if it is new.
    pub fn visit(&mut self, element: Element) -> Result<(), Memory>
        requires { element < length self.old.reached }
        ensures { OnOk result (Visits (λ x. x ≡ element) self.old self.new) }
    {
        if self.reached.insert(element)? {
            self.list.push(element)?;
        }
        Ok(())
    }

    /// Goes on from the elements of the list from an index on, until each step from the set leads
    /// into it.
    pub fn spread<P: Relation>(&mut self, relation: &P, from: usize) -> Result<(), Memory>
        requires width { P.count relation.now ≤ length self.old.reached }
        requires pending { IsPending (P.step relation.now) self.old from }
        ensures { OnOk result (Spreads (P.step relation.now) self.old self.new) }
    {
        let mut place = from;
        while place < self.len() {
            let element = self.at(place);
            place += 1;
            relation.visit_next(element, self)?;
        }
        Ok(())
    }

    // How many elements were reached.
    fn len(&self) -> usize
        ensures { result ≡ length self.now.list }
    {
        self.list.len()
    }

    // The element at an index of the list.
    fn at(&self, place: usize) -> Element
        requires { place < length self.now.list }
        ensures { result ≡ slice_index self.now.list place }
    {
        self.list[place]
    }

    /// The set and the list.
    pub fn into_parts(self) -> (R, Vec<Element>)
        ensures set { R.flags result.0 ≡ self.reached }
        ensures list { result.1.items ≡ self.list }
    {
        let Search { reached, list } = self;
        (reached, list)
    }
}

/// A search from one element to its end.
pub fn search_from<P: Relation, R: ElementSet>(
    alloc: Global,
    relation: &P,
    at: Element,
) -> Result<Search<R>, Memory>
    requires { at < P.count relation.now }
    ensures width { IfOk result (λ search. length search.reached ≡ P.count relation.now) }
    ensures found { IfOk result (IsFound (P.step relation.now) at) }
{
    let mut search = Search::new(alloc, relation.count())?;
    search.visit(at)?;
    search.spread(relation, 0)?;
    Ok(search)
}
