//! The statements and terminators of a body, in flat lists.

ghost use Rattle.std.specs.Prelude.{◌≡◌, ◌<◌, [], length, MatchOption, None, Some, slice_get};
ghost use Rattle.nll_body.specs.Flat.{part_in, path_in, sliced, statements_in, whole};

use crate::flat::{FlatCall, FlatMake, FlatOperand, FlatSwitch, PartPlace, Slice, Stmt};
use nll_problem::RegionId;
use nll_types::{Projection, Typed};
use std::alloc::Global;
use std::marker::Model;

/// The statement or terminator at each point of a body, and lists of what they consist of.
///
/// # Shape
/// 16 bytes a statement, and what its operands, types, pairs, blocks and projections take. The
/// place of a whole variable takes nothing.
///
/// # Errors
/// A call that adds something answers `Memory` where memory runs out, or where there are 2^31
/// places that aren't whole variables. The lists may have grown then, and what was in them stands.
///
/// # Cost
/// Of a call that adds: linear in what it adds, over many calls; of one that looks up: constant
/// (not proved).
pub struct Statements {
    pub(crate) points: Vec<Stmt>,
    pub(crate) parts: Vec<PartPlace>,
    pub(crate) projections: Vec<Projection>,
    pub(crate) operands: Vec<FlatOperand>,
    pub(crate) arguments: Vec<(FlatOperand, Typed)>,
    pub(crate) pairs: Vec<(RegionId, RegionId)>,
    pub(crate) blocks: Vec<u32>,
    pub(crate) makes: Vec<FlatMake>,
    pub(crate) calls: Vec<FlatCall>,
    pub(crate) switches: Vec<FlatSwitch>,
}

// A derived drop would be proved anew in each crate that drops one.
impl Drop for Statements {
    fn drop(self) {
        let Statements {
            points: _,
            parts: _,
            projections: _,
            operands: _,
            arguments: _,
            pairs: _,
            blocks: _,
            makes: _,
            calls: _,
            switches: _,
        } = self;
    }
}

impl Model for Statements {
    ghost use Rattle.nll_body.specs.Flat.{StatementLists};
    ghost use Rattle.nll_body.specs.Within.{AreWithin};

    ghost Value = { StatementLists };

    ghost view = { λ s. record {
      points = s.points.items;
      parts = s.parts.items;
      projections = s.projections.items;
      operands = s.operands.items;
      arguments = s.arguments.items;
      pairs = s.pairs.items;
      blocks = s.blocks.items;
      makes = s.makes.items;
      calls = s.calls.items;
      switches = s.switches.items;
    } };

    ghost invariant = { λ s. AreWithin (record {
      points = s.points.items;
      parts = s.parts.items;
      projections = s.projections.items;
      operands = s.operands.items;
      arguments = s.arguments.items;
      pairs = s.pairs.items;
      blocks = s.blocks.items;
      makes = s.makes.items;
      calls = s.calls.items;
      switches = s.switches.items;
    }) };
}

/// The number of the first place that isn't a whole variable.
pub(crate) const FIRST_PART: u32 = 1 << 31;

// A slice of a list, as far as the list goes.
fn slice_of<T>(list: &[T], slice: Slice) -> &[T]
    ensures { result.now ≡ sliced list.now slice }
{
    let from = slice.first.min(list.len());
    let end = from + slice.count.min(list.len() - from);
    &list[from..end]
}

impl Statements {
    /// No statement.
    pub fn new(alloc: Global) -> Statements
        ensures { statements_in result ≡ [] }
    {
        Statements {
            points: Vec::new(alloc),
            parts: Vec::new(alloc),
            projections: Vec::new(alloc),
            operands: Vec::new(alloc),
            arguments: Vec::new(alloc),
            pairs: Vec::new(alloc),
            blocks: Vec::new(alloc),
            makes: Vec::new(alloc),
            calls: Vec::new(alloc),
            switches: Vec::new(alloc),
        }
    }

    /// How many points there are.
    pub fn len(&self) -> usize
        ensures { result ≡ length (statements_in self.now) }
    {
        self.points.len()
    }

    /// The statement or terminator at a point.
    pub fn at(&self, point: usize) -> &Stmt
        requires { point < length self.now.points }
        ensures { slice_get self.now.points point ≡ Some result.now }
    {
        &self.points[point]
    }

    // What projections take of a variable, where the number is that of such a place.
    fn part(&self, place: u32) -> Option<&PartPlace>
        ensures { MatchOption result (path_in self.now place ≡ whole place)
            (λ p. path_in self.now place ≡ part_in self.now p.now) }
    {
        if place < FIRST_PART {
            return None;
        }
        self.parts.get((place - FIRST_PART) as usize)
    }

    /// The variable of a place.
    pub fn variable(&self, place: u32) -> u32
        ensures { result ≡ (path_in self.now place).variable }
    {
        match self.part(place) {
            Some(part) => part.variable,
            None => place,
        }
    }

    /// What is taken of the variable of a place.
    pub fn projections(&self, place: u32) -> &[Projection]
        ensures { result.now ≡ (path_in self.now place).projections }
    {
        match self.part(place) {
            Some(part) => slice_of(self.projections.as_slice(), part.projections),
            None => &[],
        }
    }

    /// The making of a tuple or struct that has this number.
    pub fn make(&self, number: usize) -> Option<&FlatMake>
        ensures { MatchOption result (slice_get self.now.makes number ≡ None)
            (λ m. slice_get self.now.makes number ≡ Some m.now) }
    {
        self.makes.get(number)
    }

    /// The call of this number.
    pub fn call(&self, number: usize) -> Option<&FlatCall>
        ensures { MatchOption result (slice_get self.now.calls number ≡ None)
            (λ c. slice_get self.now.calls number ≡ Some c.now) }
    {
        self.calls.get(number)
    }

    /// The switch of this number.
    pub fn switch(&self, number: usize) -> Option<&FlatSwitch>
        ensures { MatchOption result (slice_get self.now.switches number ≡ None)
            (λ s. slice_get self.now.switches number ≡ Some s.now) }
    {
        self.switches.get(number)
    }

    /// A slice of the operands of which tuples and structs are made.
    pub fn operands(&self, slice: Slice) -> &[FlatOperand]
        ensures { result.now ≡ sliced self.now.operands slice }
    {
        slice_of(self.operands.as_slice(), slice)
    }

    /// A slice of the operands of calls, each with the type of the parameter that it is for.
    pub fn arguments(&self, slice: Slice) -> &[(FlatOperand, Typed)]
        ensures { result.now ≡ sliced self.now.arguments slice }
    {
        slice_of(self.arguments.as_slice(), slice)
    }

    /// A slice of the pairs of calls.
    pub fn pairs(&self, slice: Slice) -> &[(RegionId, RegionId)]
        ensures { result.now ≡ sliced self.now.pairs slice }
    {
        slice_of(self.pairs.as_slice(), slice)
    }

    /// A slice of the blocks of switches.
    pub fn blocks(&self, slice: Slice) -> &[u32]
        ensures { result.now ≡ sliced self.now.blocks slice }
    {
        slice_of(self.blocks.as_slice(), slice)
    }
}
