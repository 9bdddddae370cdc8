//! Places: a variable, or what is taken of it.

ghost use Rattle.std.specs.Prelude.{◌≡◌, IfOk};
ghost use Rattle.nll_types.specs.Places.{path_of};

use nll_sets::Memory;
use smallvec::SmallVec;
use std::alloc::Global;
use std::slice;

/// What is taken of a place.
#[derive(Clone, Copy, Debug)]
pub enum Projection {
    /// `.*`: what a reference points to.
    Deref,
    /// `.k`: the part of a tuple or the field of a struct, counted from 0.
    Field(u32),
}

impl Default for Projection {
    fn default() -> Projection {
        Projection::Deref
    }
}

/// A variable, and what is taken of it, one projection after another.
///
/// # Shape
/// A place is small: most have one projection or none, and allocate nothing. More projections are
/// in a box, and up to three of them in the box itself.
#[derive(Drop)]
pub enum Place {
    /// The whole variable.
    Whole(u32),
    /// What one projection takes of the variable.
    Part(u32, Projection),
    /// What projections take of the variable, one after another.
    Parts(u32, Box<SmallVec<Projection, 3>>),
}

impl Place {
    /// What projections take of a variable.
    pub fn new(
        alloc: Global,
        variable: u32,
        projections: SmallVec<Projection, 3>,
    ) -> Result<Place, Memory>
        ensures { IfOk result (λ p. path_of p
            ≡ record { variable = variable; projections = projections.items }) }
    {
        match projections.as_slice() {
            [] => Ok(Place::Whole(variable)),
            [projection] => Ok(Place::Part(variable, *projection)),
            _ => Ok(Place::Parts(variable, Box::new(alloc, projections)?)),
        }
    }

    /// The variable.
    pub fn variable(&self) -> u32
        ensures { result ≡ (path_of self.now).variable }
    {
        match self {
            Place::Whole(variable) | Place::Part(variable, _) | Place::Parts(variable, _) => {
                *variable
            }
        }
    }

    /// What is taken of the variable.
    pub fn projections(&self) -> &[Projection]
        ensures { result.now ≡ (path_of self.now).projections }
    {
        match self {
            Place::Whole(_) => &[],
            Place::Part(_, projection) => slice::from_ref(projection),
            Place::Parts(_, projections) => projections.as_slice(),
        }
    }
}
