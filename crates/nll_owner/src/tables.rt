//! What all owners of a cut look up in a problem.

ghost use Rattle.std.specs.Prelude.{◌≡◌, IfOk, length};
ghost use Rattle.nll_owner.specs.Held.{held};
ghost use Rattle.nll_owner.specs.Tables.{AreTables};

use nll_core::Steps;
use nll_cut::{Cut, Readers};
use nll_problem::{ConstraintIndex, Problem};
use nll_sets::Memory;
use std::alloc::Global;
use std::marker::Model;

/// What all owners of a cut look up in a problem: the steps of its graph, its constraints by the
/// region that they read, and who reads which region. It is made once and each owner borrows it; it
/// has no lifetime, so threads can borrow it.
///
/// # Cost
/// Some 4 bytes a point, 16 bytes a step that doesn't lead to the next point, 12 bytes a constraint
/// and 36 bytes a region (not proved).
#[derive(Drop)]
pub struct Tables {
    pub(crate) steps: Steps,
    pub(crate) index: ConstraintIndex,
    pub(crate) readers: Readers,
}

impl Model for Tables {
    ghost use Rattle.nll_owner.specs.Tables as spec;
    ghost use Rattle.nll_owner.specs.Tables.{tables_of};

    ghost Value = { spec.OwnerTables };

    ghost view = { λ tables. tables_of tables.steps tables.index tables.readers };
}

impl Tables {
    /// The tables of a problem and its cut.
    ///
    /// # Errors
    /// - `Memory`.
    ///
    /// # Cost
    /// Passes over the points, the regions and the constraints, and a sort of the constraints that
    /// read the same region (not proved).
    pub fn of(alloc: Global, problem: &Problem, cut: &Cut) -> Result<Tables, Memory>
        requires { length cut.now.list ≡ problem.now.regions }
        ensures { IfOk result (AreTables problem.now cut.now) }
    {
        let readers = cut.readers(alloc, problem)?;
        let index = ConstraintIndex::of(alloc, problem)?;
        match Steps::of(alloc, problem.graph()) {
            Ok(steps) => Ok(Tables {
                steps,
                index,
                readers,
            }),
            Err(error) => Err(error),
        }
    }
}

/// The tables of an owner: its own, or ones that it borrows. Threads may share them, and take them
/// over, which the kit doesn't prove of a `Cow`.
#[derive(Drop)]
pub(crate) enum HeldTables<'q> {
    Own(Tables),
    Lent(&'q Tables),
}

impl<'q> HeldTables<'q> {
    /// The tables.
    pub(crate) fn get(&self) -> &Tables
        ensures { result.now ≡ held self.now }
    {
        match self {
            HeldTables::Own(tables) => tables,
            HeldTables::Lent(tables) => tables,
        }
    }
}
