//! The regions of a problem as an analysis, whose parts are owners.

ghost use Rattle.std.specs.Prelude.{◌≡◌, length};
ghost use Rattle.nll_owner.specs.Regions as spec;
ghost use Rattle.nll_owner.specs.RegionsLawful.{regions_lawful};
ghost use Rattle.nll_owner.specs.Tables.{AreTables};

use crate::fact::Fact;
use crate::holding::Holding;
use crate::owner::Owner;
use crate::tables::Tables;
use fixpoint::{Analysis, PartError, Rules};
use nll_cut::Cut;
use nll_mail::Growth;
use nll_problem::Problem;
use nll_sets::Memory;
use std::alloc::Global;
use std::marker::Model;

/// A problem whose regions are assigned to owners.
#[derive(Drop)]
pub struct Regions<'q> {
    problem: &'q Problem,
    cut: &'q Cut,
    tables: &'q Tables,
}

impl<'q> Model for Regions<'q> {
    ghost use Rattle.std.specs.Prelude.{◌≡◌, length};
    ghost use Rattle.nll_owner.specs.Regions as spec;
    ghost use Rattle.nll_owner.specs.Tables.{AreTables};

    ghost Value = { spec.System };

    ghost view = { λ a. spec.system_of a.problem.now a.cut.now };

    ghost invariant = { λ a. (length a.cut.now.list ≡ a.problem.now.regions)
        × AreTables a.problem.now a.cut.now a.tables.now };
}

impl<'q> Regions<'q> {
    /// The regions of this problem, assigned by this cut.
    pub fn new(problem: &'q Problem, cut: &'q Cut, tables: &'q Tables) -> Regions<'q>
        requires cut { length cut.now.list ≡ problem.now.regions }
        requires tables { AreTables problem.now cut.now tables.now }
        ensures { result ≡ spec.system_of problem.now cut.now }
    {
        Regions {
            problem,
            cut,
            tables,
        }
    }
}

impl<'q> Rules for Regions<'q> {
    type Fact = Fact;

    type Growth = Growth;

    ghost rules = { spec.rules };

    ghost lawful = { regions_lawful };

    fn parts(&self) -> u16 {
        // Clause call: the problem is sound.
        let _regions = self.problem.regions();
        self.cut.owners()
    }
}

impl<'q> Analysis for Regions<'q> {
    type Part = Owner<'q>;

    type Yield = Holding;

    ghost state = { spec.part_of };

    ghost yields = { spec.YieldsValues };

    fn part(&self, alloc: Global, me: u16) -> Result<Owner<'q>, Memory> {
        Owner::on(alloc, self.problem, self.cut, self.tables, me)
    }

    fn me(part: &Owner<'q>) -> u16 {
        part.me()
    }

    fn owners(part: &Owner<'q>) -> u16 {
        part.owners()
    }

    fn load(part: &mut Owner<'q>) -> Result<(), PartError> {
        part.load()
    }

    fn receive_all(part: &mut Owner<'q>, from: u16, growths: &[Growth]) -> Result<(), PartError> {
        part.receive_all(from, growths)
    }

    fn passes(part: &Owner<'q>, from: u16, growth: &Growth) -> bool {
        // Clause call: the owner is sound.
        let _ = part.me();
        part.passes(from, growth)
    }

    fn next_for(part: &Owner<'q>, to: u16) -> Option<Growth> {
        part.next_for(to)
    }

    fn outgoing(part: &mut Owner<'q>, to: u16) -> Option<Growth> {
        part.outgoing(to)
    }

    fn unsent(part: &Owner<'q>, to: u16) -> u64 {
        part.unsent(to)
    }

    fn grown(part: &Owner<'q>) -> u64 {
        part.log().len() as u64
    }

    fn into_parts(part: Owner<'q>, alloc: Global) -> (Vec<Growth>, Holding) {
        part.into_parts(alloc)
    }

    fn none(alloc: Global) -> Holding {
        Holding::none(alloc)
    }
}
