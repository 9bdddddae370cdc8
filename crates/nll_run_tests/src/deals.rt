//! How the regions of a problem are assigned.
ghost use Rattle.std.specs.Prelude.{◌≡◌, length, IfOk};

use nll_cut::{Cut, CutError};
use std::alloc::Global;

/// How the regions are assigned to this many owners.
#[derive(Clone, Copy, Debug)]
pub enum Deal {
    /// Round-robin.
    Round(u16),
    /// In blocks of consecutive regions.
    Blocks(u16),
    /// By a list of each region's owner.
    List(u16, &'static [u16]),
}

/// The cut of this many regions.
pub fn cut_of(alloc: Global, deal: Deal, regions: u32) -> Result<Cut, CutError>
    ensures { IfOk result (λ cut. length cut.list ≡ regions) }
{
    match deal {
        Deal::Round(owners) => Cut::round(alloc, regions, owners),
        Deal::Blocks(owners) => Cut::blocks(alloc, regions, owners),
        Deal::List(owners, list) => Cut::from_list(alloc, regions, owners, list),
    }
}
