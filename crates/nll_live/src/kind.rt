//! What keeps variables live.

ghost use Rattle.std.specs.Prelude.{◌↔◌, ◌<◌, ℕ, length, Contains, IfOk};
ghost use Rattle.nll_types.specs.Types.{TypeTree};
ghost use Rattle.nll_body.specs.Bodies.{HasType};
ghost use Rattle.nll_live.specs.Kinds.{IsWantedOfType};

use nll_body::Body;
use nll_problem::RegionId;
use nll_sets::Memory;
use std::alloc::Global;

/// A variable is live where it may still be used, and where it may still be dropped.
#[derive(Clone, Copy)]
pub(crate) enum Kind {
    Use,
    Drop,
}

impl Kind {
    /// The regions that a variable asks for where it is live: those of its type, or its drop
    /// regions.
    pub(crate) fn regions(
        self,
        alloc: Global,
        body: &Body,
        variable: u32,
    ) -> Result<Vec<RegionId>, Memory>
        requires { variable < length body.now.variables }
        ensures { IfOk result (λ v. (t : TypeTree) → HasType body.now variable t
            → (r : ℕ) → Contains v.items r ↔ IsWantedOfType self body.now t r) }
    {
        match self {
            Kind::Use => body.var_regions(alloc, variable),
            Kind::Drop => body.var_drop_regions(alloc, variable),
        }
    }
}
