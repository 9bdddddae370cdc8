//! The least solution of a problem of location-aware regions, and its faults.
//! The problem is that of `nll_problem`, the sets are those of `nll_sets`; both are found here too.
//!
//! Reading order: `values`, `bases`, `lines`, `stretches`,
//! `walk`, `inclusion`, `order`, `indexed`, `satisfaction`, `solver`; `known_outlives`,
//! `fault_check`. What owners use beside the solver is in `frontiers`. The definitions are in
//! specs/.
#![tactic(auto)]

mod bases;
mod fault_check;
mod frontiers;
mod inclusion;
mod indexed;
mod known_outlives;
mod lines;
mod order;
mod region_elements;
mod satisfaction;
mod search;
mod solver;
mod stretches;
mod values;
mod walk;

pub use bases::base_values;
pub use fault_check::faults;
pub use frontiers::{Frontier, Steps};
pub use inclusion::is_seen_within;
pub use nll_problem::{
    At, BuildError, Constraint, Graph, Kind, MAX_CONSTRAINTS, MAX_EDGES, MAX_POINTS, MAX_REGIONS,
    MAX_UNIVERSALS, Problem, ProblemBuilder, RegionId,
};
pub use nll_sets::{BitSet, Element, ElementSet, Elements, Memory, Run, RunSet};
pub use region_elements::RegionElements;
pub use solver::solve;
pub use values::Values;
