//! Liveness: where the value of a variable may still be used or dropped, and the base elements of
//! regions that follow from it. It knows no text.
//!
//! Reading order: `base_search`, `live_points`, `kind`, `ways`, `points_by_variable`, `chains`,
//! `lows`, `search`, `base_runs`; `live_sets`, `base_elements`. The definitions are in specs/.
#![tactic(auto)]

mod base_elements;
mod base_runs;
mod base_search;
mod chains;
mod kind;
mod live_points;
mod live_sets;
mod lows;
mod points_by_variable;
mod search;
mod ways;

pub use base_elements::bases;
pub use base_search::live_runs;
pub use live_sets::{LiveSets, liveness};
