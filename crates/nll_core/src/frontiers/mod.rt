//! What owners use beside the solver: frontiers, which go on from what was found before.
//!
//! Reading order: `landings`, `steps`, `places`, `continuation`;
//! `inside`, `element_growth`, `frontier`.

mod continuation;
mod element_growth;
mod frontier;
mod inside;
mod landings;
mod places;
mod steps;

pub use frontier::Frontier;
pub use steps::Steps;
