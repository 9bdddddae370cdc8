//! Worked problems and worked MIR texts, for the crates of tests that stand on them.
//!
//! Reading order: `written`, `problems`; `lines`, `texts`.
#![tactic(auto)]

mod lines;
mod problems;
mod texts;
mod written;

pub use lines::text_of;
pub use problems::{
    BY_TURNS, EVERYWHERE, FILLED_HOLE, MANY, MANY_BOTH_WAYS, ONE_POINT, REACHED, TWO_SOURCES,
};
pub use texts::{
    ASSERTED, CALLED, DROPPED, FUNCTIONS, MOVED, REBORROW, RETURNED, TAKERS, TWO_BORROWS,
};
pub use written::{Written, worked_problem};
