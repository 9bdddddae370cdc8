//! Keepers: parts for every engine that says of a new fact which facts follow.
//!
//! Reading order: `engine`, `own`, `book`, `outboxes`, `settle`, `keepers`, `alone`.
//! The definitions are in specs/: `Engine` first.
#![tactic(auto)]

mod alone;
mod book;
mod engine;
mod hear;
mod keepers;
mod outboxes;
mod own;
mod pursue;
mod settle;

pub use alone::solve;
pub use engine::{Engine, Owners, ThreadEngine};
pub use keepers::{Keeper, Keepers};
pub use own::push_own;
