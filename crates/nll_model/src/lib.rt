//! The model of a run: owners, the boxes between them and the balance, one event after another.
//!
//! Reading order: `laws`, `error`, `event`, `outcome`, `lane`, `seat`, `state`, `world`,
//! `schedule_replay`. The definitions are in specs/: `State` first, then `Events`,
//! `Soundness`, `Replaying`.
#![tactic(auto)]

mod error;
mod event;
mod lane;
mod laws;
mod outcome;
mod schedule_replay;
mod seat;
mod state;
mod world;

pub use error::ModelError;
pub use event::Event;
pub use lane::Lane;
pub use laws::{orderly_states_have_low_ranks, sound_states_are_lawful, steps_are_lawful};
pub use outcome::{Replay, Step};
pub use schedule_replay::replay;
pub use seat::{Item, Seat};
pub use world::World;
