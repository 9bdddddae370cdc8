//! Tests of owners, and of the model of a run, by their public calls alone. Expected values are
//! found by hand from the definitions.
//!
//! Reading order: `failure`, `driver`, `owner_text`, `world_text`, `dealt`, then each module of
//! tests.
#![tactic(auto)]

#[cfg(test)]
mod dealt;
#[cfg(test)]
mod driver;
#[cfg(test)]
mod failure;
#[cfg(test)]
mod holdings;
#[cfg(test)]
mod lent;
#[cfg(test)]
mod memory;
#[cfg(test)]
mod owner_text;
#[cfg(test)]
mod random;
#[cfg(test)]
mod refusals;
#[cfg(test)]
mod schedules;
#[cfg(test)]
mod states;
#[cfg(test)]
mod turns;
#[cfg(test)]
mod world_text;
