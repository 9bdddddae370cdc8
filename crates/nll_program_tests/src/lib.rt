//! Tests of the readers of texts, of reports and of the program, by their public calls alone.
//! Expected values are found by hand from the rules of the formats and from the definitions.
//!
//! The program is also run over a text and streams of which all is known (`known`); its contract
//! then says what they hold.
//!
//! Reading order: `known`, `rows`, `notes`, `comparison`, `problem_text`, `answers`, `fakes`,
//! `program`, `examples`, `worked`, then each further module of tests.
#![tactic(auto)]

mod known;
mod page;

pub use known::{Sheet, on_pages};
pub use page::Page;

#[cfg(test)]
mod answers;
#[cfg(test)]
mod bodies;
#[cfg(test)]
mod borders;
#[cfg(test)]
mod comparison;
#[cfg(test)]
mod everywhere;
#[cfg(test)]
mod examples;
#[cfg(test)]
mod failed_writes;
#[cfg(test)]
mod fakes;
#[cfg(test)]
mod faults;
#[cfg(test)]
mod labels;
#[cfg(test)]
mod large;
#[cfg(test)]
mod limits;
#[cfg(test)]
mod messages;
#[cfg(test)]
mod notes;
#[cfg(test)]
mod openings;
#[cfg(test)]
mod owners;
#[cfg(test)]
mod pieces;
#[cfg(test)]
mod problem_text;
#[cfg(test)]
mod program;
#[cfg(test)]
mod refusals;
#[cfg(test)]
mod replays;
#[cfg(test)]
mod right_texts;
#[cfg(test)]
mod rows;
#[cfg(test)]
mod values;
#[cfg(test)]
mod words;
#[cfg(test)]
mod worked;
#[cfg(test)]
mod worked_bodies;
#[cfg(test)]
mod worked_borders;
#[cfg(test)]
mod worked_facts;
#[cfg(test)]
mod worked_program;
#[cfg(test)]
mod worked_versions;
