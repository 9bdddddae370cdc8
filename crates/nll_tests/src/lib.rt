//! Tests of sets, problems, solving, cuts, types, lines of texts and statements, by their
//! public calls alone.
//! Expected values are found by hand from the definitions. The plain solver, `rounds`, is a second
//! body of `solve`'s contract.
//!
//! Reading order: `rounds`, `transcript`, `problem_text`, `calls`, `well_formed`,
//! `type_data`, `meetings`, `type_text`, `statement_text`, `rows`, then each module of tests.
#![tactic(auto)]

mod rounds;

pub use rounds::solve_by_rounds;

#[cfg(test)]
mod builder_calls;
#[cfg(test)]
mod calls;
#[cfg(test)]
mod cuts;
#[cfg(test)]
mod element_frontiers;
#[cfg(test)]
mod end_texts;
#[cfg(test)]
mod frontiers;
#[cfg(test)]
mod graphs;
#[cfg(test)]
mod lines;
#[cfg(test)]
mod meetings;
#[cfg(test)]
mod messages;
#[cfg(test)]
mod mir_lines;
#[cfg(test)]
mod problem_text;
#[cfg(test)]
mod rows;
#[cfg(test)]
mod schedules;
#[cfg(test)]
mod sets;
#[cfg(test)]
mod skipped;
#[cfg(test)]
mod solutions;
#[cfg(test)]
mod statement_names;
#[cfg(test)]
mod statement_text;
#[cfg(test)]
mod statements;
#[cfg(test)]
mod transcript;
#[cfg(test)]
mod type_data;
#[cfg(test)]
mod type_names;
#[cfg(test)]
mod type_rows;
#[cfg(test)]
mod type_text;
#[cfg(test)]
mod types;
#[cfg(test)]
mod well_formed;
#[cfg(test)]
mod written_types;
