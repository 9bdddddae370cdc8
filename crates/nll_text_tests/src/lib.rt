//! Tests of the readers of texts of all formats, against slow readers that were written from the
//! definitions alone; and tests of bodies by public calls alone: of the reader of MIR texts and the
//! bodies that it makes, of liveness, and of the problems of bodies. What is expected of bodies is
//! found by hand from the rules of the format and from the definitions. The plain program,
//! `live_by_rounds`, has a contract in the terms of `liveness`.
//!
//! Reading order: `tokens`, `line`, `slow`; `lists`, `regions`, `facts`; `shapes`, `types`,
//! `mir`, `points`; `quick`, `hostile`. Then `body_text`, `bodies`, and the further modules of
//! texts; `live_rounds`, `live_text`, `liveness`, `random_bodies`; `problem_text`, `problems`,
//! `problem_limits`, `copies`, `repeats`.
#![tactic(auto)]

mod live_rounds;

pub use live_rounds::live_by_rounds;

#[cfg(test)]
mod bodies;
#[cfg(test)]
mod body_text;
#[cfg(test)]
mod body_types;
#[cfg(test)]
mod comparison;
#[cfg(test)]
mod copies;
#[cfg(test)]
mod facts;
#[cfg(test)]
mod hostile;
#[cfg(test)]
mod line;
#[cfg(test)]
mod lists;
#[cfg(test)]
mod live_text;
#[cfg(test)]
mod liveness;
#[cfg(test)]
mod mir;
#[cfg(test)]
mod pieces;
#[cfg(test)]
mod points;
#[cfg(test)]
mod problem_limits;
#[cfg(test)]
mod problem_text;
#[cfg(test)]
mod problems;
#[cfg(test)]
mod quick;
#[cfg(test)]
mod random_bodies;
#[cfg(test)]
mod refused;
#[cfg(test)]
mod regions;
#[cfg(test)]
mod repeats;
#[cfg(test)]
mod repetitions;
#[cfg(test)]
mod rows;
#[cfg(test)]
mod shapes;
#[cfg(test)]
mod sizes;
#[cfg(test)]
mod slow;
#[cfg(test)]
mod statements;
#[cfg(test)]
mod text_limits;
#[cfg(test)]
mod tokens;
#[cfg(test)]
mod types;
