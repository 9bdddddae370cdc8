//! The problem of a body: its graph, the base elements that liveness gives, and the constraints
//! that its statements ask, by the subtyping of types, by reborrows, and by calls. It knows no
//! text.
//!
//! Reading order: `sign`, `row_signs`, `type_row`, `field_rows`, `part_rows`, `fields`, `meetings`
//! say what types at hand are; `known`, `walk`, `asking` say what a statement asks;
//! `error`, `body_problem`, `facts`, `constraints`, `laws` put the problem together. The
//! definitions are in specs/.
#![tactic(auto)]

mod asking;
mod body_problem;
mod constraints;
mod error;
mod facts;
mod field_rows;
mod fields;
mod known;
mod laws;
mod meetings;
mod part_rows;
mod row_signs;
mod sign;
mod type_row;
mod walk;

pub use body_problem::problem_of;
pub use error::RuleError;
pub use laws::one_problem;
