//! Bodies: what a MIR text means, with its statements and terminators: what is written in each,
//! what it uses, defines and drops, where it goes on, which types it requires to be equal when
//! regions are erased, and how large its types may be. It knows no text.
//!
//! Reading order: `flat`, `statements`, `effects`, `statement_judgement`, `parts`, `typed`, `body`,
//! `edges`. The definitions are in specs/.
#![tactic(auto)]

mod adding;
mod body;
mod declared;
mod edges;
mod effects;
mod exits;
mod flat;
mod found;
mod judgement;
mod meetings;
mod operands;
mod parts;
mod places;
mod statement_judgement;
mod statements;
mod typed;

pub use body::Body;
pub use exits::Exits;
pub use flat::{FlatCall, FlatMake, FlatOperand, FlatSwitch, PartPlace, Slice, Stmt};
pub use judgement::Judgement;
pub use parts::BodyParts;
pub use places::Places;
pub use statement_judgement::judge_statement;
pub use statements::Statements;
pub use typed::{StatementAt, TypedBody};
