//! The reader of facts texts, which list a problem line by line.
//! Read `line`, `version`, `reader`, `facts`, then `laws`; the definitions are in specs/.
#![tactic(auto)]

mod facts;
mod laws;
mod line;
mod reader;
mod version;

pub use facts::{Facts, read_facts};
pub use laws::{facts_not_both, facts_one_fault, facts_one_meaning, facts_some_meaning_or_fault};
