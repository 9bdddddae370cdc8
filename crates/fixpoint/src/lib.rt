//! Least solutions over parts that own their facts and tell each other only of growths.
//!
//! Reading order: `growth`, `rules`, `laws`, `error`, `analysis`, `ending`.
//! The definitions are in specs/: `Rules` first, then `Logs`, `State` and `Finishing`.
#![tactic(auto)]

mod analysis;
mod ending;
mod error;
mod growth;
mod laws;
mod rules;

pub use analysis::{Analysis, ThreadAnalysis};
pub use ending::Ending;
pub use error::PartError;
pub use growth::Growth;
pub use laws::{all_quiet, never_stray, settled_parts_agree, sound_parts_are_right};
pub use rules::Rules;
