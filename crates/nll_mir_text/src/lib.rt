//! The reader of MIR texts, of versions 1 and 2.
//! Read `scope`, `rows`, `made`, `type_resolution`, `tables`, `groups`, `resolution`, `own_names`,
//! `fields`, `reader`, `head`, `blocks`, `header`, `mir`, then `laws`; the definitions are in
//! specs/.
#![tactic(auto)]

mod blocks;
mod fields;
mod groups;
mod head;
mod header;
mod laws;
mod limits;
mod made;
mod mir;
mod own_names;
mod ranges;
mod reader;
mod resolution;
mod rows;
mod scope;
mod tables;
mod type_resolution;

pub use header::is_mir_header;
pub use laws::{
    mir_meaning_is_sound, mir_meaning_is_well_typed, mir_not_both, mir_not_neither, mir_one_fault,
    mir_one_meaning,
};
pub use limits::{MAX_STRUCTS, MAX_VARIABLES};
pub use mir::read_mir;
pub use nll_body::{Body, Stmt};
pub use nll_facts::{Facts, read_facts};
pub use nll_format::{Labels, PointName, TextError, TextKind};
pub use nll_types::{Place, Ty};
pub use scope::Scope;
pub use type_resolution::{Resolving, resolve};
