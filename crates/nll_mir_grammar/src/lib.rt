//! The grammar of MIR texts: from the bytes of a line to its form, and of the types in it.
//!
//! Reading order: `words`; of types `type_text`, `fronts`, `opens`, `type_reader`; then `lists`,
//! the parts of lines, and `form_reader`.
#![tactic(auto)]

mod assignment;
mod blocks;
mod bounds;
mod form_reader;
mod fronts;
mod keyword;
mod laws;
mod light;
mod line;
mod lines;
mod lists;
mod opens;
mod pairs;
mod parameters;
mod place;
mod points;
mod right;
mod statement;
mod type_front;
mod type_reader;
mod type_text;
mod version;
mod words;

pub use form_reader::line_of;
pub use laws::{a_type_has_tokens, one_form, one_type_at_most};
pub use light::{Light, light_block, light_line};
pub use line::{Line, ParameterText, StructText, TupleText};
pub use statement::{Call, Make, Statement};
pub use type_reader::type_at;
pub use type_text::{TypePiece, TypeText};
pub use version::Version;
pub use words::is_capital;
