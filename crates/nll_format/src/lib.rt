//! What all texts share above their lines and tokens: what a text is, the kinds of its faults,
//! the parts of lines, names and labels.
//!
//! Reading order: `limits`, `error`, `header`, `common_lines`, `line_reader`, `lines`, `arguments`,
//! `name`, `series`, `names`, `labels`.
#![tactic(auto)]

mod arguments;
mod common_lines;
mod error;
mod header;
mod labels;
mod limits;
mod line_reader;
mod lines;
mod name;
mod names;
mod series;

pub use arguments::{nothing, number, region, region_number, two_numbers, two_regions};
pub use common_lines::pass_over;
pub use error::{TextError, TextKind};
pub use header::{first_line, open_text};
pub use labels::{Labels, PointName};
pub use limits::MAX_TEXT;
pub use line_reader::LineReader;
pub use lines::read_lines;
pub use names::Names;
