//! Texts as lines, tokens and numbers: what the readers of all line-based formats share.
//! It knows no format.
//!
//! Reading order: `lines`, `error`, `bytes`, `number`, `front`, `header`, `skipped`, `laws`.
#![tactic(auto)]

mod bytes;
mod error;
mod front;
mod header;
mod laws;
mod lines;
mod number;
mod skipped;

pub use bytes::behind_gap;
pub use error::NotUtf8;
pub use front::{after_arrow, after_sign, after_word, is_gap, number_at, region_at, word_at};
pub use header::is_header;
pub use laws::{one_token_list, tokens_make_a_line};
pub use lines::next_line;
pub use number::number_in_front;
pub use skipped::is_skipped_line;
