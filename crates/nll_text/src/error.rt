//! Why a line can't be read.

use thiserror::Error;

/// The bytes of a line aren't UTF-8.
#[derive(Clone, Copy, Debug, PartialEq, Eq, Error)]
#[error("not UTF-8")]
pub struct NotUtf8;
