//! A body with its types by number.

use crate::flat::Stmt;
use crate::statements::Statements;
use nll_types::{BodyTypes, Typed};

/// A statement or terminator, with the lists and the types of its body.
#[derive(Clone, Copy)]
pub struct StatementAt<'a> {
    pub statement: &'a Stmt,
    pub statements: &'a Statements,
    pub types: &'a BodyTypes,
}

/// The types of a body, and its variables and statements, whose types go by their numbers.
#[derive(Clone, Copy)]
pub struct TypedBody<'a> {
    pub types: &'a BodyTypes,
    pub variables: &'a [Typed],
    /// The statement or terminator at each point.
    pub points: &'a Statements,
}
