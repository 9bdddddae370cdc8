//! A line of a MIR text.

ghost use Rattle.std.specs.Prelude.{◌≡◌};
ghost use Rattle.nll_mir_grammar.specs.TypeTexts.{written};
ghost use Rattle.nll_mir_grammar.specs.Tuples.{IsTuple};

use crate::statement::Statement;
use crate::type_text::TypeText;
use nll_types::Parameter;
use std::marker::Model;

/// A parameter of a struct, by its name.
#[derive(Clone, Copy)]
pub enum ParameterText<'a> {
    /// A region's name, without the `'`.
    Region(&'a [u8], Parameter),
    /// A type's name.
    Type(&'a [u8], Parameter),
}

/// A tuple as it is written.
#[derive(Drop)]
pub struct TupleText<'a> {
    tuple: TypeText<'a>,
}

impl<'a> Model for TupleText<'a> {
    ghost use Rattle.std.specs.Prelude.{List};
    ghost use Rattle.nll_mir_grammar.specs.TypeTexts.{written};
    ghost use Rattle.nll_mir_grammar.specs.declared.type_text.TypePiece.{TypePiece as piece};
    ghost use Rattle.nll_mir_grammar.specs.Tuples.{IsTuple};

    ghost Value = { List piece };

    ghost view = { λ text. text.tuple };

    ghost invariant = { λ text. IsTuple (written text.tuple) };
}

impl<'a> TupleText<'a> {
    /// The tuple, as a type.
    pub fn as_type(&self) -> &TypeText<'a>
        ensures value { result.now ≡ self.now }
        ensures tuple { IsTuple (written self.now) }
    {
        &self.tuple
    }

    // The tuple that a type is.
    pub(crate) fn of(tuple: TypeText<'a>) -> TupleText<'a>
        requires { IsTuple (written tuple) }
        ensures { result ≡ tuple.entry }
    {
        TupleText { tuple }
    }
}

/// A struct line.
#[derive(Drop)]
pub struct StructText<'a> {
    pub name: &'a [u8],
    pub parameters: Vec<ParameterText<'a>>,
    /// Whether it has a drop of its own.
    pub has_drop: bool,
    /// The types of its fields.
    pub fields: TupleText<'a>,
}

/// A line that isn't skipped, by its form. Names lie in the text.
#[derive(Drop)]
pub enum Line<'a> {
    Universal(&'a [u8]),
    Outlives(&'a [u8], &'a [u8]),
    Region(&'a [u8]),
    /// That the first region holds, at all points, what the second one holds.
    Assert(&'a [u8], &'a [u8]),
    Struct(Box<StructText<'a>>),
    Let(u32, TypeText<'a>),
    Blocks(u32),
    Block(u32),
    /// A statement or a terminator.
    At(Statement<'a>),
    End,
}
