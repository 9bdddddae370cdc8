//! Types as they are written.

ghost use Rattle.std.specs.Prelude.{◌≡◌};
ghost use Rattle.nll_mir_grammar.specs.Functions as functions;
ghost use Rattle.nll_mir_grammar.specs.TypeTexts.{IsType, written};

use std::marker::Model;
use std::mem::size_of;

/// A piece of a written type: it begins something, or makes a type of the type and of the row that
/// were made last.
#[derive(Clone, Copy)]
pub enum TypePiece<'a> {
    /// `int`
    Int,
    /// A reference to the type that is made next: whether it is `mut`, and its region's name
    /// without the `'`.
    Reference(bool, &'a [u8]),
    /// A row of no arguments is begun.
    Row,
    /// A region goes to the end of the row.
    Region(&'a [u8]),
    /// The type goes to the end of the row.
    Part,
    /// The tuple of the row.
    Tuple,
    /// A name, of a struct or of a type parameter, with the row as its arguments.
    Named(&'a [u8]),
    /// The function of the row, with the type as its result.
    Function,
}

const _: () = prove!(size_of::<TypePiece<'_>>() == 24);

/// A type as it is written: pieces in a row. A reference comes before the type that it points to;
/// other parts come before what they are parts of.
///
/// # Shape
/// It may have as many pieces, and be as deep, as its text is long; so nothing that goes over it
/// recurses.
#[derive(Drop)]
pub struct TypeText<'a> {
    pieces: Vec<TypePiece<'a>>,
}

impl<'a> Model for TypeText<'a> {
    ghost use Rattle.std.specs.Prelude.{List};
    ghost use Rattle.nll_mir_grammar.specs.declared.type_text.TypePiece.{TypePiece as piece};
    ghost use Rattle.nll_mir_grammar.specs.TypeTexts.{IsType};

    ghost Value = { List piece };

    ghost view = { λ text. text.pieces.items };

    ghost invariant = { λ text. IsType text.pieces.items };
}

impl<'a> TypeText<'a> {
    /// The pieces, in the order of the text.
    pub fn pieces(&self) -> &[TypePiece<'a>]
        ensures value { result.now ≡ self.now }
        ensures sound { IsType self.now }
    {
        self.pieces.as_slice()
    }

    /// Whether the type is a function, or a function is written in a part of it.
    ///
    /// # Cost
    /// Linear in the type (not proved).
    pub fn has_function(&self) -> bool
        ensures { result ≡ functions.has_function (written self.now) }
    {
        for piece in self.pieces() {
            if let TypePiece::Function = piece {
                return true;
            }
        }
        false
    }

    // The type of these pieces.
    pub(crate) fn of(pieces: Vec<TypePiece<'a>>) -> TypeText<'a>
        requires { IsType pieces.items }
        ensures { result ≡ pieces.entry.items }
    {
        TypeText { pieces }
    }
}
