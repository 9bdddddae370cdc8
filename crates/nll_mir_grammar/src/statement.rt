//! A statement or terminator as it is written.

use crate::type_text::TypeText;
use nll_types::{Operand, Place};

/// A tuple or struct of a type, made of operands, which goes to a place.
#[derive(Drop)]
pub struct Make<'a> {
    pub place: Place,
    pub ty: TypeText<'a>,
    pub operands: Vec<Operand>,
}

/// A call of a function, whose result goes to a place.
#[derive(Drop)]
pub struct Call<'a> {
    pub place: Place,
    /// Each operand, and the type of the parameter that it is for.
    pub arguments: Vec<(Operand, TypeText<'a>)>,
    pub result: TypeText<'a>,
    /// Of each pair the first region must outlive the second.
    pub wheres: Vec<(&'a [u8], &'a [u8])>,
    /// The block to which the call returns.
    pub target: u32,
    /// The block to which it goes on where it unwinds.
    pub unwind: Option<u32>,
}

/// A statement or a terminator as it is written. Names lie in the text; variables and blocks go by
/// their numbers.
#[derive(Drop)]
pub enum Statement<'a> {
    /// `PLACE = OP`
    Assign(Place, Operand),
    /// `PLACE = &'r PLACE`, or `&'r mut PLACE` where the third is true.
    Borrow(Place, &'a [u8], bool, Place),
    /// `PLACE = make TYPE (OP, ..)`
    Make(Box<Make<'a>>),
    /// `read PLACE`
    Read(Place),
    /// `live VAR`: the variable's storage begins.
    Live(u32),
    /// `dead VAR`: the variable's storage ends.
    Dead(u32),
    /// `nop`
    Nop,
    /// `goto BB`
    Goto(u32),
    /// `switch OP BB ..`
    Switch(Operand, Vec<u32>),
    /// `drop VAR -> BB`, possibly with `unwind BB`.
    Drop(u32, u32, Option<u32>),
    /// `PLACE = call WORD (OP: TYPE, ..): TYPE where 'a: 'b, .. -> BB`, possibly with `unwind BB`.
    Call(Box<Call<'a>>),
    /// `return`
    Return,
    /// `stop`
    Stop,
}
