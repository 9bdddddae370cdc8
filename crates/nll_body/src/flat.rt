//! Statements and terminators as a few numbers, and what their numbers stand for in lists.

use nll_problem::RegionId;
use nll_types::Typed;
use std::mem::size_of;

/// A part of a list: where it begins, and how many items it has.
#[derive(Clone, Copy)]
pub struct Slice {
    pub first: usize,
    pub count: usize,
}

/// What projections take of a variable: a place that isn't the whole of one.
#[derive(Clone, Copy)]
pub struct PartPlace {
    pub variable: u32,
    pub projections: Slice,
}

/// An operand. Its place goes by its number.
#[derive(Clone, Copy)]
pub enum FlatOperand {
    /// A constant, an `int`.
    Const,
    /// A place whose value is copied.
    Copy(u32),
    /// A place whose value is moved out of it.
    Move(u32),
}

/// A tuple or struct of a type, made of operands, which goes to a place.
#[derive(Clone, Copy)]
pub struct FlatMake {
    pub place: u32,
    pub ty: Typed,
    pub operands: Slice,
}

/// A call of a function, whose result goes to a place.
#[derive(Clone, Copy)]
pub struct FlatCall {
    pub place: u32,
    pub arguments: Slice,
    pub result: Typed,
    /// Of each pair the first region must outlive the second.
    pub wheres: Slice,
    /// The block to which the call returns.
    pub target: u32,
    /// The block to which it goes on where it unwinds.
    pub unwind: Option<u32>,
}

/// A switch on an operand.
#[derive(Clone, Copy)]
pub struct FlatSwitch {
    pub operand: FlatOperand,
    pub blocks: Slice,
}

/// A statement or a terminator of a body, in 16 bytes. Variables and blocks go by their numbers,
/// and so do places: the number of a whole variable is that of the variable. What needs more room
/// goes by its number in a list of `Statements`.
#[derive(Clone, Copy)]
pub enum Stmt {
    /// `PLACE = OP`
    Assign(u32, FlatOperand),
    /// `PLACE = &'r PLACE`, or `&'r mut PLACE` where the first is true.
    Borrow(bool, u32, RegionId, u32),
    /// `PLACE = make TYPE (OP, ..)`
    Make(usize),
    /// `read PLACE`
    Read(u32),
    /// `live VAR`: the variable's storage begins.
    Live(u32),
    /// `dead VAR`: the variable's storage ends.
    Dead(u32),
    /// `nop`
    Nop,
    /// `goto BB`
    Goto(u32),
    /// `switch OP BB ..`
    Switch(usize),
    /// `drop VAR -> BB`
    Drop(u32, u32),
    /// `drop VAR -> BB unwind BB`
    DropUnwind(u32, u32, u32),
    /// `PLACE = call WORD (OP: TYPE, ..): TYPE where 'a: 'b, .. -> BB`, possibly with `unwind BB`.
    Call(usize),
    /// `return`
    Return,
    /// `stop`
    Stop,
}

const _: () = prove!(size_of::<Stmt>() == 16);
