//! Statements of lines in flat lists, over the numbers that the names in them stand for.
ghost use Rattle.std.specs.Prelude.{◌+◌, ◌≤◌};

use nll_body::{FlatCall, Slice, Statements, Stmt};
use nll_core::RegionId;
use nll_mir_grammar::{Call, Line, Statement, TypeText, Version, line_of};
use nll_mir_text::{Resolving, Scope, resolve};
use nll_types::{BodyTypes, Operand, Typed};
use std::alloc::Global;

// The region of a name, or 99 where the scope has none of that name.
fn region_of(scope: &Scope<'_>, name: &[u8]) -> RegionId {
    RegionId(scope.regions.number_of(name).unwrap_or(99).min(99) as u32)
}

// The type that a written type means, where each name in it is known.
fn type_of(
    alloc: Global,
    scope: &Scope<'_>,
    types: &mut BodyTypes,
    text: &TypeText<'_>,
) -> Option<Typed> {
    if scope.regions.len() > 100 {
        return None;
    }
    let (mut made, mut fits) = (Resolving::new(alloc), true);
    let told = resolve(scope, text, types, &mut made, &mut fits).ok();
    drop(made);
    told?
}

// The part of a list that begins here, and ends where the list does.
fn slice_to(first: usize, end: usize) -> Slice
    ensures { result.first + result.count ≤ end }
{
    let first = first.min(end);
    let count = end - first;
    Slice { first, count }
}

// Adds the arguments of a call, where the names in their types are known.
fn add_arguments(
    alloc: Global,
    scope: &Scope<'_>,
    types: &mut BodyTypes,
    statements: &mut Statements,
    arguments: &[(Operand, TypeText<'_>)],
) -> Option<()> {
    for argument in arguments {
        let ty = type_of(alloc, scope, types, &argument.1)?;
        statements.add_argument(&argument.0, ty).ok()?;
    }
    Some(())
}

// Adds the bounds of a call.
fn add_bounds(
    scope: &Scope<'_>,
    statements: &mut Statements,
    bounds: &[(&[u8], &[u8])],
) -> Option<()> {
    for bound in bounds {
        let pair = (region_of(scope, bound.0), region_of(scope, bound.1));
        statements.add_pair(pair).ok()?;
    }
    Some(())
}

// Adds a call at the next point, where the names in its types are known.
fn add_call(
    alloc: Global,
    scope: &Scope<'_>,
    types: &mut BodyTypes,
    statements: &mut Statements,
    call: &Call<'_>,
) -> Option<()> {
    let (argument, pair) = statements.call_counts();
    add_arguments(alloc, scope, types, statements, call.arguments.as_slice())?;
    add_bounds(scope, statements, call.wheres.as_slice())?;
    let result = type_of(alloc, scope, types, &call.result)?;
    let place = statements.add_place(&call.place).ok()?;
    let (arguments, pairs) = statements.call_counts();
    let flat = FlatCall {
        place,
        arguments: slice_to(argument, arguments),
        result,
        wheres: slice_to(pair, pairs),
        target: call.target,
        unwind: call.unwind,
    };
    let added = statements.add_call(flat).ok()?;
    statements.push(added).ok()
}

// Adds a statement at the next point, where the names in its types are known.
fn add_statement(
    alloc: Global,
    scope: &Scope<'_>,
    types: &mut BodyTypes,
    statements: &mut Statements,
    statement: &Statement<'_>,
) -> Option<()> {
    let added = match statement {
        Statement::Assign(target, operand) => statements.add_assign(target, operand).ok()?,
        Statement::Borrow(target, region, mutable, source) => {
            let region = region_of(scope, region);
            statements
                .add_borrow(target, region, *mutable, source)
                .ok()?
        }
        Statement::Make(made) => {
            let ty = type_of(alloc, scope, types, &made.ty)?;
            statements
                .add_make(&made.place, ty, made.operands.as_slice())
                .ok()?
        }
        Statement::Read(source) => Stmt::Read(statements.add_place(source).ok()?),
        Statement::Live(variable) => Stmt::Live(*variable),
        Statement::Dead(variable) => Stmt::Dead(*variable),
        Statement::Nop => Stmt::Nop,
        Statement::Goto(block) => Stmt::Goto(*block),
        Statement::Switch(operand, blocks) => {
            statements.add_switch(operand, blocks.as_slice()).ok()?
        }
        Statement::Drop(variable, block, None) => Stmt::Drop(*variable, *block),
        Statement::Drop(variable, block, Some(unwind)) => {
            Stmt::DropUnwind(*variable, *block, *unwind)
        }
        Statement::Call(call) => return add_call(alloc, scope, types, statements, call),
        Statement::Return => Stmt::Return,
        Statement::Stop => Stmt::Stop,
    };
    statements.push(added).ok()
}

/// Adds the statement that is written in a line at the next point, where the names in its types are
/// known.
pub fn add_line(
    alloc: Global,
    scope: &Scope<'_>,
    types: &mut BodyTypes,
    statements: &mut Statements,
    line: &[u8],
) -> Option<()> {
    match line_of(alloc, Version::Second, line) {
        Ok(Some(Line::At(statement))) => {
            let added = add_statement(alloc, scope, types, statements, &statement);
            drop(statement);
            added
        }
        _ => None,
    }
}
