//! Judging statements, a case a form.

ghost use Rattle.std.specs.Prelude.{◌≡◌, ℕ, IfOk, length};
ghost use Rattle.nll_types.specs.Declarations.{structs_of};
ghost use Rattle.nll_types.specs.Rows.{shape_numbers};
ghost use Rattle.nll_types.specs.Table.{AreBelow};
ghost use Rattle.nll_types.specs.Tables.{AddsShapes};
ghost use Rattle.nll_body.specs.Flat.{call_in, make_in, statement_in, switch_in};
ghost use Rattle.nll_body.specs.Judging.{operand_at, path_at};
ghost use Rattle.nll_body.specs.Statements.{assign, borrow, read};
ghost use Rattle.nll_body.specs.Typing.{HasShapes, IsJudgedIn, are_declared};

use crate::flat::{FlatCall, FlatMake, FlatOperand, FlatSwitch, Stmt};
use crate::found::{agree, refers};
use crate::judgement::Judgement;
use crate::meetings::{judge_given, judge_operand};
use crate::operands::{judge_arguments, judge_parts};
use crate::places::{Places, find_operand, find_place};
use nll_sets::Memory;
use nll_types::{Node, TypeTable};
use std::alloc::Global;

// Judges a tuple or struct that is made of operands and goes to a place.
fn judge_make(
    alloc: Global,
    table: &mut TypeTable,
    places: &Places<'_>,
    make: &FlatMake,
) -> Result<Judgement, Memory>
    requires variables { AreBelow (length table.old.shapes)
        (shape_numbers places.now.variables.now) }
    requires written { HasShapes table.old.shapes (make_in places.now.statements.now make.now) }
    ensures grows { AddsShapes table.old table.new }
    ensures declared { IfOk result (λ j. j.declared
        ≡ are_declared places.now (make_in places.now.statements.now make.now)) }
    ensures judged { IfOk result (IsJudgedIn (structs_of table.old.structs) table.old.shapes
        places.now (make_in places.now.statements.now make.now)) }
{
    let operands = places.statements.operands(make.operands);
    let parts = judge_parts(alloc, table, places, operands, make.ty.shape)?;
    let result = judge_given(alloc, table, places, make.ty.shape, make.place)?;
    Ok(parts.and(result))
}

// Judges a call with operands for parameters of types, whose result, of a type, goes to a place.
fn judge_call(
    alloc: Global,
    table: &mut TypeTable,
    places: &Places<'_>,
    call: &FlatCall,
) -> Result<Judgement, Memory>
    requires variables { AreBelow (length table.old.shapes)
        (shape_numbers places.now.variables.now) }
    requires written { HasShapes table.old.shapes (call_in places.now.statements.now call.now) }
    ensures grows { AddsShapes table.old table.new }
    ensures declared { IfOk result (λ j. j.declared
        ≡ are_declared places.now (call_in places.now.statements.now call.now)) }
    ensures judged { IfOk result (IsJudgedIn (structs_of table.old.structs) table.old.shapes
        places.now (call_in places.now.statements.now call.now)) }
{
    let arguments = places.statements.arguments(call.arguments);
    let inputs = judge_arguments(alloc, table, places, arguments)?;
    let result = judge_given(alloc, table, places, call.result.shape, call.place)?;
    Ok(inputs.and(result))
}

// Judges an operand that goes to a place.
fn judge_assign(
    alloc: Global,
    table: &mut TypeTable,
    places: &Places<'_>,
    place: u32,
    operand: FlatOperand,
) -> Result<Judgement, Memory>
    requires variables { AreBelow (length table.old.shapes)
        (shape_numbers places.now.variables.now) }
    ensures grows { AddsShapes table.old table.new }
    ensures declared { IfOk result (λ j. j.declared ≡ are_declared places.now
        (assign (path_at places.now place) (operand_at places.now operand))) }
    ensures judged { IfOk result (IsJudgedIn (structs_of table.old.structs) table.old.shapes
        places.now (assign (path_at places.now place) (operand_at places.now operand))) }
{
    let source = find_operand(alloc, table, places, operand)?;
    let target = find_place(alloc, table, places, place)?;
    Ok(agree(table.shapes(), source, target))
}

// Judges a borrow of a place, for any region, that goes to a place.
fn judge_borrow(
    alloc: Global,
    table: &mut TypeTable,
    places: &Places<'_>,
    mutable: bool,
    place: u32,
    borrowed: u32,
) -> Result<Judgement, Memory>
    requires variables { AreBelow (length table.old.shapes)
        (shape_numbers places.now.variables.now) }
    ensures grows { AddsShapes table.old table.new }
    ensures declared { IfOk result (λ j. (r : ℕ) → j.declared ≡ are_declared places.now
        (borrow (path_at places.now place) r mutable (path_at places.now borrowed))) }
    ensures judged { IfOk result (λ j. (r : ℕ)
        → IsJudgedIn (structs_of table.old.structs) table.old.shapes places.now
        (borrow (path_at places.now place) r mutable (path_at places.now borrowed)) j) }
{
    let source = find_place(alloc, table, places, borrowed)?;
    let target = find_place(alloc, table, places, place)?;
    Ok(refers(table.shapes(), mutable, source, target))
}

// Judges a place that is read.
fn judge_read(
    alloc: Global,
    table: &mut TypeTable,
    places: &Places<'_>,
    place: u32,
) -> Result<Judgement, Memory>
    requires variables { AreBelow (length table.old.shapes)
        (shape_numbers places.now.variables.now) }
    ensures grows { AddsShapes table.old table.new }
    ensures declared { IfOk result (λ j. j.declared
        ≡ are_declared places.now (read (path_at places.now place))) }
    ensures judged { IfOk result (IsJudgedIn (structs_of table.old.structs) table.old.shapes
        places.now (read (path_at places.now place))) }
{
    let found = find_place(alloc, table, places, place)?;
    match found.shape {
        Some(_) => Ok(Judgement::fitting(found.declared, found.small)),
        None => Ok(Judgement::unfit(found.declared)),
    }
}

// Judges a switch.
fn judge_switch(
    alloc: Global,
    table: &mut TypeTable,
    places: &Places<'_>,
    switch: &FlatSwitch,
) -> Result<Judgement, Memory>
    requires variables { AreBelow (length table.old.shapes)
        (shape_numbers places.now.variables.now) }
    ensures grows { AddsShapes table.old table.new }
    ensures declared { IfOk result (λ j. j.declared
        ≡ are_declared places.now (switch_in places.now.statements.now switch.now)) }
    ensures judged { IfOk result (IsJudgedIn (structs_of table.old.structs) table.old.shapes
        places.now (switch_in places.now.statements.now switch.now)) }
{
    let int = table.int()?;
    judge_operand(alloc, table, places, switch.operand, int)
}

/// Judges a statement over variables of these types: its variables, and the types that meet in it.
///
/// # Cost
/// That of a look-up for each projection and each part that is made, once their shapes are in the
/// table (not proved).
pub fn judge_statement(
    alloc: Global,
    table: &mut TypeTable,
    places: &Places<'_>,
    statement: &Stmt,
) -> Result<Judgement, Memory>
    requires variables { AreBelow (length table.old.shapes)
        (shape_numbers places.now.variables.now) }
    requires written { HasShapes table.old.shapes
        (statement_in places.now.statements.now statement.now) }
    ensures grows { AddsShapes table.old table.new }
    ensures declared { IfOk result (λ j. j.declared
        ≡ are_declared places.now (statement_in places.now.statements.now statement.now)) }
    ensures judged { IfOk result (IsJudgedIn (structs_of table.old.structs) table.old.shapes
        places.now (statement_in places.now.statements.now statement.now)) }
{
    match statement {
        Stmt::Assign(place, operand) => judge_assign(alloc, table, places, *place, *operand),
        Stmt::Borrow(mutable, place, _, borrowed) => {
            judge_borrow(alloc, table, places, *mutable, *place, *borrowed)
        }
        Stmt::Make(number) => match places.statements.make(*number) {
            Some(make) => judge_make(alloc, table, places, make),
            None => Ok(Judgement::fitting(true, true)),
        },
        Stmt::Read(place) => judge_read(alloc, table, places, *place),
        Stmt::Switch(number) => match places.statements.switch(*number) {
            Some(switch) => judge_switch(alloc, table, places, switch),
            None => Ok(Judgement::fitting(true, true)),
        },
        Stmt::Call(number) => match places.statements.call(*number) {
            Some(call) => judge_call(alloc, table, places, call),
            None => Ok(Judgement::fitting(true, true)),
        },
        Stmt::Return => {
            let variables = places.variables;
            if variables.is_empty() {
                return Ok(Judgement::fitting(false, true));
            }
            Ok(Judgement::fitting(true, table.shapes().is_small(variables[0].shape)))
        }
        Stmt::Live(variable)
        | Stmt::Dead(variable)
        | Stmt::Drop(variable, _)
        | Stmt::DropUnwind(variable, _, _) => {
            let declared = (*variable as usize) < places.variables.len();
            Ok(Judgement::fitting(declared, true))
        }
        Stmt::Nop | Stmt::Goto(_) | Stmt::Stop => Ok(Judgement::fitting(true, true)),
    }
}
