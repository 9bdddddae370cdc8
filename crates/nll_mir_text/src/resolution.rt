//! Resolving the names in a statement, once each, into the body's flat lists: regions and types
//! become numbers.

ghost use Rattle.std.specs.Prelude.{◌≡◌, ◌<◌, ◌^◌, ◌&&◌, List, length, map};
ghost use Rattle.std.specs.Prelude.{IfOk, MatchOption, true, false};
ghost use Rattle.std.specs.List.{list_all};
ghost use Rattle.nll_format.specs.Names.{number_of};
ghost use Rattle.nll_mir_grammar.specs.Lines.{call_of, statement_of};
ghost use Rattle.nll_mir_grammar.specs.TypeTexts.{written};
ghost use Rattle.nll_types.specs.Grown.{AddsTypes};
ghost use Rattle.nll_types.specs.Operands.{Operand as Used};
ghost use Rattle.nll_types.specs.declared.typed.Typed.{Typed as Numbered};
ghost use Rattle.nll_body.specs.Within.{AreFlatArguments, ListsGrow, IsListedSlice};
ghost use Rattle.nll_mir_text.specs.Naming.{has_arguments, is_name_among, is_known};
ghost use Rattle.nll_mir_text.specs.Resolution.{HasRoom, scope_of};
ghost use Rattle.nll_mir_text.specs.ResolvedStatements.{is_bound, bound_numbers};
ghost use Rattle.nll_mir_text.specs.ResolvedStatements.{AreOfArguments, FitOf, MadeOf};

use crate::scope::Scope;
use crate::type_resolution::{Resolving, resolve};
use nll_body::{FlatCall, Slice, Statements, Stmt};
use nll_format::Names;
use nll_mir_grammar::{Call, Statement, TypeText};
use nll_problem::RegionId;
use nll_sets::Memory;
use nll_types::{BodyTypes, Operand};

// The number of a region, where its name is declared.
fn resolve_region(names: &Names, name: &[u8]) -> Option<RegionId>
    requires { length names.now < 2 ^ 32 }
    ensures { MatchOption result (is_name_among names.now name.now ≡ false)
        (λ r. (is_name_among names.now name.now ≡ true) × (r ≡ number_of names.now name.now)) }
{
    match names.number_of(name) {
        Some(number) => Some(RegionId(number as u32)),
        None => None,
    }
}

// Adds the numbers of bounds' regions, where all names are declared.
fn resolve_bounds(
    names: &Names,
    bounds: &[(&[u8], &[u8])],
    statements: &mut Statements,
) -> Result<Option<Slice>, Memory>
    requires { length names.now < 2 ^ 32 }
    ensures grows { ListsGrow statements.old statements.new }
    ensures made { IfOk result (λ o. MatchOption o
        (list_all (is_bound names.now) bounds.now ≡ false)
        (λ s. (list_all (is_bound names.now) bounds.now ≡ true)
        × IsListedSlice statements.new.pairs (map (bound_numbers names.now) bounds.now) s)) }
{
    let slice = Slice {
        first: statements.call_counts().1,
        count: bounds.len(),
    };
    for bound in bounds {
        let Some(longer) = resolve_region(names, bound.0) else {
            return Ok(None);
        };
        let Some(shorter) = resolve_region(names, bound.1) else {
            return Ok(None);
        };
        statements.add_pair((longer, shorter))?;
    }
    Ok(Some(slice))
}

// Adds the arguments of a call, where all names in their types are declared.
fn resolve_arguments(
    scope: &Scope<'_>,
    arguments: &[(Operand, TypeText<'_>)],
    types: &mut BodyTypes,
    statements: &mut Statements,
    made: &mut Resolving,
    fits: &mut bool,
) -> Result<Option<Slice>, Memory>
    requires { HasRoom scope.now }
    ensures adds { IfOk result (λ _. AddsTypes types.old types.new) }
    ensures grows { ListsGrow statements.old statements.new }
    ensures made { IfOk result (λ o. MatchOption o
        (list_all (λ a. is_known (scope_of scope.now) (written a.1)) arguments.now ≡ false)
        (λ s. (args : List (Used × Numbered))
        × AreOfArguments (scope_of scope.now) arguments.now types.new args
        × AreFlatArguments statements.new args s × (fits.new ≡ (fits.old
        && list_all (λ a. has_arguments (scope_of scope.now) (written a.1)) arguments.now)))) }
{
    let slice = Slice {
        first: statements.call_counts().0,
        count: arguments.len(),
    };
    for argument in arguments {
        match resolve(scope, &argument.1, types, made, fits)? {
            Some(ty) => statements.add_argument(&argument.0, ty)?,
            None => return Ok(None),
        }
    }
    Ok(Some(slice))
}

// Adds a call, where its names are declared.
fn resolve_call(
    scope: &Scope<'_>,
    call: &Call<'_>,
    types: &mut BodyTypes,
    statements: &mut Statements,
    made: &mut Resolving,
    fits: &mut bool,
) -> Result<Option<Stmt>, Memory>
    requires { HasRoom scope.now }
    ensures adds { IfOk result (λ _. AddsTypes types.old types.new) }
    ensures grows { ListsGrow statements.old statements.new }
    ensures made { IfOk result (λ o. MadeOf (scope_of scope.now) (call_of call.now)
        types.new statements.new o) }
    ensures fits { IfOk result
        (λ o. FitOf (scope_of scope.now) (call_of call.now) fits.old fits.new o) }
{
    let place = statements.add_place(&call.place)?;
    let Some(wheres) = resolve_bounds(scope.regions, call.wheres.as_slice(), statements)? else {
        return Ok(None);
    };
    let inputs = call.arguments.as_slice();
    let Some(arguments) = resolve_arguments(scope, inputs, types, statements, made, fits)? else {
        return Ok(None);
    };
    let Some(result) = resolve(scope, &call.result, types, made, fits)? else {
        return Ok(None);
    };
    let made = FlatCall {
        place,
        arguments,
        result,
        wheres,
        target: call.target,
        unwind: call.unwind,
    };
    Ok(Some(statements.add_call(made)?))
}

/// Adds what a statement consists of to the lists, where each name in it is declared. Each name is
/// looked up once. The flag stays true where each name in its types has arguments of the kinds that
/// it takes.
pub fn resolve_statement(
    scope: &Scope<'_>,
    statement: &Statement<'_>,
    types: &mut BodyTypes,
    statements: &mut Statements,
    made: &mut Resolving,
    fits: &mut bool,
) -> Result<Option<Stmt>, Memory>
    requires { HasRoom scope.now }
    ensures adds { IfOk result (λ _. AddsTypes types.old types.new) }
    ensures grows { ListsGrow statements.old statements.new }
    ensures made { IfOk result (λ o. MadeOf (scope_of scope.now) (statement_of statement.now)
        types.new statements.new o) }
    ensures fits { IfOk result
        (λ o. FitOf (scope_of scope.now) (statement_of statement.now) fits.old fits.new o) }
{
    let made = match statement {
        Statement::Assign(target, operand) => statements.add_assign(target, operand)?,
        Statement::Borrow(target, region, mutable, source) => {
            let Some(region) = resolve_region(scope.regions, region) else {
                return Ok(None);
            };
            statements.add_borrow(target, region, *mutable, source)?
        }
        Statement::Make(make) => {
            let Some(ty) = resolve(scope, &make.ty, types, made, fits)? else {
                return Ok(None);
            };
            let operands = make.operands.as_slice();
            return Ok(Some(statements.add_make(&make.place, ty, operands)?));
        }
        Statement::Read(source) => Stmt::Read(statements.add_place(source)?),
        Statement::Live(variable) => Stmt::Live(*variable),
        Statement::Dead(variable) => Stmt::Dead(*variable),
        Statement::Nop => Stmt::Nop,
        Statement::Goto(block) => Stmt::Goto(*block),
        Statement::Switch(operand, blocks) => statements.add_switch(operand, blocks.as_slice())?,
        Statement::Drop(variable, block, None) => Stmt::Drop(*variable, *block),
        Statement::Drop(variable, block, Some(unwind)) => {
            Stmt::DropUnwind(*variable, *block, *unwind)
        }
        Statement::Call(call) => return resolve_call(scope, call, types, statements, made, fits),
        Statement::Return => Stmt::Return,
        Statement::Stop => Stmt::Stop,
    };
    Ok(Some(made))
}
