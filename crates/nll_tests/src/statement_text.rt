//! Statements as text: as they are written, and those of flat lists, over numbers.
use super::transcript::Transcript;
use super::type_text::write_type;
use super::written_types::write_pieces;
use nll_body::{FlatOperand, Slice, StatementAt, Stmt};
use nll_mir_grammar::{Call, Make, Statement, TypeText};
use nll_types::{BodyTypes, Operand, Place, Projection, Typed};

// Writes words, a variable, and what is taken of it.
fn write_path(out: &mut Transcript, before: &str, variable: u32, projections: &[Projection]) {
    out.number(before, variable, "");
    for projection in projections {
        match projection {
            Projection::Deref => out.say(".*"),
            Projection::Field(number) => out.number(".", *number, ""),
        }
    }
}

// Writes words and a place.
fn write_place(out: &mut Transcript, before: &str, place: &Place) {
    write_path(out, before, place.variable(), place.projections());
}

// Writes an operand.
fn write_operand(out: &mut Transcript, operand: &Operand) {
    match operand {
        Operand::Const => out.say("const"),
        Operand::Copy(place) => write_place(out, "copy _", place),
        Operand::Move(place) => write_place(out, "move _", place),
    }
}

// Writes what is made of operands, with a comma after each of them.
fn write_make(out: &mut Transcript, made: &Make<'_>) {
    write_place(out, "_", &made.place);
    out.say(" = make ");
    write_pieces(out, &made.ty);
    for operand in made.operands.as_slice() {
        write_operand(out, operand);
        out.say(",");
    }
}

// Writes where a drop or a call goes on.
fn write_exits(out: &mut Transcript, target: u32, unwind: Option<u32>) {
    out.number(" to ", target, "");
    if let Some(block) = unwind {
        out.number(" or ", block, "");
    }
}

// Writes a drop.
fn write_drop(out: &mut Transcript, variable: u32, target: u32, unwind: Option<u32>) {
    out.number("drop ", variable, "");
    write_exits(out, target, unwind);
}

// Writes the arguments of a call, with a comma after each of them.
fn write_arguments(out: &mut Transcript, arguments: &[(Operand, TypeText<'_>)]) {
    for argument in arguments {
        write_operand(out, &argument.0);
        out.say(": ");
        write_pieces(out, &argument.1);
        out.say(",");
    }
}

// Writes a call: its arguments, its result, and its bounds, two regions each.
fn write_call(out: &mut Transcript, call: &Call<'_>) {
    write_place(out, "_", &call.place);
    out.say(" = call ");
    write_arguments(out, call.arguments.as_slice());
    out.say(": ");
    write_pieces(out, &call.result);
    for bound in call.wheres.as_slice() {
        out.part(" ", bound.0);
        out.part("", bound.1);
    }
    write_exits(out, call.target, call.unwind);
}

/// Writes a statement as it is written.
pub fn write_statement(out: &mut Transcript, statement: &Statement<'_>) {
    match statement {
        Statement::Assign(place, operand) => {
            write_place(out, "_", place);
            out.say(" = ");
            write_operand(out, operand);
        }
        Statement::Borrow(place, region, mutable, source) => {
            write_place(out, "_", place);
            out.part(if *mutable { " = mut " } else { " = & " }, region);
            write_place(out, "_", source);
        }
        Statement::Make(made) => write_make(out, made),
        Statement::Call(call) => write_call(out, call),
        Statement::Read(place) => write_place(out, "read _", place),
        Statement::Live(variable) => out.number("live ", *variable, ""),
        Statement::Dead(variable) => out.number("dead ", *variable, ""),
        Statement::Nop => out.say("nop"),
        Statement::Goto(block) => out.number("goto ", *block, ""),
        Statement::Switch(operand, blocks) => {
            out.say("switch ");
            write_operand(out, operand);
            out.numbers(" ", blocks.as_slice());
        }
        Statement::Drop(variable, target, unwind) => write_drop(out, *variable, *target, *unwind),
        Statement::Return => out.say("return"),
        Statement::Stop => out.say("stop"),
    }
}

/// Writes a type by number, where it is one of these.
pub fn write_typed(out: &mut Transcript, types: &BodyTypes, ty: Typed) {
    if ty.shape < types.table.shapes().len() {
        match types.tree(out.alloc, ty) {
            Ok(ty) => {
                write_type(out, &ty);
                drop(ty);
            }
            Err(_) => out.say("refused"),
        }
    }
}

// Writes words and the place of a number.
fn write_number(out: &mut Transcript, at: StatementAt<'_>, before: &str, place: u32) {
    let variable = at.statements.variable(place);
    write_path(out, before, variable, at.statements.projections(place));
}

// Writes an operand whose place goes by its number.
fn write_flat_operand(out: &mut Transcript, at: StatementAt<'_>, operand: FlatOperand) {
    match operand {
        FlatOperand::Const => out.say("const"),
        FlatOperand::Copy(place) => write_number(out, at, "copy _", place),
        FlatOperand::Move(place) => write_number(out, at, "move _", place),
    }
}

// Writes what is made of operands, with a comma after each of them.
fn write_flat_make(out: &mut Transcript, at: StatementAt<'_>, number: usize) {
    let Some(made) = at.statements.make(number) else {
        return;
    };
    write_number(out, at, "_", made.place);
    out.say(" = make ");
    write_typed(out, at.types, made.ty);
    out.say("|");
    for operand in at.statements.operands(made.operands) {
        write_flat_operand(out, at, *operand);
        out.say(",");
    }
}

// Writes the arguments of a call, with a comma after each of them.
fn write_flat_arguments(out: &mut Transcript, at: StatementAt<'_>, arguments: Slice) {
    for argument in at.statements.arguments(arguments) {
        write_flat_operand(out, at, argument.0);
        out.say(": ");
        write_typed(out, at.types, argument.1);
        out.say("|,");
    }
}

// Writes a call: its arguments, its result, and its bounds, two regions each.
fn write_flat_call(out: &mut Transcript, at: StatementAt<'_>, number: usize) {
    let Some(call) = at.statements.call(number) else {
        return;
    };
    write_number(out, at, "_", call.place);
    out.say(" = call ");
    write_flat_arguments(out, at, call.arguments);
    out.say(": ");
    write_typed(out, at.types, call.result);
    out.say("|");
    for bound in at.statements.pairs(call.wheres) {
        out.number(" ", bound.0.0, "|");
        out.number("", bound.1.0, "|");
    }
    write_exits(out, call.target, call.unwind);
}

// Writes a switch.
fn write_flat_switch(out: &mut Transcript, at: StatementAt<'_>, number: usize) {
    let Some(switch) = at.statements.switch(number) else {
        return;
    };
    out.say("switch ");
    write_flat_operand(out, at, switch.operand);
    out.numbers(" ", at.statements.blocks(switch.blocks));
}

/// Writes a statement of flat lists.
pub fn write_flat(out: &mut Transcript, at: StatementAt<'_>) {
    match at.statement {
        Stmt::Assign(place, operand) => {
            write_number(out, at, "_", *place);
            out.say(" = ");
            write_flat_operand(out, at, *operand);
        }
        Stmt::Borrow(mutable, place, region, source) => {
            write_number(out, at, "_", *place);
            out.number(if *mutable { " = mut " } else { " = & " }, region.0, "|");
            write_number(out, at, "_", *source);
        }
        Stmt::Make(number) => write_flat_make(out, at, *number),
        Stmt::Call(number) => write_flat_call(out, at, *number),
        Stmt::Read(place) => write_number(out, at, "read _", *place),
        Stmt::Live(variable) => out.number("live ", *variable, ""),
        Stmt::Dead(variable) => out.number("dead ", *variable, ""),
        Stmt::Nop => out.say("nop"),
        Stmt::Goto(block) => out.number("goto ", *block, ""),
        Stmt::Switch(number) => write_flat_switch(out, at, *number),
        Stmt::Drop(variable, target) => write_drop(out, *variable, *target, None),
        Stmt::DropUnwind(variable, target, unwind) => {
            write_drop(out, *variable, *target, Some(*unwind))
        }
        Stmt::Return => out.say("return"),
        Stmt::Stop => out.say("stop"),
    }
}
