//! Statements over numbers: what is written in them, and what they do.
use super::lines::OfLine;
use super::rows::compare_text;
use super::statement_names::add_line;
use super::statement_text::write_flat;
use super::transcript::Transcript;
use nll_body::{StatementAt, Statements};
use nll_mir_text::Scope;
use nll_types::BodyTypes;

// Writes the variables that a statement uses, that which it defines, and that which it drops.
fn write_variables(out: &mut Transcript, at: StatementAt<'_>) {
    let mut used = Vec::new(out.alloc);
    out.note(at.statements.uses(at.statement, &mut used));
    out.numbers("", used.as_slice());
    drop(used);
    out.option(" ", at.statements.defines(at.statement));
    out.option(" ", at.statements.drops(at.statement));
}

// Writes the blocks to which a statement goes on.
fn write_targets(out: &mut Transcript, at: StatementAt<'_>) {
    let mut blocks = Vec::new(out.alloc);
    out.note(at.statements.targets(at.statement, &mut blocks));
    out.numbers(" ", blocks.as_slice());
    drop(blocks);
}

// Writes how many edges leave the point of a statement, and whether the block ends with it.
fn write_exits(out: &mut Transcript, at: StatementAt<'_>) {
    match at.statements.exits(out.alloc, at.statement) {
        Ok(exits) => {
            out.size("", exits.edges);
            out.say(if exits.ends { " ends" } else { "" });
        }
        Err(_) => out.say("refused"),
    }
}

// Writes what a statement does: what it uses, defines and drops, where it goes on, if that is
// asked, and whether the block ends with it.
fn write_effects(out: &mut Transcript, at: StatementAt<'_>, goes_on: bool) {
    write_variables(out, at);
    if goes_on {
        write_targets(out, at);
    }
    out.flag(" ", at.statements.is_terminator(at.statement), "");
}

// Writes what is asked of a statement.
fn write_told(out: &mut Transcript, at: StatementAt<'_>, asked: OfLine) {
    match asked {
        OfLine::Exits => write_exits(out, at),
        OfLine::Effects => write_effects(out, at, true),
        _ => {
            write_flat(out, at);
            out.say(" ");
            write_effects(out, at, false);
        }
    }
}

// Writes what is asked of the last of these statements.
fn write_last(out: &mut Transcript, types: &BodyTypes, statements: &Statements, asked: OfLine) {
    match statements.len().checked_sub(1) {
        Some(last) => {
            let statement = statements.at(last);
            let at = StatementAt {
                statement,
                statements,
                types,
            };
            write_told(out, at, asked);
        }
        None => out.say("no statement"),
    }
}

/// Writes what is asked of the statement of a line. In the lists it comes twice, so that it has
/// other numbers there than the first of each kind.
pub fn write_asked(out: &mut Transcript, scope: &Scope<'_>, line: &[u8], asked: OfLine) {
    let mut types = BodyTypes::new(out.alloc);
    let mut statements = Statements::new(out.alloc);
    let _ = add_line(out.alloc, scope, &mut types, &mut statements, line);
    let _ = add_line(out.alloc, scope, &mut types, &mut statements, line);
    write_last(out, &types, &statements, asked);
    drop(statements);
    drop(types);
}

// Statements and terminators. Of each, the statement over numbers; then the variables that it
// uses, that which it defines, that which it drops, and whether the block ends with it.
const STATEMENTS: &str = "
_3 = const ~ _3 = const [] Some(3) None false
_3.0 = const ~ _3.0 = const [3] None None false
_0 = move _0 ~ _0 = move _0 [0] Some(0) None false
_3 = copy _1.*.2.* ~ _3 = copy _1.*.2.* [1] Some(3) None false
_3.* = copy _1 ~ _3.* = copy _1 [1, 3] None None false
_3.*.2 = move _1.* ~ _3.*.2 = move _1.* [1, 3] None None false
_3.0.1.*.4 = move _999999999.7 ~ _3.0.1.*.4 = move _999999999.7 [999999999, 3] None None false
_3 = &'a _1 ~ _3 = & 1|_1 [1] Some(3) None false
_3 = &'b mut _1.0 ~ _3 = mut 2|_1.0 [1] Some(3) None false
_3.* = &'static mut _1.*.2 ~ _3.* = mut 0|_1.*.2 [1, 3] None None false
_3.0.* = &'b _2.* ~ _3.0.* = & 2|_2.* [2, 3] None None false
read _3 ~ read _3 [3] None None false
read _3.* ~ read _3.* [3] None None false
read _3.*.1.0 ~ read _3.*.1.0 [3] None None false
live _1 ~ live 1 [] Some(1) None false
dead _0 ~ dead 0 [] Some(0) None false
nop ~ nop [] None None false
goto bb0 ~ goto 0 [] None None true
goto bb999999999 ~ goto 999999999 [] None None true
switch move _1 bb0 ~ switch move _1 [0] [1] None None true
switch copy _2.*.3 bb2 bb1 ~ switch copy _2.*.3 [2, 1] [2] None None true
switch const bb3 bb3 bb5 ~ switch const [3, 3, 5] [] None None true
drop _1 -> bb2 ~ drop 1 to 2 [] None Some(1) true
drop _1 -> bb2 unwind bb3 ~ drop 1 to 2 or 3 [] None Some(1) true
return ~ return [0] None None true
stop ~ stop [] None None true
end ~ no statement
";

// Like the rows above, for tuples and structs that are made.
const MADE: &str = "
_4 = make () () ~ _4 = make ( )| [] Some(4) None false
_4.0 = make (int, &'a mut &'b T) (const, move _2) \
~ _4.0 = make ( int &1 mut &2 P0 )|const,move _2, [2, 4] None None false
_4 = make ((), (int, (T)), ()) (copy _1, move _2.*.0, const) \
~ _4 = make ( ( ) ( int ( P0 ) ) ( ) )|copy _1,move _2.*.0,const, [1, 2] Some(4) None false
_4 = make U () ~ _4 = make S2< >| [] Some(4) None false
_4 = make W<'a> (copy _5) ~ _4 = make S0< 1 >|copy _5, [5] Some(4) None false
_4.*.1 = make V<T, 'b, &'a U, 'static, (int)> (copy _1.0.1, copy _1.0) \
~ _4.*.1 = make S1< 2 0 P0 &1 S2< > ( int ) >|copy _1.0.1,copy _1.0, [1, 1, 4] None None false
_4 = make W<V<'b, W<'a>>, 'b> (const) \
~ _4 = make S0< 2 S1< 2 S0< 1 > > >|const, [] Some(4) None false
_4 = make (fn(&'a int, U) -> W<'b>, fn() -> ()) (move _1, move _2) \
~ _4 = make ( fn( &1 int S2< > ) S0< 2 > fn( ) ( ) )|move _1,move _2, [1, 2] Some(4) None false
_4 = make (X) (const) ~ no statement
";

// Like the rows above, for calls.
const CALLS: &str = "
_2 = call f(): int -> bb1 ~ _2 = call : int| to 1 [] Some(2) None true
_2 = call f(const: int): () where 'b: 'b -> bb5 \
~ _2 = call const: int|,: ( )| 2|2| to 5 [] Some(2) None true
_2.0 = call f(copy _1: &'a int, const: int, move _3.*.0: (T, U)): V<'a, int> \
where 'a: 'b, 'static: 'a -> bb1 unwind bb4 \
~ _2.0 = call copy _1: &1 int|,const: int|,move _3.*.0: ( P0 S2< > )|,: S1< 1 int >| \
1|2| 0|1| to 1 or 4 [1, 3, 2] None None true
_2 = call f(move _1: fn(int) -> &'b T): fn() -> int -> bb1 unwind bb0 \
~ _2 = call move _1: fn( int ) &2 P0|,: fn( ) int| to 1 or 0 [1] Some(2) None true
";

// Statements and terminators; and the variables that each uses, that which it defines, that which
// it drops, the blocks to which it goes on, and whether the block ends with it.
const EFFECTS: &str = "
_3 = &'foo _1 ~ [1] Some(3) None [] false
switch copy _2 bb1 bb2 ~ [2] None None [1, 2] true
read _3.* ~ [3] None None [] false
goto bb2 ~ [] None None [2] true
return ~ [0] None None [] true
_2 = &'r _1.*.* ~ [1] Some(2) None [] false
nop ~ [] None None [] false
drop _1 -> bb1 ~ [] None Some(1) [1] true
_2 = move _1 ~ [1] Some(2) None [] false
_0 = copy _1 ~ [1] Some(0) None [] false
_2 = call f(copy _1: &'a int): &'a int -> bb1 ~ [1] Some(2) None [1] true
_1 = const ~ [] Some(1) None [] false
_1.0 = const ~ [1] None None [] false
_1.* = copy _2.0 ~ [2, 1] None None [] false
_1.0 = &'a mut _2.* ~ [2, 1] None None [] false
_4 = make (int, int) (const, move _2) ~ [2] Some(4) None [] false
_4.1 = make () () ~ [4] None None [] false
live _5 ~ [] Some(5) None [] false
dead _5 ~ [] Some(5) None [] false
switch const bb3 bb3 ~ [] None None [3, 3] true
drop _1 -> bb1 unwind bb2 ~ [] None Some(1) [1, 2] true
_2.0 = call f(copy _1: int, const: int, move _3: int): int -> bb1 unwind bb0 \
~ [1, 3, 2] None None [1, 0] true
stop ~ [] None None [] true
end ~ no statement
";

// Statements and terminators; and how many edges leave the point of each, and whether the block
// ends with it.
const EXITS: &str = "
_1 = const ~ 1
_1 = move _3.1 ~ 1
_2 = &'r mut _1.* ~ 1
_3 = make (int, int)(copy _1, const) ~ 1
read _4.0 ~ 1
live _4 ~ 1
dead _4 ~ 1
nop ~ 1
goto bb0 ~ 1 ends
switch const bb1 ~ 1 ends
switch const bb3 bb3 ~ 1 ends
switch copy _1 bb2 bb1 ~ 2 ends
switch copy _1 bb1 bb0 bb1 ~ 2 ends
switch move _1 bb3 bb1 bb0 bb2 ~ 4 ends
drop _4 -> bb1 ~ 1 ends
drop _4 -> bb1 unwind bb0 ~ 2 ends
drop _4 -> bb1 unwind bb1 ~ 1 ends
_2 = call f(): int where 'a: 'b -> bb1 ~ 1 ends
_4.0 = call f(copy _1: int, move _3.0: int): int -> bb1 unwind bb0 ~ 2 ends
_4 = call f(): int -> bb1 unwind bb1 ~ 1 ends
return ~ 0 ends
stop ~ 0 ends
end ~ no statement
";

// Each kind of statement is resolved as it is written, and does what it should. Each block to which
// a statement goes on is one edge.
#[test]
fn statements_are_resolved(rt: HostRuntime) {
    compare_text(&rt, rt.alloc(), OfLine::Resolved, STATEMENTS);
    compare_text(&rt, rt.alloc(), OfLine::Resolved, MADE);
    compare_text(&rt, rt.alloc(), OfLine::Resolved, CALLS);
    compare_text(&rt, rt.alloc(), OfLine::Effects, EFFECTS);
    compare_text(&rt, rt.alloc(), OfLine::Exits, EXITS);
}
