//! What the names of written types mean.
use super::lines::OfLine;
use super::rows::compare_text;
use super::statement_text::write_typed;
use super::statements;
use super::transcript::Transcript;
use nll_format::Names;
use nll_mir_grammar::{TypeText, type_at};
use nll_mir_text::{Resolving, Scope, resolve};
use nll_types::{BodyTypes, Typed};

// A table of names.
fn names_of(out: &mut Transcript, words: &[&str]) -> Names {
    let mut names = Names::empty(out.alloc);
    for word in words {
        if names.number_of(word.as_bytes()).is_none() {
            out.note(names.add(out.alloc, word.as_bytes()));
        }
    }
    names
}

// Writes whether the names in a type have the arguments that they take, how many nodes the type
// has, and what it is.
fn write_resolved(out: &mut Transcript, types: &BodyTypes, ty: Typed, fits: bool) {
    out.flag("true ", fits, " ");
    if ty.shape < types.table.shapes().len() {
        out.size("", types.table.shapes().size(ty.shape));
        out.say(": ");
    }
    write_typed(out, types, ty);
}

// Writes whether the names in a type are known, and, where they are, what the type is.
fn write_told(out: &mut Transcript, scope: &Scope<'_>, text: &TypeText<'_>) {
    if scope.regions.len() > 100 {
        return;
    }
    let (mut types, mut fits) = (BodyTypes::new(out.alloc), true);
    let mut made = Resolving::new(out.alloc);
    let told = resolve(scope, text, &mut types, &mut made, &mut fits);
    drop(made);
    match told {
        Ok(Some(ty)) => write_resolved(out, &types, ty, fits),
        Ok(None) => out.say("false"),
        Err(_) => out.say("refused"),
    }
    drop(types);
}

// Writes what is reported about the type at the front of a line, where there is one.
fn write_front(out: &mut Transcript, scope: &Scope<'_>, line: &[u8]) {
    match type_at(out.alloc, line) {
        Ok(Some((text, _))) => {
            write_told(out, scope, &text);
            drop(text);
        }
        Ok(None) => out.say("none"),
        Err(_) => out.say("refused"),
    }
}

// The kinds of arguments that the structs of the tests take.
fn kinds(out: &mut Transcript) -> Vec<Vec<bool>> {
    let mut kinds = Vec::new(out.alloc);
    for taken in KINDS {
        if let Ok(taken) = Vec::from_slice(out.alloc, taken) {
            out.note(kinds.push(taken));
        }
    }
    kinds
}

// Writes what is reported about a line over a scope.
fn write_asked(out: &mut Transcript, scope: &Scope<'_>, line: &str, asked: OfLine) {
    match asked {
        OfLine::Names => write_front(out, scope, line.as_bytes()),
        _ => statements::write_asked(out, scope, line.as_bytes(), asked),
    }
}

/// Writes what is reported about a line over the scope of the tests: the regions 'static, 'a and 'b
/// by the numbers 0, 1 and 2, the type parameter T by 0, and the structs W, V, U and T by 0 to 3.
pub fn write_in_scope(out: &mut Transcript, line: &str, asked: OfLine) {
    let regions = names_of(out, &["static", "a", "b"]);
    let parameters = names_of(out, &["T"]);
    let structs = names_of(out, &["W", "V", "U", "T"]);
    let kinds = kinds(out);
    let scope = Scope {
        regions: &regions,
        parameters: &parameters,
        structs: &structs,
        kinds: kinds.as_slice(),
    };
    write_asked(out, &scope, line, asked);
    drop(kinds);
    drop(regions);
    drop(parameters);
    drop(structs);
}

// Which arguments of the structs W, V, U and T are regions.
const KINDS: &[&[bool]] = &[&[true], &[true, false], &[], &[true]];

// Types; whether the names in each are known, and, where they are, whether they have the arguments
// that they take, how many nodes the type has, and what it means.
const TYPES: &str = "
int ~ true true 1: int
&'a mut int ~ true true 2: &1 mut int
&'static int ~ true true 2: &0 int
&'c int ~ false
&'a X ~ false
T ~ true true 1: P0
T<'a> ~ true false 1: P0
W<'b> ~ true true 1: S0< 2 >
W<'c> ~ false
W ~ true false 1: S0< >
W<int> ~ true false 2: S0< int >
W<'a, 'b> ~ true false 1: S0< 1 2 >
V<'b, T> ~ true true 2: S1< 2 P0 >
V<T, 'b> ~ true false 2: S1< 2 P0 >
V<'a, W<'c>> ~ false
V<'a, W> ~ true false 2: S1< 1 S0< > >
U<'a> ~ true false 1: S2< 1 >
() ~ true true 1: ( )
(W<'a>, &'b U) ~ true true 4: ( S0< 1 > &2 S2< > )
(X, W) ~ false
";

// Names are resolved, and mean what they stand for.
#[test]
fn names_have_meanings(rt: HostRuntime) {
    compare_text(&rt, rt.alloc(), OfLine::Names, TYPES);
}
