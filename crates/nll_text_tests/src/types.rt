//! How a type is written, and what names mean in it: in the fields of a struct its own ones, which
//! are `'static` and its parameters, and elsewhere all regions that are declared.
use super::line::Line;
use super::mir::Mir;
use super::shapes::{Tokens, copy, is_large, is_taken};
use super::tokens::{Bytes, is, is_among, is_capital, is_region};
use nll_format::TextKind::{Shape, Syntax, TypeSize, Unknown};

// More parts within parts than a type of a short text has.
const DEEPEST: u32 = 10_000;

// Appends the token to a shape if it comes next. Answers whether it does.
fn put_if<'a>(shape: &mut Tokens<'a>, line: &mut Line<'a>, spelled: &str) -> bool {
    let token = line.front();
    let found = line.has(spelled);
    if found {
        let _ = shape.push(token);
    }
    found
}

// Appends the token to a shape; it has to come next.
fn put<'a>(shape: &mut Tokens<'a>, line: &mut Line<'a>, spelled: &str) {
    let found = put_if(shape, line, spelled);
    line.wrong_if(!found, Syntax);
}

// Reads the name of a region, which a shape forgets.
fn put_region<'a>(shape: &mut Tokens<'a>, line: &mut Line<'a>, mir: &Mir<'a>, own: &[Bytes<'a>]) {
    if own.is_empty() {
        mir.regions.known(line);
    } else {
        let name = line.region();
        line.wrong_if(!is_among(own, name), Unknown);
    }
    let _ = shape.push(b"'");
}

// The parameters of the struct of a name, or none of a type parameter, where the name is known.
fn parameters_of<'a>(mir: &Mir<'a>, own: &[Bytes<'a>], name: &[u8]) -> Option<Tokens<'a>> {
    if is_among(own, name) {
        return Some(Vec::new(mir.alloc));
    }
    for declared in mir.structs.as_slice() {
        if declared.name == name {
            return Some(copy(mir.alloc, declared.parameters.as_slice()));
        }
    }
    None
}

// Reads the types of a tuple after its `(`.
#[cycle(types)]
fn put_types<'a>(
    shape: &mut Tokens<'a>,
    line: &mut Line<'a>,
    mir: &Mir<'a>,
    own: &[Bytes<'a>],
    depth: u32,
) {
    if depth == 0 || put_if(shape, line, ")") {
        return;
    }
    for _ in 0..line.left() {
        put_type(shape, line, mir, own, depth - 1);
        if !put_if(shape, line, ",") {
            break;
        }
    }
    put(shape, line, ")");
}

// Reads an argument. Answers whether it is a region.
#[cycle(types)]
fn put_argument<'a>(
    shape: &mut Tokens<'a>,
    line: &mut Line<'a>,
    mir: &Mir<'a>,
    own: &[Bytes<'a>],
    depth: u32,
) -> bool {
    let is_of_region = is_region(line.front());
    if is_of_region {
        put_region(shape, line, mir, own);
    } else if depth > 0 {
        put_type(shape, line, mir, own, depth - 1);
    }
    is_of_region
}

// Reads arguments after `<`, for these parameters.
#[cycle(types)]
fn put_arguments<'a>(
    shape: &mut Tokens<'a>,
    line: &mut Line<'a>,
    mir: &Mir<'a>,
    own: &[Bytes<'a>],
    parameters: &[Bytes<'a>],
    depth: u32,
) {
    let mut count = 0usize;
    for _ in 0..line.left() {
        if depth > 0 {
            let is_of_region = put_argument(shape, line, mir, own, depth - 1);
            line.wrong_if(!is_taken(parameters, count, is_of_region), Shape);
        }
        count = count.saturating_add(1);
        if !put_if(shape, line, ",") {
            break;
        }
    }
    put(shape, line, ">");
    line.wrong_if(count != parameters.len(), Shape);
}

// Reads what follows the name of a type.
#[cycle(types)]
fn put_named<'a>(
    shape: &mut Tokens<'a>,
    line: &mut Line<'a>,
    mir: &Mir<'a>,
    own: &[Bytes<'a>],
    name: Bytes<'a>,
    depth: u32,
) {
    let found = parameters_of(mir, own, name);
    line.wrong_if(!is_capital(name), Syntax);
    line.wrong_if(found.is_none(), Unknown);
    let parameters = found.unwrap_or(Vec::new(mir.alloc));
    if depth > 0 && put_if(shape, line, "<") {
        put_arguments(shape, line, mir, own, parameters.as_slice(), depth - 1);
    } else {
        line.wrong_if(!parameters.is_empty(), Shape);
    }
}

// Reads the types of a function after its `fn`. Its arguments are in a shape between `<` and `)`,
// since `(` is a tuple there.
#[cycle(types)]
fn put_function<'a>(
    shape: &mut Tokens<'a>,
    line: &mut Line<'a>,
    mir: &Mir<'a>,
    own: &[Bytes<'a>],
    depth: u32,
) {
    line.want("(");
    let _ = shape.push(b"<");
    if depth == 0 {
        return;
    }
    put_types(shape, line, mir, own, depth - 1);
    put(shape, line, "->");
    put_type(shape, line, mir, own, depth - 1);
}

// Reads a type and appends its tokens to a shape.
#[cycle(types)]
fn put_type<'a>(
    shape: &mut Tokens<'a>,
    line: &mut Line<'a>,
    mir: &Mir<'a>,
    own: &[Bytes<'a>],
    depth: u32,
) {
    let first = line.take();
    let _ = shape.push(first);
    if depth == 0 {
        line.wrong_if(true, Syntax);
    } else if is(first, "&") {
        put_region(shape, line, mir, own);
        put_if(shape, line, "mut");
        put_type(shape, line, mir, own, depth - 1);
    } else if is(first, "(") {
        put_types(shape, line, mir, own, depth - 1);
    } else if is(first, "fn") && mir.is_second {
        put_function(shape, line, mir, own, depth - 1);
    } else if !is(first, "int") {
        put_named(shape, line, mir, own, first, depth - 1);
    }
}

/// Reads a type outside of structs: its shape.
pub fn read_type<'a>(mir: &Mir<'a>, line: &mut Line<'a>) -> Tokens<'a> {
    let mut shape = Vec::new(mir.alloc);
    put_type(&mut shape, line, mir, &[], DEEPEST);
    line.wrong_if(is_large(shape.as_slice()), TypeSize);
    shape
}

/// Reads the fields of a struct with these own names: their shape as a tuple's.
pub fn read_fields<'a>(mir: &Mir<'a>, line: &mut Line<'a>, own: &[Bytes<'a>]) -> Tokens<'a> {
    let mut shape = Vec::new(mir.alloc);
    put(&mut shape, line, "(");
    put_types(&mut shape, line, mir, own, DEEPEST);
    shape
}
