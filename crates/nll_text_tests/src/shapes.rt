//! Shapes: types with their regions erased, each as the tokens that it is written with, and `'` in
//! place of each region. Where a type lacks, its shape is no token.
use super::tokens::{Bytes, is, is_region, is_word};
use std::alloc::Global;

/// The tokens of a shape.
pub type Tokens<'a> = Vec<Bytes<'a>>;

/// The most nodes that a type may have.
pub const MOST_NODES: usize = 4_096;

/// The shape of an integer.
pub fn int<'a>(alloc: Global) -> Tokens<'a> {
    let mut shape: Tokens<'a> = Vec::new(alloc);
    let _ = shape.push(b"int");
    shape
}

/// Appends tokens.
pub fn put_all<'a>(shape: &mut Tokens<'a>, tokens: &[Bytes<'a>]) {
    for token in tokens {
        let _ = shape.push(*token);
    }
}

/// A shape of these tokens.
pub fn copy<'a>(alloc: Global, tokens: &[Bytes<'a>]) -> Tokens<'a> {
    let mut shape = Vec::new(alloc);
    put_all(&mut shape, tokens);
    shape
}

/// Whether two shapes are one.
pub fn are_same(shape: &[Bytes<'_>], other: &[Bytes<'_>]) -> bool {
    for at in 0..shape.len() {
        if other.get(at).copied().unwrap_or(b"") != shape[at] {
            return false;
        }
    }
    shape.len() == other.len()
}

// Whether a token stands for a node: a reference, a tuple, an `int`, a struct, a type parameter or
// a function.
fn is_node(token: &[u8]) -> bool {
    is(token, "&") || is(token, "(") || (is_word(token) && !is(token, "mut"))
}

/// Whether a shape has more nodes than a type may have.
pub fn is_large(shape: &[Bytes<'_>]) -> bool {
    let mut nodes = 0usize;
    for token in shape {
        if is_node(token) {
            nodes = nodes.saturating_add(1);
        }
    }
    nodes > MOST_NODES
}

/// The index of a name among the names of parameters, or of structs.
pub fn index_of(names: &[Bytes<'_>], name: &[u8]) -> Option<usize> {
    for at in 0..names.len() {
        if names[at] == name {
            return Some(at);
        }
    }
    None
}

// How deep a token leads from this depth: brackets open and close.
fn depth_behind(depth: u32, token: &[u8]) -> u32 {
    if is(token, "(") || is(token, "<") {
        depth.saturating_add(1)
    } else if is(token, ")") || is(token, ">") {
        depth.saturating_sub(1)
    } else {
        depth
    }
}

/// Where the parts of a tuple, or the arguments of a struct, begin and end among the tokens.
pub fn parts_of(alloc: Global, shape: &[Bytes<'_>]) -> Vec<(usize, usize)> {
    let mut parts = Vec::new(alloc);
    let mut depth = 0u32;
    let mut begin = 0usize;
    for at in 0..shape.len() {
        let before = depth;
        depth = depth_behind(depth, shape[at]);
        let is_opened = before == 0 && depth == 1;
        let is_closed = before == 1 && depth == 0;
        let is_parted = before == 1 && is(shape[at], ",");
        if (is_closed || is_parted) && begin < at {
            let _ = parts.push((begin, at));
        }
        if is_opened || is_parted {
            begin = at + 1;
        }
    }
    parts
}

/// The tokens of a part; none where there is no part.
pub fn part_at<'t, 'a: 't>(
    shape: &'t [Bytes<'a>],
    part: Option<&(usize, usize)>,
) -> &'t [Bytes<'a>] {
    let (begin, end) = part.copied().unwrap_or((0, 0));
    let end = end.min(shape.len());
    let begin = begin.min(end);
    &shape[begin..end]
}

/// A struct: its name, its parameters, regions among them, and its fields as a tuple's shape.
#[derive(Drop)]
pub struct Struct<'a> {
    pub name: Bytes<'a>,
    pub parameters: Tokens<'a>,
    pub fields: Tokens<'a>,
}

// The fields of a struct with the arguments of a use substituted for its type parameters.
fn put_in<'a>(alloc: Global, declared: &Struct<'a>, shape: &[Bytes<'a>]) -> Tokens<'a> {
    let parts = parts_of(alloc, shape);
    let mut fields = Vec::new(alloc);
    for token in declared.fields.as_slice() {
        match index_of(declared.parameters.as_slice(), token) {
            Some(place) => put_all(&mut fields, part_at(shape, parts.get(place))),
            None => put_all(&mut fields, &[*token]),
        }
    }
    fields
}

/// The shape of a tuple, or that of the fields of a struct as a tuple's; none of another type.
pub fn as_tuple<'a>(alloc: Global, structs: &[Struct<'a>], shape: &[Bytes<'a>]) -> Tokens<'a> {
    let first = shape.first().copied().unwrap_or(b"");
    if is(first, "(") {
        return copy(alloc, shape);
    }
    for declared in structs {
        if declared.name == first {
            return put_in(alloc, declared, shape);
        }
    }
    Vec::new(alloc)
}

/// The shape of what a reference points to; none of another type.
pub fn pointed_to<'a>(alloc: Global, shape: &[Bytes<'a>]) -> Tokens<'a> {
    let is_mutable = is(shape.get(2).copied().unwrap_or(b""), "mut");
    let begin = if is_mutable { 3 } else { 2 };
    if is(shape.first().copied().unwrap_or(b""), "&") {
        copy(alloc, shape.get(begin..).unwrap_or(&[]))
    } else {
        Vec::new(alloc)
    }
}

/// The shape of a part of a tuple or struct; none where it has no such part.
pub fn part<'a>(alloc: Global, structs: &[Struct<'a>], shape: &[Bytes<'a>], k: u64) -> Tokens<'a> {
    let tuple = as_tuple(alloc, structs, shape);
    let parts = parts_of(alloc, tuple.as_slice());
    let place = usize::try_from(k).unwrap_or(usize::MAX);
    copy(alloc, part_at(tuple.as_slice(), parts.get(place)))
}

/// The shape of a reference to a shape; none of none.
pub fn reference<'a>(alloc: Global, is_mutable: bool, shape: &[Bytes<'a>]) -> Tokens<'a> {
    let mut made = Vec::new(alloc);
    if !shape.is_empty() {
        put_all(&mut made, &[b"&", b"'"]);
        if is_mutable {
            put_all(&mut made, &[b"mut"]);
        }
        put_all(&mut made, shape);
    }
    made
}

/// Whether a struct takes an argument of this kind (a region, or not one) at this place.
pub fn is_taken(parameters: &[Bytes<'_>], place: usize, is_of_region: bool) -> bool {
    match parameters.get(place) {
        Some(parameter) => is_region(parameter) == is_of_region,
        None => false,
    }
}
