//! A body that copies a large type without regions again and again: a copy asks nothing, and must
//! not go through the type.
use super::problem_text::constraints_told;
use std::alloc::{AllocError, Global};

// How many parts the large type has besides its first.
const PARTS: u32 = 3_998;

// How many copies there are.
const COPIES: u32 = 100_000;

// Writes the lines in front of the block: a struct, of which a field is large, and a variable of
// it.
fn write_head(out: &mut String) -> Result<(), AllocError> {
    out.push_str("nll-mir 1\nstruct B<T +> ((T")?;
    for _ in 0..PARTS {
        out.push_str(", int")?;
    }
    out.push_str("))\nlet _0: int\nlet _1: B<int>\n")
}

// Writes a text that copies the field so often.
fn write_text(out: &mut String) -> Result<(), AllocError> {
    write_head(out)?;
    out.push_str("blocks 1\nblock bb0\n")?;
    for _ in 0..COPIES {
        out.push_str("_1.0 = copy _1.0\n")?;
    }
    out.push_str("return\nend\n")
}

// How many constraints the problem of such a text has, or why it has none.
fn told(alloc: Global) -> Result<String, AllocError> {
    let mut text = String::new(alloc);
    let written = write_text(&mut text);
    let told = constraints_told(alloc, text.as_bytes());
    drop(text);
    written.and(told)
}

#[test]
fn large_types_without_regions_ask_nothing(rt: HostRuntime) {
    match told(rt.alloc()) {
        Ok(told) => assert!(rt; told.as_str() == "0 constraints", "{told}"),
        Err(_) => assert!(rt; false, "memory"),
    }
}
