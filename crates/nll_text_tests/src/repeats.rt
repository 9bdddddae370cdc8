//! A body that copies fields with many references of one region again and again, and makes structs
//! of them, between variables of two types. If what each line asks were computed anew, the test
//! would run out of time.

use super::problem_text::constraints_told;
use std::alloc::{AllocError, Global};

// How many references the field has besides its first.
const FURTHER: u32 = 2_046;

// How many variables there are of each type.
const VARIABLES: u32 = 500;

// How many copies there are, and as many structs that are made.
const COPIES: u32 = 200_000;

// Writes the declaration of a struct with a field of references.
fn write_struct(out: &mut String) -> Result<(), AllocError> {
    out.push_str("struct S<'x +> ((&'x int")?;
    for _ in 0..FURTHER {
        out.push_str(", &'x int")?;
    }
    out.push_str("))\n")
}

// Writes the declarations of variables from a number on.
fn write_variables(out: &mut String, first: u32, ty: &str) -> Result<(), AllocError> {
    for number in first..first.saturating_add(VARIABLES) {
        write!(out, "let _{number}: {ty}\n")?;
    }
    Ok(())
}

// Writes the lines in front of the block.
fn write_head(out: &mut String) -> Result<(), AllocError> {
    out.push_str("nll-mir 1\nregion 'a\nregion 'b\nregion 'c\n")?;
    write_struct(out)?;
    out.push_str("let _0: int\n")?;
    write_variables(out, 1, "S<'a>")?;
    write_variables(out, 1 + VARIABLES, "S<'b>")
}

// Writes a copy of a field and a struct that is made of it, for two variables that come together
// in no other lines.
fn write_lines(out: &mut String, number: u32) -> Result<(), AllocError> {
    let to = 1 + number % VARIABLES;
    let from = 1 + VARIABLES + number / VARIABLES;
    write!(out, "_{to}.0 = copy _{from}.0\n")?;
    write!(out, "_{to} = make S<'c>(copy _{from}.0)\n")?;
    Ok(())
}

// Writes a text of this many such lines.
fn write_text(out: &mut String) -> Result<(), AllocError> {
    write_head(out)?;
    out.push_str("blocks 1\nblock bb0\n")?;
    for number in 0..COPIES {
        write_lines(out, number)?;
    }
    out.push_str("return\nend\n")
}

// How many constraints the problem of such a text has, or why it has none.
fn told(alloc: Global) -> Result<String, AllocError> {
    let mut text = String::new(alloc);
    let written = write_text(&mut text);
    let told = constraints_told(alloc, text.as_bytes());
    drop(text);
    written.and(told)
}

// A copy asks one pair, and a struct that is made two: that of the field, and its own.
#[test]
fn statements_that_are_alike_ask_the_same(rt: HostRuntime) {
    match told(rt.alloc()) {
        Ok(told) => assert!(rt; told.as_str() == "600000 constraints", "{told}"),
        Err(_) => assert!(rt; false, "memory"),
    }
}
