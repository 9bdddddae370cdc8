//! Bodies with as many constraints as a problem may have, and with more.
ghost use Rattle.std.specs.Prelude.{◌≤◌};

use super::problem_text::constraints_told;
use std::alloc::{AllocError, Global};

// How many references there are in a tuple of 4,095 nodes.
const REFERENCES: u32 = 2047;

// Writes a line that declares a variable, whose type is a tuple of references: each has a region of
// its own, from this one on.
fn write_tuple(out: &mut String, variable: u32, first: u32) -> Result<(), AllocError>
    requires { first ≤ 2047 }
{
    write!(out, "let _{variable}: (")?;
    for place in 0..REFERENCES {
        let comma = if place == 0 { "" } else { ", " };
        write!(out, "{comma}&'x{} int", first + place)?;
    }
    out.push_str(")\n")
}

// Writes the lines in front of the block: regions, and two variables of such types, which share no
// region.
fn write_head(out: &mut String) -> Result<(), AllocError> {
    out.push_str("nll-mir 1\n")?;
    for number in 0..2 * REFERENCES {
        write!(out, "region 'x{number}\n")?;
    }
    out.push_str("let _0: int\n")?;
    write_tuple(out, 1, 0)?;
    write_tuple(out, 2, REFERENCES)
}

// Writes a text that assigns one of the variables to the other so often. Each assignment asks 2,047
// constraints.
fn write_text(out: &mut String, count: u32) -> Result<(), AllocError> {
    write_head(out)?;
    out.push_str("blocks 1\nblock bb0\n")?;
    for _ in 0..count {
        out.push_str("_1 = copy _2\n")?;
    }
    out.push_str("return\nend\n")
}

// How many constraints the problem of such a text has, or why it has none.
fn told(alloc: Global, count: u32) -> Result<String, AllocError> {
    let mut text = String::new(alloc);
    let written = write_text(&mut text, count);
    let told = constraints_told(alloc, text.as_bytes());
    drop(text);
    written.and(told)
}

// The most constraints that such a text may ask for, and one assignment more.
#[test]
fn constraints_are_limited(rt: HostRuntime) {
    for (count, want) in [
        (512, "1048064 constraints"),
        (513, "more constraints than the limit"),
    ] {
        match told(rt.alloc(), count) {
            Ok(told) => assert!(rt; told.as_str() == want, "{count}: {told}"),
            Err(_) => assert!(rt; false, "{count}: memory"),
        }
    }
}
