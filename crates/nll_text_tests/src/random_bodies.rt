//! Random small bodies: both programs find the same variables live, and the same base elements.
ghost use Rattle.std.specs.Prelude.{◌<◌};

use super::live_text::live_by_both;
use std::alloc::{AllocError, Global};
use std::process::Abort;

// What is declared in front of each body: six variables whose types have regions, drop regions
// and regions that a drop doesn't need.
const DECLARED: &str = "nll-mir 1\nregion 'a\nregion 'b\nregion 'c\nregion 'd\n\
    struct W<'x +> drop (&'x int)\nstruct M<'x + ?> drop (&'x int)\nstruct V<T +>(T, W<'static>)\n\
    let _0: int\nlet _1: &'a int\nlet _2: W<'b>\nlet _3: M<'c>\nlet _4: (W<'a>, &'d int)\n\
    let _5: V<W<'c>>\n";

// A number that looks random.
fn mixed(seed: u32, place: u32) -> u32 {
    let sum = seed.wrapping_mul(2_654_435_761) ^ place.wrapping_mul(2_246_822_519);
    let once = (sum ^ (sum >> 15)).wrapping_mul(3_266_489_917);
    (once ^ (once >> 13)).wrapping_mul(668_265_263) >> 4
}

// The number at a place of a block.
fn number_at(seed: u32, block: u32, place: u32) -> u32 {
    mixed(seed, block.wrapping_mul(16).wrapping_add(place))
}

// Statements, and terminators after them: `#` stands for a variable, `^` and `$` for blocks.
const STATEMENTS: [&str; 12] = [
    "live _#",
    "live _#",
    "dead _#",
    "read _#",
    "read _#",
    "_# = copy _#",
    "_0 = const",
    "_1 = &'a _0",
    "_4.1 = copy _1",
    "_2 = make W<'b>(copy _1)",
    "_1 = copy _4.1",
    "nop",
];

const TERMINATORS: [&str; 10] = [
    "goto bb^",
    "goto bb^",
    "switch copy _0 bb^ bb$",
    "switch copy _0 bb^ bb$",
    "drop _# -> bb^",
    "drop _# -> bb^ unwind bb$",
    "drop _# -> bb^ unwind bb$",
    "_1 = call f(move _2: W<'c>): &'b int -> bb^ unwind bb$",
    "return",
    "stop",
];

// Writes a line of a form, with a variable and two blocks in their places.
fn write_form(
    out: &mut String,
    form: &str,
    variable: u32,
    (first, second): (u32, u32),
) -> Result<(), AllocError> {
    for sign in form.chars() {
        match sign {
            '#' => write!(out, "{variable}")?,
            '^' => write!(out, "{first}")?,
            '$' => write!(out, "{second}")?,
            _ => out.push(sign)?,
        }
    }
    out.push('\n')
}

// Writes the statements of a block, at most four.
fn write_statements(out: &mut String, seed: u32, block: u32) -> Result<(), AllocError> {
    for place in 0..number_at(seed, block, 15) % 5 {
        let number = number_at(seed, block, place);
        let form = STATEMENTS[(number % 12) as usize];
        write_form(out, form, number / 16 % 6, (0, 0))?;
    }
    Ok(())
}

// Writes one of this many blocks.
fn write_block(out: &mut String, seed: u32, blocks: u32, block: u32) -> Result<(), AllocError>
    requires { block < blocks }
{
    write!(out, "block bb{block}\n")?;
    write_statements(out, seed, block)?;
    let number = number_at(seed, block, 14);
    let form = TERMINATORS[(number % 10) as usize];
    let targets = (number / 128 % blocks, number / 1024 % blocks);
    write_form(out, form, number / 16 % 6, targets)
}

// Writes a text of this many blocks.
fn write_body(out: &mut String, seed: u32, blocks: u32) -> Result<(), AllocError> {
    out.push_str(DECLARED)?;
    write!(out, "blocks {blocks}\n")?;
    for block in 0..blocks {
        write_block(out, seed, blocks, block)?;
    }
    out.push_str("end\n")
}

// Both programs report the same about a random body. If an allocation fails, its text lacks the
// end.
fn assert_alike(rt: &impl Abort, alloc: Global, seed: u32, blocks: u32) {
    let mut text = String::new(alloc);
    let _written = write_body(&mut text, seed, blocks);
    let told = live_by_both(alloc, text.as_bytes());
    drop(text);
    match told {
        Ok((told, plain)) => assert!(rt; told == plain, "{seed}: {told} but plainly {plain}"),
        Err(error) => assert!(rt; false, "{seed}: {error}"),
    }
}

// Bodies of one block, which leads to itself or to none, of three blocks and of six.
#[test]
fn random_bodies(rt: HostRuntime) {
    for blocks in [1, 3, 6] {
        for seed in 0..1_000 {
            assert_alike(&rt, rt.alloc(), seed, blocks);
        }
    }
}
