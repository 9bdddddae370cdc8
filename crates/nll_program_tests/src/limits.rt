//! Texts at the limits of the format, and past them.
use super::answers::answer_to;
use super::comparison::compare;
use super::notes::{count, say};
use nll_report::Command;
use std::alloc::Global;
use std::process::Abort;
use std::sync::Wait;
use std::thread::Threads;

/// Writes words this many times.
pub fn repeat(out: &mut String, times: u32, words: &str) {
    for _ in 0..times {
        say(out, words);
    }
}

/// Writes each number from the first to before the second between words.
pub fn say_each(out: &mut String, (first, end): (u32, u32), before: &str, behind: &str) {
    for number in first..end {
        say(out, before);
        count(out, u64::from(number));
        say(out, behind);
    }
}

// Ends the test unless this is the answer to a text, which is freed.
fn compare_answer(rt: &impl Abort, alloc: Global, says: &str, text: String, want: &str) {
    let told = answer_to(alloc, Command::Check, text.as_bytes());
    drop(text);
    compare(rt, says, told, want.as_bytes());
}

// Like `compare_answer`, of a text of one point that declares this many regions by these words, and
// then has further lines.
fn compare_declaring<R: Abort + AllocGlobal + Threads + Wait + Sync>(
    rt: &R,
    (words, times): (&str, u32),
    lines: &str,
    want: &str,
) {
    let mut text = String::new(rt.alloc());
    say(&mut text, "nll-facts 1\npoints 1\n");
    say_each(&mut text, (0, times), words, "\n");
    say(&mut text, lines);
    compare_answer(rt, rt.alloc(), lines, text, want);
}

// As many declarations as the limits allow are taken, and one more is refused.
#[test]
fn refuses_declarations_past_the_limits(rt: HostRuntime) {
    let universal = ("universal 'r", 255);
    compare_declaring(&rt, universal, "region 'x\nbase 'x 0\nend\n", "ok\n");
    let duplicate = "line 258: Duplicate";
    compare_declaring(&rt, universal, "universal 'static\nend\n", duplicate);
    compare_declaring(&rt, universal, "universal\n", "line 258: Syntax");
    let region = ("region 'r", 65_535);
    compare_declaring(&rt, region, "base 'r65534 0\nend\n", "ok\n");
    let duplicate = "line 65538: Duplicate";
    compare_declaring(&rt, region, "region 'r0\nend\n", duplicate);
}

// The letters that 16,384 times make a mebibyte.
const LETTERS: &str = "rrrrrrrrrrrrrrrrrrrrrrrrrrrrrrrrrrrrrrrrrrrrrrrrrrrrrrrrrrrrrrrr";

// Writes a text whose region has a name of a mebibyte, and a remark of as many letters.
fn write_long_lines(out: &mut String) {
    say(out, "nll-facts 1\n# ");
    repeat(out, 16_384, LETTERS);
    say(out, "\npoints 1\nregion '");
    repeat(out, 16_384, LETTERS);
    say(out, "\nbase '");
    repeat(out, 16_384, LETTERS);
    say(out, " 0\nend\n");
}

// As many points as the limit allows; a constraint at the last one, which returns.
const LAST_POINT: &str = "nll-facts 1\npoints 1048576\nuniversal 'a\nuniversal 'b\nregion 'x\n\
    next 1048574 1048575\nreturn 1048575\nbase 'x 1048575\nconstraint 'x 'b 1048574\n\
    constraint 'a 'x 1048575\nend\n";

// Writes a constraint of a region at each of a thousand points.
fn write_constraints(out: &mut String, region: u32) {
    for point in 0..1000u64 {
        say(out, "constraint 'r");
        count(out, u64::from(region));
        say(out, " 'static ");
        count(out, point);
        say(out, "\n");
    }
}

// Writes a text of a hundred thousand constraints: of each of a hundred regions at each of a
// thousand points.
fn write_many_constraints(out: &mut String) {
    say(out, "nll-facts 1\npoints 1000\nuniversal 'a\n");
    say_each(out, (0, 100), "region 'r", "\n");
    for region in 0..100 {
        write_constraints(out, region);
    }
    say(out, "return 999\nconstraint 'a 'r99 999\nend\n");
}

// Lines of a mebibyte are read, the last of all points has facts as any other, and many constraints
// are read and solved.
#[test]
fn takes_long_texts(rt: HostRuntime) {
    let mut text = String::new(rt.alloc());
    write_long_lines(&mut text);
    compare_answer(&rt, rt.alloc(), "names of 1 MiB", text, "ok\n");
    let mut text = String::new(rt.alloc());
    say(&mut text, LAST_POINT);
    let want = "fault 'a must outlive 'b\nstatus 1";
    compare_answer(&rt, rt.alloc(), "the last point", text, want);
    let mut text = String::new(rt.alloc());
    write_many_constraints(&mut text);
    let want = "fault 'a must outlive 'static\nstatus 1";
    compare_answer(&rt, rt.alloc(), "many constraints", text, want);
}
