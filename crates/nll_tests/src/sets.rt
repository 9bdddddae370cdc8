//! Sets of elements, through the bound of the sets and directly.
ghost use Rattle.std.specs.Prelude.{◌≡◌, length};

use super::problem_text::write_elements;
use super::rows::{Asked, Row, compare_rows};
use super::transcript::Transcript;
use nll_core::{BitSet, Element, ElementSet, Elements, Run, RunSet, is_seen_within};

// Inserts the elements below the length, and writes of each whether it is new.
fn insert_all<S: ElementSet>(out: &mut Transcript, set: &mut S, len: u32, elements: &[u32])
    requires { length (S.flags set.old) ≡ len }
    ensures { length (S.flags set.new) ≡ len }
{
    for element in elements {
        if *element < len {
            if let Ok(new) = set.insert(Element(*element)) {
                out.number("", *element, " ");
                out.flag("", new, "|");
            }
        }
    }
}

// Writes the elements that a set answers to have, those that it gives one after another, and the
// least one from each of some numbers on, where there is one.
fn write_had<S: ElementSet>(out: &mut Transcript, set: &S, len: u32, from: &[u32])
    requires { length (S.flags set.now) ≡ len }
{
    out.say("has");
    for number in 0..len {
        if set.has(Element(number)) {
            out.number(" ", number, "");
        }
    }
    out.say("|gives");
    write_elements(out, Elements::of(set));
    for number in from {
        if let Some(found) = set.next_from(Element(*number)) {
            out.number("|", found.0, " from ");
            out.number("", *number, "");
        }
    }
}

// Writes what a set of a length reports: of each insertion, of itself, and of the next element from
// some numbers on.
fn write_set<S: ElementSet>(out: &mut Transcript, len: u32, inserted: &[u32], from: &[u32]) {
    if let Ok(mut set) = S::empty(out.alloc, len) {
        insert_all(out, &mut set, len, inserted);
        write_had(out, &set, len, from);
        drop(set);
    }
}

/// Writes what a set of bits reports, and what a set of runs reports if that differs.
pub fn write_sets(out: &mut Transcript, len: u32, inserted: &[u32], from: &[u32]) {
    let mut runs = Transcript::new(out.alloc);
    write_set::<RunSet>(&mut runs, len, inserted, from);
    write_set::<BitSet>(out, len, inserted, from);
    let same = runs.text() == out.text();
    if !same {
        out.say(" and runs ");
        out.say(runs.text());
    }
    drop(runs);
}

// A length, elements that are inserted, numbers from which the next element is searched, and what
// is reported.
const TOLD: &[Row] = &[
    ("no element", Asked::Sets(0, &[], &[0, 1]), "has|gives"),
    (
        "ten elements, none of them in it",
        Asked::Sets(10, &[], &[0, 10]),
        "has|gives",
    ),
    (
        "one element",
        Asked::Sets(1, &[0], &[0, 1]),
        "0 true|has 0|gives 0|0 from 0",
    ),
    (
        "ten elements",
        Asked::Sets(10, &[5, 7, 6, 6, 9, 0, 5], &[]),
        "5 true|7 true|6 true|6 false|9 true|0 true|5 false|has 0 5 6 7 9|gives 0 5 6 7 9",
    ),
    // The first and the last bit of a word, and a word between that is empty.
    (
        "the first and the last bit of a word",
        Asked::Sets(64, &[63, 0], &[]),
        "63 true|0 true|has 0 63|gives 0 63",
    ),
    (
        "a bit behind a word",
        Asked::Sets(65, &[64, 63], &[64]),
        "64 true|63 true|has 63 64|gives 63 64|64 from 64",
    ),
    (
        "a word between that is empty",
        Asked::Sets(
            200,
            &[199, 64, 63, 199],
            &[0, 63, 64, 65, 199, 200, u32::MAX],
        ),
        "199 true|64 true|63 true|199 false|has 63 64 199|gives 63 64 199\
         |63 from 0|63 from 63|64 from 64|199 from 65|199 from 199",
    ),
];

/// Writes the elements that the set of bits of elements below 65 gives by a method of its own,
/// where its last one was inserted.
pub fn write_last_bit(out: &mut Transcript) {
    if let Ok(mut set) = BitSet::empty(out.alloc, 65) {
        if let Ok(true) = set.insert(Element(64)) {
            write_elements(out, set.iter());
        }
        drop(set);
    }
}

// Inserts elements below ten into a set of runs, and writes of each whether it is new and how many
// runs there are then.
fn write_inserted(out: &mut Transcript, set: &mut RunSet, elements: &[u32])
    requires { length set.old ≡ 10 }
    ensures { length set.new ≡ 10 }
{
    for element in elements {
        if *element < 10 {
            if let Ok(new) = set.insert(Element(*element)) {
                out.flag("", new, " ");
                out.size("", set.runs());
                out.say("|");
            }
        }
    }
}

// Writes what a set of runs reports where the elements from 2 to 5 are inserted, and where all are
// taken out, and then what a copy has that was made between.
fn write_filled(out: &mut Transcript, set: &mut RunSet)
    requires { length set.old ≡ 10 }
{
    if let Ok(new) = set.insert_run(Run { first: 2, last: 5 }) {
        out.flag("|", new, " ");
    }
    out.show("", &set.as_runs());
    out.show(" ", &set.run_from(1));
    out.show(" ", &set.run_near(0, 8).1);
    let copied = set.copy();
    set.clear();
    out.size("|", set.runs());
    if let Ok(kept) = copied {
        write_elements(out, kept.iter());
        drop(kept);
    }
}

/// Writes what a set of runs of elements below ten reports where elements are inserted, then where
/// the elements from 2 to 5 are inserted, and where all are taken out, and then what a copy has
/// that was made between.
pub fn write_runs(out: &mut Transcript, elements: &[u32]) {
    if let Ok(mut set) = RunSet::empty(out.alloc, 10) {
        write_inserted(out, &mut set, elements);
        write_elements(out, set.iter());
        write_filled(out, &mut set);
        drop(set);
    }
}

// Writes what is reported about a set of runs of elements below ten where elements are inserted,
// and whether it is seen to be within another set.
fn write_inner(out: &mut Transcript, elements: &[u32], outer: &RunSet) {
    if let Ok(mut inner) = RunSet::empty(out.alloc, 10) {
        write_inserted(out, &mut inner, elements);
        out.flag(" ", is_seen_within(&inner, outer), "");
        drop(inner);
    }
}

/// Writes what two sets of runs of elements below ten report where elements are inserted, the outer
/// one first, and whether the inner one is seen to be within it.
pub fn write_within(out: &mut Transcript, inner: &[u32], outer: &[u32]) {
    if let Ok(mut set) = RunSet::empty(out.alloc, 10) {
        write_inserted(out, &mut set, outer);
        write_inner(out, inner, &set);
        drop(set);
    }
}

// What sets report by methods of their own.
const OWN: &[Row] = &[
    // A set of bits gives its elements by a method of its own.
    ("the last element", Asked::LastBit, " 64"),
    // A set of runs has as few of them as make it up.
    (
        "runs",
        Asked::Runs(&[5, 7, 6, 6, 9, 0]),
        "true 1|true 2|true 1|false 1|true 2|true 3| 0 5 6 7 9|true [Run { first: 0, \
         last: 0 }, Run { first: 2, last: 7 }, Run { first: 9, last: 9 }] Some(Run { first: 2, \
         last: 7 }) Some(Run { first: 9, last: 9 })|0 0 2 3 4 5 6 7 9",
    ),
    // Elements come after the run that changed last, before it and at it, and join two runs.
    (
        "more runs",
        Asked::Runs(&[1, 3, 5, 7, 9, 3, 2, 8, 0]),
        "true 1|true 2|true 3|true 4|true 5|false 5|true 4|true 3|true 3| 0 1 2 3 5 7 8 9|true \
         [Run { first: 0, last: 5 }, Run { first: 7, last: 9 }] Some(Run { first: 0, last: 5 }) \
         Some(Run { first: 7, last: 9 })|0 0 1 2 3 4 5 7 8 9",
    ),
    // A set is within another one where each of its runs is within a run of that one.
    (
        "within",
        Asked::Within(&[1, 5, 6], &[0, 1, 4, 5, 6]),
        "true 1|true 1|true 2|true 2|true 2|true 1|true 2|true 2| true",
    ),
    (
        "an element more",
        Asked::Within(&[1, 5, 7], &[0, 1, 4, 5, 6]),
        "true 1|true 1|true 2|true 2|true 2|true 1|true 2|true 3| false",
    ),
    ("no element", Asked::Within(&[], &[3]), "true 1| true"),
    ("in no set", Asked::Within(&[3], &[]), "true 1| false"),
];

// A set has what was inserted, and gives it ascending and each once.
#[test]
fn sets_hold_what_was_put_in(rt: HostRuntime) {
    compare_rows(&rt, rt.alloc(), TOLD);
    compare_rows(&rt, rt.alloc(), OWN);
}
