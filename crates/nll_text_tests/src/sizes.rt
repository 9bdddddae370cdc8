//! Types at the limit of their nodes and past it, however they are written.
use super::body_text::{Asked, read};
use super::comparison::compare;
use super::pieces::{write_number, write_piece};
use super::repetitions::{Repeated, Row, compare_each, compare_repeated};
use std::alloc::Global;
use std::process::Abort;

// Types, how many parts more than an `int` they have, and what is reported: tuples, wherever a type
// may be written, and references. A tuple of 4,095 parts has 4,096 nodes, which is the most.
const TYPES: &[Row] = &[
    (VARIABLE, 4_094, "1 regions, 2 variables|bb0/0|"),
    (VARIABLE, 4_095, "line 3: TypeSize"),
    (FIELD, 4_094, "1 regions, 1 variables|bb0/0|"),
    (FIELD, 4_095, "line 2: TypeSize"),
    // With the struct there is a node more.
    (ARGUMENT, 4_093, "1 regions, 2 variables|bb0/0|"),
    (ARGUMENT, 4_094, "line 4: TypeSize"),
    // That the types differ is reported first.
    (RESULT, 4_095, "line 5: Shape"),
    // References are refused however deep they are: the last ones are a line of a mebibyte.
    (DEEP, 4_096, "line 4: TypeSize"),
    (DEEP, 262_144, "line 4: TypeSize"),
];

const VARIABLE: Repeated<'static> = (
    "nll-mir 1\nlet _0: int\nlet _1: (int",
    ", int",
    ")\nblocks 1\nblock bb0\nstop\nend\n",
);

const FIELD: Repeated<'static> = (
    "nll-mir 1\nstruct S((int",
    ", int",
    "))\nlet _0: int\nblocks 1\nblock bb0\nstop\nend\n",
);

const ARGUMENT: Repeated<'static> = (
    "nll-mir 1\nstruct P<T +>(T)\nlet _0: int\nlet _1: P<(int",
    ", int",
    ")>\nblocks 1\nblock bb0\nstop\nend\n",
);

const RESULT: Repeated<'static> = (
    "nll-mir 1\nlet _0: int\nblocks 1\nblock bb0\n_0 = call f(): (int",
    ", int",
    ") -> bb0\nend\n",
);

// References to one another and to an `int`.
const DEEP: Repeated<'static> = (
    "nll-mir 1\nregion 'r\nlet _0: int\nlet _1: ",
    "&'r ",
    "int\nblocks 1\nblock bb0\nstop\nend\n",
);

// Large types are taken, and larger ones refused.
#[test]
fn large_types(rt: HostRuntime) {
    compare_each(&rt, rt.alloc(), TYPES);
}

// The deepest type has 4,095 references.
#[test]
fn deep_types(rt: HostRuntime) {
    let want = "2 regions, 2 variables|bb0/0|";
    compare_repeated(&rt, rt.alloc(), DEEP, 4_095, want);
}

// Projections of a variable whose type is the last of structs that double one another. This many
// fields inwards its type has three times two to the power of their number of nodes.
const DOUBLED: &[(&str, &str)] = &[
    (".0.0.0.0.0.0.0.0.0.0", "2 regions, 2 variables|bb0/1|"),
    (".0.0.0.0.0.0.0.0.0.0.0", "line 1007: TypeSize"),
    // That there is no such field is reported first.
    (".0.0.0.0.0.0.0.0.0.0.0.1", "line 1007: Shape"),
];

// Writes a struct and this many more, each of which has the one before it of a pair of its
// parameter.
fn write_structs(rt: &impl Abort, out: &mut String, more: u32) {
    write_piece(rt, out, "nll-mir 1\nregion 'r\nstruct S0<T +>(T)\n");
    for before in 0..more {
        write_number(rt, out, "struct S", u64::from(before) + 1, "<T +>(S");
        write_number(rt, out, "", u64::from(before), "<(T, T)>)\n");
    }
}

// Ends the test unless this is reported about a text of a thousand such structs, and about a place
// in a variable of the last one's type.
fn compare_doubling(rt: &impl Abort, alloc: Global, projections: &str, want: &str) {
    let mut text = String::new(alloc);
    write_structs(rt, &mut text, 999);
    let body = "let _0: int\nlet _1: S999<&'r int>\nblocks 1\nblock bb0\nread _1";
    write_piece(rt, &mut text, body);
    write_piece(rt, &mut text, projections);
    write_piece(rt, &mut text, "\nstop\nend\n");
    let told = read(rt, alloc, text.as_bytes(), Asked::Size);
    compare(rt, projections, told.as_str(), want);
}

// Structs that double one another are declared quickly, and the first type that is too large is
// reported.
#[test]
fn doubling_structs(rt: HostRuntime) {
    for (projections, want) in DOUBLED {
        compare_doubling(&rt, rt.alloc(), projections, want);
    }
}
