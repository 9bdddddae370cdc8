//! Types, structs, shapes and places: what each call gives for worked declarations.
use super::meetings::Meeting::{Assigned, Borrowed, Given, Read, Wanted};
use super::rows::Asked::Type;
use super::rows::{Row, compare_rows};
use super::type_data::Step;
use super::type_data::Step::{Int, Named, Reference, Tuple};
use super::type_text::OfType::{Added, Both, Deep, Doubling, Meeting, OfRow, Place};
use nll_types::Projection;

const DEREF: Projection = Projection::Deref;

// Steps that make the types of variables, and projections of a place in the last of them.
const PLACES: &[Row] = &[
    (
        "behind a reference",
        Type(Place(&[Int, Reference(3, true)], &[DEREF])),
        "int size 1 parts None small true 3 drop",
    ),
    (
        "a field of a reference",
        Type(Place(&[Int, Reference(3, true)], &[Projection::Field(0)])),
        "none no shape 3 drop",
    ),
    (
        "the last part of a tuple",
        Type(Place(
            &[Int, Int, Int, Reference(2, false), Tuple(2)],
            &[Projection::Field(1)],
        )),
        "&2 int size 2 parts None small true 2 drop",
    ),
    (
        "a part past the last",
        Type(Place(
            &[Int, Int, Reference(2, false), Tuple(2)],
            &[Projection::Field(2)],
        )),
        "none no shape 2 drop",
    ),
    (
        "a struct with a drop of its own",
        Type(Place(&[Named(0, &[3], 0)], &[])),
        "S0< 3 > size 1 parts Some(0) small true 3 drop 3",
    ),
    (
        "a marked region parameter",
        Type(Place(&[Named(1, &[3], 0)], &[Projection::Field(0)])),
        "int size 1 parts None small true 3 drop",
    ),
    (
        "a marked type parameter, whose drop regions a field has",
        Type(Place(
            &[Named(0, &[4], 0), Named(2, &[], 1)],
            &[Projection::Field(0)],
        )),
        "S0< 4 > size 1 parts Some(0) small true 4 drop 4",
    ),
    (
        "a marked type parameter",
        Type(Place(&[Int, Reference(5, false), Named(2, &[], 1)], &[])),
        "S2< &5 int > size 3 parts Some(1) small true 5 drop",
    ),
    (
        "a type parameter that isn't marked",
        Type(Place(&[Int, Reference(5, false), Named(3, &[], 1)], &[])),
        "S3< &5 int > size 3 parts Some(0) small true 5 drop 5",
    ),
    (
        "a field, with the arguments substituted",
        Type(Place(&[Int, Named(4, &[6], 1)], &[Projection::Field(0)])),
        "&6 mut int size 2 parts None small true 6 drop 6",
    ),
    (
        "a struct without a drop of its own",
        Type(Place(
            &[Int, Reference(7, false), Named(4, &[6], 1)],
            &[Projection::Field(0), DEREF, DEREF],
        )),
        "int size 1 parts None small true 6 7 drop 6",
    ),
    (
        "'static in a field, and the parameter twice",
        Type(Place(
            &[Named(0, &[8], 0), Named(5, &[], 1)],
            &[Projection::Field(1), Projection::Field(1)],
        )),
        "S0< 8 > size 1 parts Some(0) small true 8 drop 0 8",
    ),
    (
        "too few arguments",
        Type(Place(&[Named(0, &[], 0)], &[])),
        "S0< > size 1 parts Some(0) small true ill",
    ),
];

// A type that nests as deep as it can, and one of a node more; and the types behind structs that
// double.
const LARGE: &[Row] = &[
    // A shape that is added twice is one.
    ("shapes", Type(Added), "same true other false"),
    // In a row of regions those of the arguments come first.
    ("a row", Type(OfRow), "S3< 7 8 &6 mut int int >"),
    // A type of the most nodes nests as deep as it can, and one of a node more is no longer small.
    (
        "the deepest",
        Type(Deep(4_095)),
        "size 4096 small true copy true put true",
    ),
    (
        "too deep",
        Type(Deep(4_096)),
        "size 4097 small false copy true put true",
    ),
    // The types behind structs that double are reported without being written out: two shapes a
    // struct. Their drop regions go by what is kept of each struct.
    ("two", Type(Doubling(2)), "size 11 of 7 shapes, 3 drop 3"),
    (
        "a thousand",
        Type(Doubling(1_000)),
        "size 4097 of 2003 shapes, 3 drop 3",
    ),
];

// A reference to an `int`, and another one of another region.
const REFERENCES: &[Step] = &[Int, Reference(3, false), Int, Reference(4, false)];

// An `int`, and a pair of one and of a reference.
const PAIR: &[Step] = &[Int, Int, Int, Reference(3, true), Tuple(2)];

const FIRST: Projection = Projection::Field(0);

const SECOND: Projection = Projection::Field(1);

const FITS: &str = "declared true fits true small true|";

const UNFIT: &str = "declared true fits false small false|";

// The types of `_0` and `_1`, and a place that meets `_0`.
const MEETINGS: &[Row] = &[
    (
        "regions are forgotten",
        Type(Meeting(REFERENCES, Assigned, (1, &[]))),
        FITS,
    ),
    (
        "what is behind a reference",
        Type(Meeting(REFERENCES, Assigned, (1, &[DEREF]))),
        UNFIT,
    ),
    (
        "no such variable",
        Type(Meeting(REFERENCES, Assigned, (2, &[]))),
        "declared false fits false small false|",
    ),
    (
        "a reference to what is behind another",
        Type(Meeting(REFERENCES, Borrowed(false), (1, &[DEREF]))),
        FITS,
    ),
    (
        "a `mut` one where one is wanted that isn't",
        Type(Meeting(REFERENCES, Borrowed(true), (1, &[DEREF]))),
        UNFIT,
    ),
    (
        "a value of a part",
        Type(Meeting(PAIR, Given, (1, &[FIRST]))),
        FITS,
    ),
    (
        "one of another part",
        Type(Meeting(PAIR, Given, (1, &[SECOND]))),
        UNFIT,
    ),
    (
        "what is behind a part",
        Type(Meeting(PAIR, Wanted, (1, &[SECOND, DEREF]))),
        FITS,
    ),
    ("a pair", Type(Meeting(PAIR, Wanted, (1, &[]))), UNFIT),
    ("a part", Type(Meeting(PAIR, Read, (1, &[SECOND]))), FITS),
    (
        "a part that isn't there",
        Type(Meeting(PAIR, Read, (1, &[SECOND, SECOND]))),
        UNFIT,
    ),
    // What is judged of two together: both fit, one is too large and has another variable, one
    // doesn't fit.
    (
        "two",
        Type(Both),
        "declared true fits true small true|declared false fits true small false|\
            declared true fits false small false|",
    ),
];

// Types, places, shapes and drop regions are those of the definitions, and so is what is judged
// where types meet.
#[test]
fn types_are_told(rt: HostRuntime) {
    compare_rows(&rt, rt.alloc(), PLACES);
    compare_rows(&rt, rt.alloc(), LARGE);
    compare_rows(&rt, rt.alloc(), MEETINGS);
}
