//! Texts at the limits of the format, and past them.
use super::body_text::{Asked, read};
use super::comparison::compare;
use super::pieces::write_piece;
use super::repetitions::{Repeated, Row, compare_each, repeated, write_often};
use std::alloc::Global;
use std::process::Abort;

// The rest of a body without variables, and that of one with variables.
const REST: &str = "let _0: int\nblocks 1\nblock bb0\nstop\nend\n";

const BLOCK: &str = "blocks 1\nblock bb0\nstop\nend\n";

// Declarations, how many, and what is reported. `'static` counts as a universal region.
const DECLARATIONS: &[Row] = &[
    (UNIVERSALS, 255, "256 regions, 1 variables|bb0/0|"),
    (UNIVERSALS, 256, "line 257: Limit(Universals)"),
    (REGIONS, 65_535, "65536 regions, 1 variables|bb0/0|"),
    (REGIONS, 65_536, "line 65537: Limit(Regions)"),
    (STRUCTS, 1_024, "1 regions, 1 variables|bb0/0|"),
    (STRUCTS, 1_025, "line 1026: Limit(Structs)"),
    (VARIABLES, 65_536, "1 regions, 65536 variables|bb0/0|"),
    (VARIABLES, 65_537, "line 65538: Limit(Variables)"),
];

const UNIVERSALS: Repeated<'static> = ("nll-mir 1\n", "universal 'u#\n", REST);

const REGIONS: Repeated<'static> = ("nll-mir 1\n", "region 'r#\n", REST);

const STRUCTS: Repeated<'static> = ("nll-mir 1\n", "struct S#()\n", REST);

const VARIABLES: Repeated<'static> = ("nll-mir 1\n", "let _#: int\n", BLOCK);

// As many declarations as the limits allow are taken, and one more is refused.
#[test]
fn declarations(rt: HostRuntime) {
    compare_each(&rt, rt.alloc(), DECLARATIONS);
}

// Points, which are numbered to 1,048,575, and one more; many blocks of one point; and blanks, as
// many as a text may have and one more, since its length is judged before its header.
const LARGE: &[Row] = &[
    (
        POINTS,
        1_048_575,
        "1 regions, 1 variables|bb0/1048575 returns uses 0|",
    ),
    (POINTS, 1_048_576, "line 1048581: Limit(Points)"),
    (BLOCKS, 50_000, "1 regions, 1 variables|bb49999/0 to 1|"),
    (("", " ", ""), 67_108_864, "line 1: Header"),
    (("", " ", ""), 67_108_865, "line 1: Limit(Text)"),
];

const POINTS: Repeated<'static> = (
    "nll-mir 1\nlet _0: int\nblocks 1\nblock bb0\n",
    "nop\n",
    "return\nend\n",
);

const BLOCKS: Repeated<'static> = (
    "nll-mir 1\nlet _0: int\nblocks 50000\n",
    "block bb#\ngoto bb1\n",
    "end\n",
);

// Texts as large as they may be are read, and larger ones refused.
#[test]
fn large_texts(rt: HostRuntime) {
    compare_each(&rt, rt.alloc(), LARGE);
}

// A block that goes on to many blocks.
const SWITCH: Repeated<'static> = ("block bb#\nswitch const", " bb#", "\n");

// Ends the test unless this is reported about a text of 2,048 blocks each of which goes on to all
// of them, and about one of a block more.
fn compare_edges(rt: &impl Abort, alloc: Global, back: &str, want: &str) {
    let switch = repeated(rt, alloc, SWITCH, 2_048);
    let mut text = String::new(alloc);
    write_piece(rt, &mut text, "nll-mir 1\nlet _0: int\nblocks 2049\n");
    write_often(rt, &mut text, switch.as_str(), 2_048);
    write_piece(rt, &mut text, back);
    let told = read(rt, alloc, text.as_bytes(), Asked::Size);
    compare(rt, back, told.as_str(), want);
}

// As many edges as the limit allows are taken, and one more is refused.
#[test]
fn many_edges(rt: HostRuntime) {
    let want = "1 regions, 1 variables|bb2048/0|";
    compare_edges(&rt, rt.alloc(), "block bb2048\nstop\nend\n", want);
    let want = "line 4101: Limit(Edges)";
    compare_edges(&rt, rt.alloc(), "block bb2048\ngoto bb0\nend\n", want);
}

// Lines of a mebibyte.
const LONG_LINES: &[Row] = &[
    (REMARK, 1_048_574, "1 regions, 1 variables|bb0/0|"),
    (NAME, 1_048_568, "2 regions, 1 variables|bb0/0|"),
    (TARGETS, 262_141, "1 regions, 1 variables|bb0/0 to 0|"),
    (BLANKS, 1_048_572, "1 regions, 1 variables|bb0/0|"),
];

const REMARK: Repeated<'static> = (
    "nll-mir 1\n# ",
    "r",
    "\nlet _0: int\nblocks 1\nblock bb0\nstop\nend\n",
);

const NAME: Repeated<'static> = (
    "nll-mir 1\nregion '",
    "r",
    "\nlet _0: int\nblocks 1\nblock bb0\nstop\nend\n",
);

const TARGETS: Repeated<'static> = (
    "nll-mir 1\nlet _0: int\nblocks 1\nblock bb0\nswitch const",
    " bb0",
    "\nend\n",
);

const BLANKS: Repeated<'static> = (
    "nll-mir 1\nlet _0: int\nblocks 1\nblock bb0\nstop",
    " ",
    "\nend\n",
);

// Long lines are read: a remark, a name, the targets of a `switch`, blanks.
#[test]
fn long_lines(rt: HostRuntime) {
    compare_each(&rt, rt.alloc(), LONG_LINES);
}
