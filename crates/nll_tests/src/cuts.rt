//! Partitions of regions among owners, and which owner reads what.

use super::calls::Call;
use super::calls::Call::{Holds, Next, Region, Ret};
use super::cuts::Deal::{Blocks, Listed, Round};
use super::problem_text::OfProblem::ReadersAmong;
use super::rows::Asked::{Cut, CutFile, Made};
use super::rows::{Row, compare_rows};
use super::transcript::Transcript;
use nll_core::RegionId;
use nll_cut::CutError;
use nll_lists::read_cut;
use std::alloc::Global;

/// How regions are assigned.
#[derive(Clone, Copy)]
pub enum Deal {
    Round,
    Blocks,
    Listed(&'static [u16]),
}

// The cut of this many regions among this many owners.
fn cut_of(
    alloc: Global,
    (regions, owners): (u32, u16),
    deal: Deal,
) -> Result<nll_cut::Cut, CutError> {
    match deal {
        Round => nll_cut::Cut::round(alloc, regions, owners),
        Blocks => nll_cut::Cut::blocks(alloc, regions, owners),
        Listed(list) => nll_cut::Cut::from_list(alloc, regions, owners, list),
    }
}

/// Writes what a partition reports: each region's owner, or why it is refused.
pub fn write_cut(out: &mut Transcript, numbers: (u32, u16), deal: Deal) {
    match cut_of(out.alloc, numbers, deal) {
        Ok(cut) => {
            out.number("of ", u32::from(cut.owners()), ":");
            for number in 0..numbers.0 {
                if (number as usize) < cut.regions() {
                    out.number(" ", u32::from(cut.owner_of(RegionId(number))), "");
                }
            }
        }
        Err(error) => out.show("", &error),
    }
}

/// Writes the owners that a cut file lists, or the line and kind of its fault.
pub fn write_cut_file(out: &mut Transcript, text: &[u8]) {
    match read_cut(out.alloc, text) {
        Ok(list) => {
            for owner in list.as_slice() {
                out.number("", u32::from(*owner), "|");
            }
        }
        Err(error) => {
            out.show("line ", &error.line);
            out.show(": ", &error.kind);
        }
    }
}

// Regions, owners and how regions are assigned, and what the partition reports: each region's
// owner, or why it is refused.
const ROWS: &[Row] = &[
    ("regions go round", Cut(3, 2, Round), "of 2: 0 1 0"),
    ("one owner has all regions", Cut(3, 1, Round), "of 1: 0 0 0"),
    (
        "some of 16 owners have none",
        Cut(3, 16, Round),
        "of 16: 0 1 2",
    ),
    (
        "a block is as large as it must be",
        Cut(3, 2, Blocks),
        "of 2: 0 0 1",
    ),
    (
        "blocks that come out even",
        Cut(6, 3, Blocks),
        "of 3: 0 0 1 1 2 2",
    ),
    (
        "the last owners may have no block",
        Cut(6, 4, Blocks),
        "of 4: 0 0 1 1 2 2",
    ),
    (
        "a list says it",
        Cut(3, 2, Listed(&[0, 0, 1])),
        "of 2: 0 0 1",
    ),
    (
        "64 owners are taken",
        Cut(2, 64, Listed(&[63, 0])),
        "of 64: 63 0",
    ),
    (
        "65 owners are refused before the list is looked at",
        Cut(3, 65, Listed(&[70, 0])),
        "Owners",
    ),
    ("there is an owner", Cut(3, 0, Round), "Owners"),
    (
        "65 owners of blocks are refused",
        Cut(3, 65, Blocks),
        "Owners",
    ),
    (
        "a list that is too short is told before its entries",
        Cut(3, 2, Listed(&[0, 2])),
        "Length",
    ),
    (
        "a list that is too long",
        Cut(3, 2, Listed(&[0, 0, 0, 0])),
        "Length",
    ),
    (
        "the first entry that names no owner is told, counted from 0",
        Cut(3, 16, Listed(&[0, 16, 70])),
        "NoSuchOwner(1)",
    ),
];

// Two regions that ask each other for what they hold from the point 0 on.
const TWO_REGIONS: &[Call] = &[
    Region,
    Region,
    Next(0, 1),
    Ret(1),
    Holds(2, 1, 0),
    Holds(1, 2, 0),
];

// Constraints on 'static and of it, and of a region on itself.
const THREE_REGIONS: &[Call] = &[
    Region,
    Region,
    Region,
    Holds(0, 3, 0),
    Holds(2, 0, 0),
    Holds(1, 1, 0),
    Holds(3, 0, 0),
    Holds(3, 0, 1),
];

// Calls that make a problem of two points, and which regions each owner reads where its regions go
// round this many.
const READERS: &[Row] = &[
    (
        "two regions of one owner",
        Made((2, 1), TWO_REGIONS, ReadersAmong(1)),
        "0 reads|1 reads|",
    ),
    (
        "two regions and 'static of two owners",
        Made((2, 1), TWO_REGIONS, ReadersAmong(2)),
        "0 reads 1|1 reads 2|2 reads|",
    ),
    (
        "each region of an owner of its own",
        Made((2, 1), TWO_REGIONS, ReadersAmong(3)),
        "0 reads|1 reads 2|2 reads 1|3 reads|",
    ),
    (
        "three regions and 'static of two owners",
        Made((2, 1), THREE_REGIONS, ReadersAmong(2)),
        "0 reads 3|1 reads 0|2 reads|",
    ),
    (
        "each of three regions of an owner of its own",
        Made((2, 1), THREE_REGIONS, ReadersAmong(4)),
        "0 reads 3|1 reads|2 reads 0|3 reads 0|4 reads|",
    ),
];

// Cut files, and the owners that they list or their fault.
const FILES: &[Row] = &[
    ("an empty file", CutFile(b""), "line 1: Header"),
    ("a header alone", CutFile(b"nll-cut 1"), ""),
    (
        "three regions",
        CutFile(b"nll-cut 1\n0\n16\n0\n"),
        "0|16|0|",
    ),
    ("no last line feed", CutFile(b"nll-cut 1\n7\n63"), "7|63|"),
    (
        "the highest number",
        CutFile(b"nll-cut 1\n65535\n"),
        "65535|",
    ),
    (
        "a higher number",
        CutFile(b"nll-cut 1\n65536\n"),
        "line 2: Range",
    ),
    (
        "the highest number of nine digits",
        CutFile(b"nll-cut 1\n1\n999999999\n"),
        "line 3: Range",
    ),
    (
        "ten digits",
        CutFile(b"nll-cut 1\n1000000000\n"),
        "line 2: Syntax",
    ),
    (
        "a zero in front",
        CutFile(b"nll-cut 1\n01\n"),
        "line 2: Syntax",
    ),
    (
        "two numbers",
        CutFile(b"nll-cut 1\n1 2\n"),
        "line 2: Syntax",
    ),
    ("a word", CutFile(b"nll-cut 1\n1\nend\n"), "line 3: Syntax"),
    (
        "remarks and lines of blanks",
        CutFile(b" nll-cut\t1 \n\n # of two\n 1\n \t\n2 \n#"),
        "1|2|",
    ),
    (
        "carriage returns",
        CutFile(b"nll-cut 1\r\n3\r\n\r\n4\r\n"),
        "3|4|",
    ),
    (
        "a remark behind a number",
        CutFile(b"nll-cut 1\n1 # a\n"),
        "line 2: Syntax",
    ),
    (
        "a remark in front",
        CutFile(b"# a\nnll-cut 1\n1\n"),
        "line 1: Header",
    ),
    (
        "another version",
        CutFile(b"nll-cut 2\n1\n"),
        "line 1: Header",
    ),
    (
        "another kind of text",
        CutFile(b"nll-facts 1\n1\n"),
        "line 1: Header",
    ),
    (
        "a header that isn't UTF-8",
        CutFile(b"nll-cut 1\xff\n"),
        "line 1: NotUtf8",
    ),
    (
        "a remark that isn't UTF-8",
        CutFile(b"nll-cut 1\n1\n# \xff\n"),
        "line 3: NotUtf8",
    ),
    (
        "the first of two faulty lines",
        CutFile(b"nll-cut 1\n70000\n\xff\n"),
        "line 2: Range",
    ),
];

// A cut file lists the owners of the regions in their order, or has one fault.
#[test]
fn owners_are_listed_in_files(rt: HostRuntime) {
    compare_rows(&rt, rt.alloc(), FILES);
}

// Each region has the owner that the rule gives it, and of several faults the first is reported. An
// owner reads the regions of others that its constraints read, and none of its own; a number past
// the owners reads nothing.
#[test]
fn regions_have_owners(rt: HostRuntime) {
    compare_rows(&rt, rt.alloc(), ROWS);
    compare_rows(&rt, rt.alloc(), READERS);
}
