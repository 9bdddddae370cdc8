//! Schedules: the events that they list, or the line and kind of their fault.

use super::rows::Asked::Schedule;
use super::rows::{Row, compare_rows};
use super::transcript::Transcript;
use nll_lists::read_schedule;

/// Writes the events that a schedule of this many owners lists, or the line and kind of its fault.
pub fn write_schedule(out: &mut Transcript, owners: u16, text: &[u8]) {
    match read_schedule(out.alloc, text, owners) {
        Ok(list) => {
            for event in list.as_slice() {
                out.show("", event);
                out.say("|");
            }
        }
        Err(error) => {
            out.show("line ", &error.line);
            out.show(": ", &error.kind);
        }
    }
}

const ROWS: &[Row] = &[
    ("an empty file", Schedule(2, b""), "line 1: Header"),
    ("a header alone", Schedule(2, b"nll-schedule 1"), ""),
    (
        "an event of each form",
        Schedule(
            3,
            b"nll-schedule 1\nload 0\ntake 1 2\nowe 2\nclear 0\npush 2 1\nleave 1\n",
        ),
        "Load(0)|Take(1, 2)|Owe(2)|Clear(0)|Push(2, 1)|Leave(1)|",
    ),
    (
        "no last line feed",
        Schedule(2, b"nll-schedule 1\nowe 1"),
        "Owe(1)|",
    ),
    (
        "an owner that takes from itself and pushes to itself",
        Schedule(1, b"nll-schedule 1\ntake 0 0\npush 0 0\n"),
        "Take(0, 0)|Push(0, 0)|",
    ),
    (
        "the last of 64 owners",
        Schedule(64, b"nll-schedule 1\nload 63\n"),
        "Load(63)|",
    ),
    (
        "a number behind the last owner's",
        Schedule(64, b"nll-schedule 1\nload 64\n"),
        "line 2: Range",
    ),
    (
        "the second number alone is no owner's",
        Schedule(2, b"nll-schedule 1\nload 1\ntake 0 2\n"),
        "line 3: Range",
    ),
    (
        "a number that no count of owners goes past",
        Schedule(2, b"nll-schedule 1\nleave 65536\n"),
        "line 2: Range",
    ),
    (
        "ten digits",
        Schedule(2, b"nll-schedule 1\nload 1000000000\n"),
        "line 2: Syntax",
    ),
    (
        "a zero in front",
        Schedule(2, b"nll-schedule 1\nload 01\n"),
        "line 2: Syntax",
    ),
    (
        "a number too few",
        Schedule(2, b"nll-schedule 1\npush 0\n"),
        "line 2: Syntax",
    ),
    (
        "a number too many",
        Schedule(2, b"nll-schedule 1\nowe 0 1\n"),
        "line 2: Syntax",
    ),
    (
        "a word in a number's place",
        Schedule(2, b"nll-schedule 1\nowe x\n"),
        "line 2: Syntax",
    ),
    (
        "no blank behind the word",
        Schedule(2, b"nll-schedule 1\nload0\n"),
        "line 2: Syntax",
    ),
    (
        "another word",
        Schedule(2, b"nll-schedule 1\nLoad 0\n"),
        "line 2: Syntax",
    ),
    (
        "there is no last line",
        Schedule(2, b"nll-schedule 1\nload 0\nend\n"),
        "line 3: Syntax",
    ),
    (
        "remarks, blanks and carriage returns",
        Schedule(
            2,
            b" nll-schedule\t1 \r\n\n # first\n\tload  0 \r\n \t\nleave\t1\n#",
        ),
        "Load(0)|Leave(1)|",
    ),
    (
        "another version",
        Schedule(2, b"nll-schedule 2\n"),
        "line 1: Header",
    ),
    (
        "another kind of text",
        Schedule(2, b"nll-cut 1\n0\n"),
        "line 1: Header",
    ),
    (
        "a remark that isn't UTF-8",
        Schedule(2, b"nll-schedule 1\nload 0\n# \xff\n"),
        "line 3: NotUtf8",
    ),
    (
        "the first of two faulty lines",
        Schedule(2, b"nll-schedule 1\nload 2\n\xff\n"),
        "line 2: Range",
    ),
];

// A schedule lists events in their order, or has one fault.
#[test]
fn events_are_listed(rt: HostRuntime) {
    compare_rows(&rt, rt.alloc(), ROWS);
}
