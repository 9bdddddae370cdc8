//! Writers that fail in the middle.
use super::comparison::compare;
use super::fakes::{Fault, Faulty};
use super::notes::{count, say};
use nll_report::put;
use std::alloc::Global;

// Three bytes a call: twelve calls, and one more byte.
const REPORT: &[u8] = b"'1: bb0/0 bb0/1\n'2: bb0/1 end('a)\nend";

// Writes how many bytes of a report are reported as written by a writer with a fault after this
// many calls, or `all`; and `lost` if it doesn't hold exactly these.
fn write_put(out: &mut String, alloc: Global, report: &[u8], fault: (Fault, u32)) {
    let mut writer = Faulty::new(alloc, fault);
    let written = match put(&mut writer, report) {
        Ok(()) => report.len(),
        Err(unwritten) => unwritten.written,
    };
    if written == report.len() {
        say(out, "all");
    } else {
        count(out, written as u64);
    }
    let is_held = writer.held.len() == written && report.starts_with(writer.held.as_slice());
    say(out, if is_held { " " } else { " lost " });
}

// Like `write_put`, for each number of calls, and once for an empty report.
fn puts_told(alloc: Global, fault: Fault) -> String {
    let mut out = String::new(alloc);
    for calls_before in 0..14 {
        write_put(&mut out, alloc, REPORT, (fault, calls_before));
    }
    write_put(&mut out, alloc, b"", (fault, 0));
    out
}

// Faults, and how many bytes are written before they come. A flush is none of these calls, and a
// write that a signal interrupts is tried again.
const FAULTS: &[(Fault, &str)] = &[
    (Fault::Fails, "0 3 6 9 12 15 18 21 24 27 30 33 36 all all "),
    (
        Fault::TakesNone,
        "0 3 6 9 12 15 18 21 24 27 30 33 36 all all ",
    ),
    (
        Fault::FailsToFlush,
        "all all all all all all all all all all all all all all all ",
    ),
    (
        Fault::IsInterrupted,
        "all all all all all all all all all all all all all all all ",
    ),
];

// A failed write, and one that takes nothing, reports how many bytes were written before it. All is
// written if no write fails; of an empty report nothing is written, so no fault is met.
#[test]
fn tells_how_much_was_written(rt: HostRuntime) {
    for (fault, want) in FAULTS {
        compare(
            &rt,
            "a fault",
            puts_told(rt.alloc(), *fault),
            want.as_bytes(),
        );
    }
}
