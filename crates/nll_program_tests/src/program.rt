//! The program over texts and writers of the tests.
use super::comparison::compare;
use super::fakes::{Counter, Desk, Fault, Faulty, Shelf, words_of};
use super::known::{Sheet, on_pages};
use super::notes::{count, print, say, say_bytes};
use super::page::Page;
use super::rows::{ALONE, Asked, compare_row, compare_rows, compare_same};
use nll_report::{Disk, Texts, Unread, drive};
use std::alloc::Global;
use std::cell::RefCell;
use std::process::Abort;
use std::sync::Wait;
use std::thread::Threads;

// The status, what is on standard output and what is on standard error.
fn streams_told(alloc: Global, status: u8, out: &[u8], err: &[u8]) -> String {
    let mut told = String::new(alloc);
    count(&mut told, u64::from(status));
    say(&mut told, ">");
    say_bytes(&mut told, out);
    say(&mut told, ">");
    say_bytes(&mut told, err);
    told
}

/// A fault of a stream, and after how many calls it comes.
pub type FaultAt = (Fault, u32);

/// A fault that doesn't come.
pub const NEVER: FaultAt = (Fault::Fails, u32::MAX);

// What a stream holds, or nothing if its fault comes.
fn held_by(stream: &Faulty, (_, calls_before): FaultAt) -> &[u8] {
    if calls_before == u32::MAX {
        stream.held.as_slice()
    } else {
        b""
    }
}

/// What the program does with words, separated by bars, and the texts of the shelf, if its streams
/// have these faults.
pub fn run<R: Abort + AllocGlobal + Threads + Wait + Sync>(
    rt: &R,
    words: &str,
    of_out: FaultAt,
    of_err: FaultAt,
) -> String {
    let shelf = Shelf { alloc: rt.alloc() };
    run_over(rt, words, &shelf, of_out, of_err)
}

/// What the program does with words over the texts of the shelf and two more, at the paths `sheet`
/// and `list`.
pub fn run_at_desk<R: Abort + AllocGlobal + Threads + Wait + Sync>(
    rt: &R,
    words: &str,
    text: &[u8],
    list: &[u8],
) -> String {
    let shelf = Shelf { alloc: rt.alloc() };
    run_over(rt, words, &Desk { shelf, text, list }, NEVER, NEVER)
}

// What the program does with words over texts, if its streams have these faults.
fn run_over<R: Abort + AllocGlobal + Threads + Wait + Sync, T: Texts>(
    rt: &R,
    words: &str,
    texts: &T,
    of_out: FaultAt,
    of_err: FaultAt,
) -> String {
    let words = words_of(rt, rt.alloc(), words);
    let mut out = Faulty::new(rt.alloc(), of_out);
    let mut err = Faulty::new(rt.alloc(), of_err);
    let status = drive(rt, words.as_slice(), texts, &mut out, &mut err);
    streams_told(
        rt.alloc(),
        status,
        held_by(&out, of_out),
        held_by(&err, of_err),
    )
}

/// The status of the program with words, and which texts of the shelf it asked for, in order.
pub fn paths_asked<R: Abort + AllocGlobal + Threads + Wait + Sync>(rt: &R, words: &str) -> String {
    let words = words_of(rt, rt.alloc(), words);
    let counter = Counter {
        shelf: Shelf { alloc: rt.alloc() },
        paths: RefCell::new(String::new(rt.alloc())),
    };
    let (mut out, mut err) = (Page::new(), Page::new());
    let status = drive(rt, words.as_slice(), &counter, &mut out, &mut err);
    let mut told = String::new(rt.alloc());
    count(&mut told, u64::from(status));
    if let Ok(paths) = counter.paths.try_borrow() {
        say(&mut told, paths.as_str());
    }
    told
}

/// `help` if the program answers words with status 0 and a text that ends so on standard output.
pub fn help_told<R: Abort + AllocGlobal + Threads + Wait + Sync>(
    rt: &R,
    words: &str,
    end: &str,
) -> String {
    let told = run(rt, words, NEVER, NEVER);
    let is_help = told.starts_with("0>") && told.ends_with(end);
    if is_help {
        let mut out = String::new(rt.alloc());
        say(&mut out, "help");
        return out;
    }
    told
}

/// What the program does with words over a text at the path `sheet`, and streams of 1,024 bytes.
pub fn run_on<R: Abort + AllocGlobal + Threads + Wait + Sync>(
    rt: &R,
    words: &str,
    text: &[u8],
) -> String {
    let words = words_of(rt, rt.alloc(), words);
    let sheet = Sheet {
        alloc: rt.alloc(),
        path: "sheet",
        text,
    };
    let (mut out, mut err) = (Page::new(), Page::new());
    let status = on_pages(rt, words.as_slice(), &sheet, &mut out, &mut err);
    streams_told(rt.alloc(), status, out.written(), err.written())
}

// Words, and what the program does with them.
const ANSWERED: &str = "
values|chain ~ 0>'static: 0 1 2 end('static)|'1: 1 2|'2: 1 2|>
check|chain ~ 0>ok|>
values|fault ~ 0>'static: 0 1 end('static)|'a: 0 1 end('a) end('b)|'b: 0 1 end('b)|>
check|fault ~ 1>fault 'a must outlive 'b|>
check|--|fault ~ 1>fault 'a must outlive 'b|>
check|healed ~ 0>ok|>
values|missing ~ 2>>nllc: cannot read missing|
check|missing ~ 2>>nllc: cannot read missing|
values| ~ 2>>nllc: cannot read |
values|large ~ 3>>nllc: memory|
check|large ~ 3>>nllc: memory|
values|utf ~ 2>>nllc: line 3: not utf-8|
values|syntax ~ 2>>nllc: line 3: syntax|
check|unknown ~ 2>>nllc: line 3: unknown|
values|duplicate ~ 2>>nllc: line 4: duplicate|
check|range ~ 2>>nllc: line 4: range|
values|points ~ 2>>nllc: line 3: limit points|
check|end ~ 2>>nllc: line 4: end|
";

// Words that are none of the forms.
const NO_LINES: &str = "
 ~ usage
values
replay|chain
values|a|b
";

/// What the program does with words that are none of the forms.
pub const USAGE_LINE: &str = "2>>usage: nllc values!check!replay FILE \
    [--owners N] [--deal round!blocks] [--cut FILE] [--mail queue!ring] [--schedule FILE]|";

// Words that ask for help, and its end.
const HELPED: &str = "
--help
-h
";

const HELP_END: &str = "With /dev/stdin for FILE the text is read from standard input.\n>";

const COMMAND_HELPED: &str = "
values|--help
check|-h
replay|--help
";

const COMMAND_HELP_END: &str = "-h, --help                 Print help\n>";

// A text whose problem has a fault.
const SHEET: &str = "nll-facts 1|points 2|universal 'a|return 1|constraint 'a 'static 1|end|";

// What the program does with words over it.
const SHEET_VALUES: &str = "0>'static: 0 1 end('static)|'a: 0 1 end('static) end('a)|>";

const SHEET_CHECK: &str = "1>fault 'a must outlive 'static|>";

const LEAF_CHECK: &str = "2>>nllc: cannot read leaf|";

// Ends the test unless the program answers the words with help that ends so.
fn compare_help<R: Abort + AllocGlobal + Threads + Wait + Sync>(
    rt: &R,
    end: &'static str,
    rows: &str,
) {
    compare_same(rt, Asked::Help(end), ALONE, "help", rows);
}

// Ends the test unless that is what the program does with these words over the sheet.
fn compare_on_sheet<R: Abort + AllocGlobal + Threads + Wait + Sync>(
    rt: &R,
    words: &'static str,
    want: &str,
) {
    compare_row(rt, Asked::Run(words), ALONE, SHEET, want);
}

// An answer and help are printed on standard output, a refusal on standard error, each with its
// status.
#[test]
fn prints_answers_and_refusals(rt: HostRuntime) {
    let program = Asked::Program(NEVER, NEVER);
    compare_rows(&rt, program, ANSWERED);
    compare_same(&rt, program, ALONE, USAGE_LINE, NO_LINES);
    compare_help(&rt, HELP_END, HELPED);
    compare_help(&rt, COMMAND_HELP_END, COMMAND_HELPED);
}

// The run whose contract says all that it prints is one of the same program.
#[test]
fn runs_over_known_texts(rt: HostRuntime) {
    compare_on_sheet(&rt, "values|sheet", SHEET_VALUES);
    compare_on_sheet(&rt, "check|sheet", SHEET_CHECK);
    compare_on_sheet(&rt, "check|leaf", LEAF_CHECK);
}

// Words that are answered.
const PRINTED: &str = "
values|fault
check|fault
";

// Words that are refused, and the status.
const REFUSED: &str = "
 ~ 2>>
values|missing ~ 2>>
check|end ~ 2>>
check|large ~ 3>>
";

// Words that are answered, with a fault of standard output after this many calls and fewer.
fn compare_out<R: Abort + AllocGlobal + Threads + Wait + Sync>(rt: &R, fault: Fault, last: u32) {
    for calls_before in 0..=last {
        let asked = Asked::Program((fault, calls_before), NEVER);
        compare_same(rt, asked, ALONE, "3>>nllc: cannot write|", PRINTED);
    }
}

// Words that are refused, with a fault of standard error after at most two calls.
fn compare_err<R: Abort + AllocGlobal + Threads + Wait + Sync>(rt: &R, fault: Fault) {
    for calls_before in 0..3 {
        let asked = Asked::Program(NEVER, (fault, calls_before));
        compare_rows(rt, asked, REFUSED);
    }
}

// 25 bytes or more at three a call: a fault of standard output at any of nine calls, or at the
// flush, is status 3. A line that standard error does not take is lost, and the status stays.
#[test]
fn tells_that_a_stream_failed(rt: HostRuntime) {
    compare_out(&rt, Fault::Fails, 8);
    compare_out(&rt, Fault::TakesNone, 8);
    compare_out(&rt, Fault::FailsToFlush, 0);
    compare_err(&rt, Fault::Fails);
    compare_err(&rt, Fault::TakesNone);
    compare_err(&rt, Fault::FailsToFlush);
}

// What a file of the system holds, or why it isn't read.
fn file_told(alloc: Global, read: Result<Vec<u8>, Unread>) -> String {
    let mut out = String::new(alloc);
    match read {
        Ok(text) => say_bytes(&mut out, text.as_slice()),
        Err(unread) => print(&mut out, &unread),
    }
    out
}

// Files of the system are texts, and a path without a file has none.
#[test]
fn reads_files(rt: HostRuntime) {
    let disk = Disk::new(&rt);
    let told = file_told(rt.alloc(), disk.get("/dev/null"));
    compare(&rt, "/dev/null", told, b"");
    let told = file_told(rt.alloc(), disk.get("/dev/null/text"));
    compare(&rt, "/dev/null/text", told, b"the text cannot be read");
}
