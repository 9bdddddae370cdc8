//! The lines of the refusals, those among them that no facts text brings about.
use super::comparison::compare;
use super::notes::{count, print, say, say_bytes, show};
use nll_core::{BuildError, Kind};
use nll_format::{TextError, TextKind};
use nll_report::{AnswerError, LineError, Refusal, RuleError, RunError, USAGE, Unread, Unwritten};
use std::alloc::{AllocError, AllocFailed, Global};
use std::fmt::Display;
use std::process::Abort;

// The status and the line of a refusal.
fn told(alloc: Global, error: AnswerError) -> String {
    let refusal = Refusal::from(error);
    let mut out = String::new(alloc);
    count(&mut out, u64::from(refusal.status()));
    say(&mut out, ", ");
    print(&mut out, &refusal);
    out
}

// Kinds of faults, and their words.
const KINDS: &[(TextKind, &str)] = &[
    (TextKind::NotUtf8, "not utf-8"),
    (TextKind::Header, "header"),
    (TextKind::Syntax, "syntax"),
    (TextKind::Unknown, "unknown"),
    (TextKind::Duplicate, "duplicate"),
    (TextKind::Range, "range"),
    (TextKind::Shape, "shape"),
    (TextKind::TypeSize, "type size"),
    (TextKind::Limit(Kind::Text), "limit text"),
    (TextKind::Limit(Kind::Points), "limit points"),
    (TextKind::Limit(Kind::Edges), "limit edges"),
    (TextKind::Limit(Kind::Universals), "limit universals"),
    (TextKind::Limit(Kind::Regions), "limit regions"),
    (TextKind::Limit(Kind::Constraints), "limit constraints"),
    (TextKind::Limit(Kind::Variables), "limit variables"),
    (TextKind::Limit(Kind::Structs), "limit structs"),
    (TextKind::End, "end"),
];

// The line that is wanted.
fn wanted(alloc: Global, line: u64, words: &str) -> String {
    let mut out = String::new(alloc);
    say(&mut out, "2, nllc: line ");
    count(&mut out, line);
    say(&mut out, ": ");
    say(&mut out, words);
    out
}

// The fault of a text is reported with its line, however far down, and its kind in words.
#[test]
fn prints_each_kind(rt: HostRuntime) {
    for (kind, words) in KINDS {
        for line in [1, 65_538, u64::MAX] {
            let kind = *kind;
            let told = told(rt.alloc(), AnswerError::Text(TextError { line, kind }));
            let want = wanted(rt.alloc(), line, words);
            compare(&rt, words, told, want.as_bytes());
        }
    }
}

// The line of a refusal, as it is printed.
fn printed(alloc: Global, error: AnswerError) -> String {
    let mut printed = Vec::new(alloc);
    let mut out = String::new(alloc);
    let is_printed = Refusal::from(error).print(&mut printed).is_ok();
    say_bytes(&mut out, printed.as_slice());
    show(&mut out, &is_printed);
    out
}

// Ends the test unless that is the status and the line of a refusal.
fn compare_refusal<R: Abort + AllocGlobal>(rt: &R, error: AnswerError, want: &[u8]) {
    compare(rt, "a refusal", told(rt.alloc(), error), want);
}

// Refused memory has no line, wherever it was refused, and a limit of a body has none.
#[test]
fn prints_refusals_without_a_line(rt: HostRuntime) {
    let (line, kind) = (0, TextKind::Memory);
    let memory = b"3, nllc: memory";
    compare_refusal(&rt, AnswerError::Memory, memory);
    compare_refusal(&rt, AnswerError::Text(TextError { line, kind }), memory);
    compare_refusal(&rt, AnswerError::Rule(RuleError::Memory), memory);
    let limit = AnswerError::Rule(RuleError::Limit(Kind::Constraints));
    compare_refusal(&rt, limit, b"2, nllc: limit constraints");
}

// Ends the test unless that is the status and the line of a refusal, as it is displayed and as it
// is printed.
fn compare_line<R: Abort + AllocGlobal>(rt: &R, refusal: &Refusal, want: &[u8]) {
    let mut line = Vec::new(rt.alloc());
    let is_printed = refusal.print(&mut line).is_ok();
    let mut out = String::new(rt.alloc());
    count(&mut out, u64::from(refusal.status()));
    say(&mut out, ", ");
    print(&mut out, refusal);
    say(&mut out, ", ");
    say_bytes(&mut out, line.as_slice());
    show(&mut out, &is_printed);
    compare(rt, "a refusal", out, want);
}

// Refusals of cuts, of schedules and of runs.
#[test]
fn prints_refusals_of_owners(rt: HostRuntime) {
    let refusal = Refusal::CutText(65_538, TextKind::Syntax);
    let want = b"2, nllc: cut line 65538: syntax, nllc: cut line 65538: syntax\ntrue";
    compare_line(&rt, &refusal, want);
    let want = b"2, nllc: cut: length, nllc: cut: length\ntrue";
    compare_line(&rt, &Refusal::CutLength, want);
    let want = b"2, nllc: cut: no such owner at 0, nllc: cut: no such owner at 0\ntrue";
    compare_line(&rt, &Refusal::NoSuchOwner(0), want);
    let refusal = Refusal::ScheduleText(65_538, TextKind::Range);
    let want = b"2, nllc: schedule line 65538: range, nllc: schedule line 65538: range\ntrue";
    compare_line(&rt, &refusal, want);
    compare_refusal(&rt, AnswerError::Run(RunError::Thread), b"3, nllc: thread");
    compare_refusal(&rt, AnswerError::Run(RunError::Memory), b"3, nllc: memory");
}

// Ends the test unless that is displayed.
fn compare_displayed<R: Abort + AllocGlobal, T: Display>(rt: &R, value: &T, want: &[u8]) {
    let mut out = String::new(rt.alloc());
    print(&mut out, value);
    compare(rt, "an error", out, want);
}

// Errors of answers, and what they print.
const ANSWER_ERRORS: &[(AnswerError, &str)] = &[
    (
        AnswerError::Text(TextError {
            line: 7,
            kind: TextKind::Unknown,
        }),
        "line 7: a name that no earlier line declares",
    ),
    (
        AnswerError::Rule(RuleError::Limit(Kind::Constraints)),
        "more constraints than the limit",
    ),
    (AnswerError::Rule(RuleError::Memory), "out of memory"),
    (
        AnswerError::Run(RunError::Thread),
        "a thread couldn't be started",
    ),
    (AnswerError::Run(RunError::Memory), "out of memory"),
    (AnswerError::Memory, "memory was refused"),
];

// Ends the test unless that is displayed of the error of an answer.
fn compare_answer_error<R: Abort + AllocGlobal>(rt: &R, error: AnswerError, want: &str) {
    let want = want.as_bytes();
    compare_displayed(rt, &error, want);
    match error {
        AnswerError::Rule(error) => compare_displayed(rt, &error, want),
        AnswerError::Run(error) => compare_displayed(rt, &error, want),
        AnswerError::Text(_) | AnswerError::Memory => {}
    }
}

// Errors of answers print what was wrong, and so do those that they hand on.
#[test]
fn prints_errors_of_answers(rt: HostRuntime) {
    for (error, want) in ANSWER_ERRORS {
        compare_answer_error(&rt, *error, want);
    }
}

// Other errors and the usage line print what was wrong.
#[test]
fn prints_errors(rt: HostRuntime) {
    compare_displayed(&rt, &Unread::Cannot, b"the text cannot be read");
    compare_displayed(&rt, &Unread::Memory, b"memory was refused");
    let want = b"writing stopped behind 7 bytes";
    compare_displayed(&rt, &Unwritten { written: 7 }, want);
    let help = LineError::Help(String::new(rt.alloc()));
    compare_displayed(&rt, &help, b"help is asked for");
    compare_displayed(&rt, &LineError::Usage, b"the words are none of the forms");
    compare_displayed(&rt, &LineError::Memory, b"memory was refused");
    let want = b"usage: nllc values|check|replay FILE [--owners N] [--deal round|blocks] \
        [--cut FILE] [--mail queue|ring] [--schedule FILE]";
    compare_displayed(&rt, &USAGE, want);
}

// A refusal is printed as a line.
#[test]
fn prints_a_line(rt: HostRuntime) {
    let told = printed(rt.alloc(), AnswerError::Memory);
    compare(&rt, "a line", told, b"nllc: memory\ntrue");
}

// Kinds of fault that errors of calls are.
fn write_kinds(out: &mut String) {
    show(out, &TextKind::from(AllocError));
    show(out, &TextKind::from(AllocFailed { value: 1u8 }));
    for error in [
        BuildError::PointRange,
        BuildError::RegionRange,
        BuildError::Limit(Kind::Edges),
        BuildError::Memory,
    ] {
        say(out, " ");
        show(out, &TextKind::of(error));
    }
}

// What a builder refuses is a fault of the line.
#[test]
fn errors_of_calls_are_kinds(rt: HostRuntime) {
    let mut told = String::new(rt.alloc());
    write_kinds(&mut told);
    let want = b"MemoryMemory Range Unknown Limit(Edges) Memory";
    compare(&rt, "errors of calls", told, want);
}
