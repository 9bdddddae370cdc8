//! Replays of schedules, and what is reported if there is none.
use super::notes::say;
use super::program::{NEVER, USAGE_LINE};
use super::rows::{ALONE, Around, Asked, compare_row, compare_rows, compare_same, compare_within};
use nll_worked::TWO_BORROWS;
use std::process::Abort;
use std::sync::Wait;
use std::thread::Threads;

// A schedule after its header.
const HEADED: Around<'static> = ("nll-schedule 1|", "");

const CIRCLE_BY_TWO: Asked = Asked::Desk("replay|circle|--owners|2|--schedule|sheet");

// An event, the line of what it answers, and then the balance and the values.
type Event = (&'static str, &'static str, &'static str, &'static str);

const NOTHING: &str = "'static:|'1:|'2:|";

// The first owner has loaded 'static and '2.
const FIRST: &str = "'static: 0 1 end('static)|'1:|'2: 1|";

// The second owner has loaded '1.
const BOTH: &str = "'static: 0 1 end('static)|'1: 0|'2: 1|";

// The first owner has heard that '1 has the point 0.
const HEARD: &str = "'static: 0 1 end('static)|'1: 0|'2: 0 1|";

// The second owner has heard that '2 has both points.
const LEAST: &str = "'static: 0 1 end('static)|'1: 0 1|'2: 0 1|";

// Events of the two owners of the circle, until both have left.
const EVENTS: &[Event] = &[
    ("load 0", "1 done", "2", FIRST),
    ("owe 0", "2 done", "3", FIRST),
    ("clear 0", "3 done", "2", FIRST),
    ("take 0 1", "4 not now", "2", FIRST),
    ("push 0 1", "5 done", "2", FIRST),
    ("load 1", "6 done", "2", BOTH),
    ("owe 1", "7 done", "3", BOTH),
    ("push 1 0", "8 done", "3", BOTH),
    ("clear 1", "9 done", "2", BOTH),
    ("take 1 0", "10 done", "2", BOTH),
    ("owe 1", "11 done", "2", BOTH),
    ("clear 1", "12 done", "1", BOTH),
    ("take 0 1", "13 done", "1", HEARD),
    ("owe 0", "14 done", "2", HEARD),
    ("clear 0", "15 done", "1", HEARD),
    ("leave 1", "16 open", "1", HEARD),
    ("push 0 1", "17 done", "1", HEARD),
    ("take 1 0", "18 done", "1", LEAST),
    ("owe 1", "19 done", "2", LEAST),
    ("clear 1", "20 done", "1", LEAST),
    ("push 1 0", "21 done", "1", LEAST),
    ("take 0 1", "22 done", "1", LEAST),
    ("owe 0", "23 done", "1", LEAST),
    ("clear 0", "24 done", "0", LEAST),
    ("leave 0", "25 quiet", "0", LEAST),
    ("leave 1", "26 quiet", "0", LEAST),
];

// Ends the test unless a schedule of these events has this report.
fn compare_events<R: Abort + AllocGlobal + Threads + Wait + Sync>(
    rt: &R,
    events: &str,
    answers: &str,
    balance: &str,
    values: &str,
) {
    let mut want = String::new(rt.alloc());
    say(&mut want, "0>");
    say(&mut want, answers);
    say(&mut want, "balance ");
    say(&mut want, balance);
    say(&mut want, "|");
    say(&mut want, values);
    say(&mut want, ">");
    compare_row(rt, CIRCLE_BY_TWO, HEADED, events, want.as_str());
}

// The answer of each event, and the balance and the values after it, are those of the table.
#[test]
fn replays_event_by_event(rt: HostRuntime) {
    let mut events = String::new(rt.alloc());
    let mut answers = String::new(rt.alloc());
    compare_events(&rt, "", "", "2", NOTHING);
    for (event, answer, balance, values) in EVENTS {
        say(&mut events, event);
        say(&mut events, "|");
        say(&mut answers, answer);
        say(&mut answers, "|");
        compare_events(&rt, events.as_str(), answers.as_str(), balance, values);
    }
}

// A schedule of one owner of the chain, who can do nothing before the load.
const CHAIN: &str = "
leave 0|take 0 0|push 0 0|clear 0|owe 0| ~ 0>1 not now|2 not now|3 not now|4 not now|5 not now|\
balance 1|'static:|'1:|'2:|>
";

// What the program does with words over the texts of the shelf. By default there is one owner, and
// the regions are assigned round-robin.
const REPLAYED: &str = "
replay|circle|--schedule|still ~ 0>balance 1|'static:|'1:|'2:|>
replay|--owners=64|--schedule=still|--|circle ~ 0>balance 64|'static:|'1:|'2:|>
replay|circle|--schedule|first ~ 0>1 done|balance 1|'static: 0 1 end('static)|'1: 0 1|'2: 0 1|>
replay|circle|--schedule|first|--owners|2 ~ 0>1 done|balance 2|'static: 0 1 end('static)|'1:|'2: 1|>
replay|circle|--schedule|first|--owners|2|--deal|round ~ 0>1 done|balance 2|\
'static: 0 1 end('static)|'1:|'2: 1|>
replay|circle|--schedule|first|--owners|2|--deal|blocks ~ 0>1 done|balance 2|\
'static: 0 1 end('static)|'1: 0|'2:|>
replay|circle|--schedule|first|--owners|2|--cut|two ~ 0>1 done|balance 2|'static:|'1: 0|'2:|>
replay|circle|--schedule|second|--owners|2|--cut|two ~ 0>1 done|2 done|balance 2|\
'static: 0 1 end('static)|'1: 0|'2: 1|>
replay|fault|--schedule|first ~ 0>1 done|balance 1|'static: 0 1 end('static)|\
'a: 0 1 end('a) end('b)|'b: 0 1 end('b)|>
";

// Words whose file, cut file or schedule is refused, and what the program does with them.
const REFUSED: &str = "
replay|circle|--schedule|missing ~ 2>>nllc: cannot read missing|
replay|circle|--schedule|large ~ 3>>nllc: memory|
replay|circle|--schedule|empty ~ 2>>nllc: schedule line 1: header|
replay|circle|--schedule|circle ~ 2>>nllc: schedule line 1: header|
replay|circle|--schedule|one ~ 2>>nllc: schedule line 1: header|
replay|circle|--schedule|other ~ 2>>nllc: schedule line 1: header|
replay|circle|--schedule|vague ~ 2>>nllc: schedule line 3: syntax|
replay|circle|--schedule|signed ~ 2>>nllc: schedule line 2: syntax|
replay|circle|--schedule|latin ~ 2>>nllc: schedule line 2: not utf-8|
// A number that is no owner's is refused, though the event would not be possible.
replay|circle|--schedule|second ~ 2>>nllc: schedule line 4: range|
replay|circle|--schedule|second|--owners|1|--deal|blocks ~ 2>>nllc: schedule line 4: range|
replay|circle|--schedule|second|--cut|one ~ 2>>nllc: schedule line 4: range|
// The cut file is dealt with before the schedule is opened.
replay|circle|--schedule|missing|--cut|lost ~ 2>>nllc: cannot read lost|
replay|circle|--schedule|missing|--cut|large ~ 3>>nllc: memory|
replay|circle|--schedule|missing|--cut|faulty ~ 2>>nllc: cut line 3: syntax|
replay|circle|--schedule|empty|--owners|2|--cut|short ~ 2>>nllc: cut: length|
replay|circle|--schedule|missing|--owners|16|--cut|stranger ~ 2>>nllc: cut: no such owner at 1|
// The file is dealt with before both.
replay|syntax|--schedule|missing|--cut|missing ~ 2>>nllc: line 3: syntax|
replay|end|--schedule|missing ~ 2>>nllc: line 4: end|
replay|lost|--schedule|missing|--cut|missing ~ 2>>nllc: cannot read lost|
replay|large|--schedule|missing ~ 3>>nllc: memory|
replay|first|--schedule|first ~ 2>>nllc: line 1: header|
";

// Words that are no line.
const NO_LINES: &str = "
replay|circle
replay|circle|--owners|2
replay|circle|--schedule
replay|circle|--schedule|first|--schedule|first
replay|circle|--schedule|first|--mail|queue
replay|circle|--schedule|first|--mail|ring
replay|circle|--schedule|first|--deal|round|--cut|one
replay|--schedule|first
values|circle|--schedule|first
check|circle|--schedule|first
";

// A MIR text is replayed as well.
const BORROWED: &str = "0>1 done|balance 1|\
    'static: bb0/0 bb0/1 bb1/0 bb1/1 bb1/2 bb2/0 bb2/1 end('static)|\
    'p: bb0/1 bb1/0 bb1/2 bb2/0|'foo: bb0/1 bb1/0 bb2/0|'bar: bb1/2 bb2/0|>";

#[test]
fn replays_schedules(rt: HostRuntime) {
    let chain = Asked::Desk("replay|chain|--schedule|sheet");
    compare_within(&rt, chain, HEADED, CHAIN);
    compare_rows(&rt, Asked::Program(NEVER, NEVER), REPLAYED);
    let borrows = Asked::Desk("replay|sheet|--schedule|first");
    compare_row(&rt, borrows, ALONE, TWO_BORROWS, BORROWED);
}

// A faulty file comes before its cut, a cut before the schedule.
#[test]
fn replays_are_refused(rt: HostRuntime) {
    let program = Asked::Program(NEVER, NEVER);
    compare_rows(&rt, program, REFUSED);
    compare_same(&rt, program, ALONE, USAGE_LINE, NO_LINES);
}
