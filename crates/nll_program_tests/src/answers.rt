//! Answers to texts, as text.
use super::notes::{count, say, say_bytes, show};
use super::problem_text::write_fault;
use super::rows::{ALONE, Asked, compare_rows, compare_same};
use nll_report::{AnswerError, Command, answer, answer_text};
use std::alloc::Global;
use std::process::Abort;

// A report, and its status if it isn't 0; or why there is none.
fn answer_told(alloc: Global, answered: Result<(Vec<u8>, u8), AnswerError>) -> String {
    let mut out = String::new(alloc);
    match answered {
        Ok((report, status)) => write_report(&mut out, report.as_slice(), status),
        Err(AnswerError::Text(error)) => write_fault(&mut out, error),
        Err(error) => show(&mut out, &error),
    }
    out
}

/// Writes a report, and its status if it isn't 0.
pub fn write_report(out: &mut String, report: &[u8], status: u8) {
    say_bytes(out, report);
    if status != 0 {
        say(out, "status ");
        count(out, u64::from(status));
    }
}

/// The answer to a command on a text, or why there is none.
pub fn answer_to(alloc: Global, command: Command, text: &[u8]) -> String {
    answer_told(alloc, answer(alloc, command, text))
}

/// Like `answer_to`, with the text handed over.
pub fn answer_handed(rt: &impl Abort, alloc: Global, command: Command, text: &[u8]) -> String {
    let text = Vec::from_slice(alloc, text).expect(rt, "memory");
    answer_told(alloc, answer_text(alloc, command, text))
}

// Whole texts that say the same: blanks, skipped lines and the end of the last line mean nothing.
const BLANKS: &str = "
nll-facts 1|points 2|universal 'a|region 'R_1|return 1|base 'R_1 0|end
\t nll-facts\r 1 \r|points 2\r|universal'a| \tregion\t'R_1|return 1|base'R_1 0|end\r
nll-facts 1|# points 3|| \t#é|points 2|universal 'a|#|region 'R_1|\r|return 1|base 'R_1 0||end|\
    | |# end|#
";

const OF_BLANKS: &str = "'static: 0 1 end('static)|'a: 0 1 end('a)|'R_1: 0|";

// Texts of either kind, with the values that are printed where they are handed over.
const HANDED: &str = "
nll-facts 1|points 1|universal 'a|return 0|constraint 'a 'static 0|end| ~ \
    'static: 0 end('static)|'a: 0 end('static) end('a)|
nll-mir 1|let _0: int|blocks 1|block bb0|return|end| ~ 'static: bb0/0 end('static)|
nll-mir 1| ~ line 1: End
";

// And with the faults.
const HANDED_FAULTS: &str = "
nll-facts 1|points 1|universal 'a|return 0|constraint 'a 'static 0|end| ~ \
    fault 'a must outlive 'static|status 1
nll-mir 1|let _0: int|blocks 1|block bb0|return|end| ~ ok|
nll-mir 1| ~ line 1: End
";

// Blanks don't change an answer, and a text that is handed over has the same answer.
#[test]
fn answers_texts(rt: HostRuntime) {
    let (values, faults) = (Command::Values, Command::Check);
    compare_same(&rt, Asked::Answer(values), ALONE, OF_BLANKS, BLANKS);
    compare_same(&rt, Asked::Answer(faults), ALONE, "ok|", BLANKS);
    compare_rows(&rt, Asked::Handed(values), HANDED);
    compare_rows(&rt, Asked::Handed(faults), HANDED_FAULTS);
}
