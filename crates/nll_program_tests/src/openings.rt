//! Which texts the program asks for, and in which order. A text of a pipe can be read once.
use super::rows::{Asked, compare_rows};

// Words, and then the status and the paths of the texts. Each is asked for once.
const ONCE: &str = "
values|chain ~ 0 chain
check|fault ~ 1 fault
values|chain|--deal|blocks|--mail|ring ~ 0 chain
values|chain|--owners|2 ~ 0 chain
check|fault|--owners|64|--deal|blocks|--mail|ring ~ 1 fault
values|chain|--owners|2|--cut|two ~ 0 chain two
check|--mail|ring|--cut|one|fault ~ 1 fault one
replay|circle|--schedule|first ~ 0 circle first
replay|--schedule|second|--cut|two|--owners|2|circle ~ 0 circle two second
// Also if it is refused.
values|lost ~ 2 lost
check|large ~ 3 large
values|syntax ~ 2 syntax
values|chain|--cut|strangers ~ 2 chain strangers
values|chain|--cut|large ~ 3 chain large
replay|circle|--schedule|lost ~ 2 circle lost
replay|circle|--owners|2|--cut|two|--schedule|vague ~ 2 circle two vague
// Each is another text, also where the paths are the same.
values|chain|--cut|chain ~ 2 chain chain
replay|circle|--schedule|circle ~ 2 circle circle
// Words that are no line, and help, ask for none.
values|chain|--owners|0 ~ 2
values|chain|--deal|round|--cut|one ~ 2
replay|circle|--cut|one ~ 2
check|--help ~ 0
";

// Words whose file is refused. The cut file and the schedule are left alone.
const FILE_REFUSED: &str = "
values|lost|--cut|one ~ 2 lost
check|large|--cut|one|--owners|2 ~ 3 large
check|one|--cut|one ~ 2 one
values|end|--owners|2|--cut|two|--mail|ring ~ 2 end
replay|lost|--cut|one|--schedule|first ~ 2 lost
replay|syntax|--cut|one|--schedule|first ~ 2 syntax
replay|end|--schedule|first ~ 2 end
";

// Words whose cut file is refused, or its list. The schedule is left alone.
const CUT_REFUSED: &str = "
replay|circle|--cut|lost|--schedule|first ~ 2 circle lost
replay|circle|--cut|large|--schedule|first ~ 3 circle large
replay|circle|--schedule|first|--owners|2|--cut|faulty ~ 2 circle faulty
replay|circle|--schedule|first|--owners|2|--cut|short ~ 2 circle short
replay|circle|--cut|two|--schedule|first ~ 2 circle two
";

#[test]
fn each_text_is_read_once(rt: HostRuntime) {
    compare_rows(&rt, Asked::Opened, ONCE);
}

#[test]
fn file_is_judged_before_the_cut_file_is_read(rt: HostRuntime) {
    compare_rows(&rt, Asked::Opened, FILE_REFUSED);
}

#[test]
fn cut_is_judged_before_the_schedule_is_read(rt: HostRuntime) {
    compare_rows(&rt, Asked::Opened, CUT_REFUSED);
}
