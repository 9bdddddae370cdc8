//! The program when owners are asked for.
use super::program::{NEVER, USAGE_LINE};
use super::rows::{ALONE, Asked, compare_rows, compare_same};

// Words that ask for the values of the chain, by owners of all numbers and deals.
const CHAIN: &str = "
values|chain|--owners|1
values|chain|--owners|2
values|chain|--owners|16
values|chain|--owners|64
values|chain|--owners|2|--deal|round
values|chain|--owners|16|--deal|round
values|chain|--owners|64|--deal|round
values|chain|--owners|1|--deal|blocks
values|chain|--owners|2|--deal|blocks
values|chain|--owners|16|--deal|blocks
values|chain|--owners|64|--deal|blocks
values|--owners|3|chain|--mail|queue
values|--owners|3|chain|--mail|ring
values|chain|--mail=ring|--cut|two|--owners|64
values|chain|--mail|ring
values|chain|--cut|one
values|chain|--owners|2|--cut|one
values|chain|--owners|2|--cut|two
values|chain|--cut|two|--owners|64|--mail|queue
// No owners are asked for.
values|chain|--deal|blocks
values|chain|--mail|queue
";

const CHAIN_VALUES: &str = "0>'static: 0 1 2 end('static)|'1: 1 2|'2: 1 2|>";

// Words that ask for owners, and what the program does with them.
const ANSWERED: &str = "
check|chain|--owners|2 ~ 0>ok|>
values|fault|--owners|2 ~ 0>'static: 0 1 end('static)|'a: 0 1 end('a) end('b)|'b: 0 1 end('b)|>
check|fault|--owners|1 ~ 1>fault 'a must outlive 'b|>
check|fault|--owners|2|--deal|blocks ~ 1>fault 'a must outlive 'b|>
check|fault|--cut|one ~ 1>fault 'a must outlive 'b|>
check|healed|--owners|16 ~ 0>ok|>
";

// Words whose file or cut file is refused, and what the program does with them.
const REFUSED: &str = "
check|chain|--owners|16|--cut|stranger ~ 2>>nllc: cut: no such owner at 1|
values|chain|--owners|16|--cut|strangers ~ 2>>nllc: cut: no such owner at 0|
values|chain|--owners|17|--cut|strangers ~ 2>>nllc: cut: no such owner at 2|
// There is one owner where no number is given.
values|chain|--cut|two ~ 2>>nllc: cut: no such owner at 0|
values|chain|--owners|2|--cut|none ~ 2>>nllc: cut: length|
// The length comes before an entry that names no owner.
values|chain|--owners|2|--cut|long ~ 2>>nllc: cut: length|
values|chain|--owners|2|--cut|faulty ~ 2>>nllc: cut line 3: syntax|
values|chain|--owners|2|--cut|wide ~ 2>>nllc: cut line 2: range|
values|chain|--owners|2|--cut|chain ~ 2>>nllc: cut line 1: header|
values|chain|--owners|2|--cut|empty ~ 2>>nllc: cut line 1: header|
values|chain|--owners|2|--cut|missing ~ 2>>nllc: cannot read missing|
values|chain|--cut|large ~ 3>>nllc: memory|
// The file is dealt with before the cut file is opened.
values|syntax|--cut|missing ~ 2>>nllc: line 3: syntax|
check|end|--owners|2|--cut|faulty ~ 2>>nllc: line 4: end|
values|lost|--cut|missing ~ 2>>nllc: cannot read lost|
values|large|--cut|missing ~ 3>>nllc: memory|
values|lost|--owners|2 ~ 2>>nllc: cannot read lost|
values|one|--owners|2 ~ 2>>nllc: line 1: header|
";

// Words that are no line.
const NO_LINES: &str = "
values|chain|--owners|02
values|chain|--owners|two
values|chain|--owners
values|chain|--owners|2|--owners|2
values|chain|--owners|2|--deal|turns
values|chain|--owners|3|--deal|round|--cut|one
values|chain|--owners|2|--mail|rings
";

// The report of owners is that of one thread, however the regions are assigned to them.
#[test]
fn owners_answer_as_one_thread(rt: HostRuntime) {
    let program = Asked::Program(NEVER, NEVER);
    compare_same(&rt, program, ALONE, CHAIN_VALUES, CHAIN);
    compare_rows(&rt, program, ANSWERED);
}

// A faulty file comes before its cut file, and a faulty cut file before a list that is no cut.
#[test]
fn cuts_are_refused(rt: HostRuntime) {
    let program = Asked::Program(NEVER, NEVER);
    compare_rows(&rt, program, REFUSED);
    compare_same(&rt, program, ALONE, USAGE_LINE, NO_LINES);
}
