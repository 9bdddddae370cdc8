//! Statements and terminators of bodies: what each form uses, defines and drops, where it goes on,
//! and how many edges leave its point.
use super::body_text::Asked;
use super::rows::{Table, compare_tables};

// The lines before the first point of a body, and what is reported before that point.
const DECLARED: &str = "nll-mir 1|region 'r|struct S(int)|let _0: int|let _1: int|\
    let _2: &'r int|let _3: (int, int)|let _4: S|blocks 2|block bb0|";

const TOLD: &str = "universal 'static|region 'r|5 variables|";

// What each form of statement uses, defines and drops. Each comes before a `stop`.
const STATEMENTS: &str = "
_1 = const ~ bb0/0 to 1 defines 1
_1 = copy _0 ~ bb0/0 to 1 uses 0 defines 1
_1 = move _3.1 ~ bb0/0 to 1 uses 3 defines 1
_3.0 = copy _1 ~ bb0/0 to 1 uses 1 3
_2 = &'r _1 ~ bb0/0 to 1 uses 1 defines 2
_2.* = move _1 ~ bb0/0 to 1 uses 1 2
_3 = make (int, int)(copy _1, const) ~ bb0/0 to 1 uses 1 defines 3
_4 = make S(copy _1) ~ bb0/0 to 1 uses 1 defines 4
read _4.0 ~ bb0/0 to 1 uses 4
live _4 ~ bb0/0 to 1 defines 4
dead _4 ~ bb0/0 to 1 defines 4
nop ~ bb0/0 to 1
";

// What each form of terminator uses, defines and drops. The body has one block more, at point 1.
const TERMINATORS: &str = "
goto bb1 ~ bb0/0 to 1
goto bb0 ~ bb0/0 to 0
switch copy _1 bb1 bb0 bb1 ~ bb0/0 to 1 0 uses 1
switch const bb1 ~ bb0/0 to 1
drop _4 -> bb1 ~ bb0/0 to 1 drops 4
drop _4 -> bb1 unwind bb0 ~ bb0/0 to 1 0 drops 4
_1 = call f(): int -> bb1 ~ bb0/0 to 1 defines 1
_4.0 = call f(copy _1: int, move _3.0: int): int where 'r: 'r -> bb1 unwind bb0 ~ bb0/0 to 1 \
0 uses 1 3 4
return ~ bb0/0 returns uses 0
stop ~ bb0/0
";

// How many edges leave the point of each line, and whether the block ends with it.
const EXITS: &str = "
_1 = const|stop| ~ 1
_1 = move _3.1|stop| ~ 1
_3.0 = copy _1|stop| ~ 1
_2 = &'r _1|stop| ~ 1
_3 = make (int, int)(copy _1, const)|stop| ~ 1
read _4.0|stop| ~ 1
live _4|stop| ~ 1
dead _4|stop| ~ 1
nop|stop| ~ 1
goto bb0| ~ 1 ends
switch copy _1 bb1 bb0 bb1| ~ 2 ends
switch const bb1| ~ 1 ends
drop _4 -> bb1| ~ 1 ends
drop _4 -> bb1 unwind bb0| ~ 2 ends
drop _4 -> bb1 unwind bb1| ~ 1 ends
_4.0 = call f(copy _1: int, move _3.0: int): int -> bb1 unwind bb0| ~ 2 ends
return| ~ 0 ends
stop| ~ 0 ends
";

// Each block to which a line goes on is one edge.
const TABLES: &[Table<'static>] = &[
    (
        Asked::All,
        (DECLARED, "|stop|block bb1|stop|end|"),
        (TOLD, "|bb0/1|bb1/0|"),
        STATEMENTS,
    ),
    (
        Asked::All,
        (DECLARED, "|block bb1|stop|end|"),
        (TOLD, "|bb1/0|"),
        TERMINATORS,
    ),
    (
        Asked::First,
        (DECLARED, "block bb1|stop|end|"),
        ("", ""),
        EXITS,
    ),
];

// What each form of statement and terminator does.
#[test]
fn lines_do_what_they_say(rt: HostRuntime) {
    compare_tables(&rt, rt.alloc(), TABLES);
}
