//! Names of regions and of points.
use super::answers::write_report;
use super::comparison::compare;
use super::notes::{count, say, show};
use nll_core::{Problem, ProblemBuilder, RegionId};
use nll_facts::Facts;
use nll_format::{Labels, Names};
use nll_mir_text::read_mir;
use nll_report::{Command, answer_of};
use std::alloc::{AllocError, Global};
use std::process::Abort;

// A problem of this many regions and points, which lead to one another in a row; the last one
// returns. The region 1 has the points as base elements.
fn problem_of(rt: &impl Abort, alloc: Global, regions: u32, points: u32, bases: &[u32]) -> Problem {
    let mut builder = ProblemBuilder::new(alloc, points, 1).expect(rt, "a graph");
    for point in 1..points {
        builder.next(point - 1, point).expect(rt, "an edge");
    }
    builder.ret(points.saturating_sub(1)).expect(rt, "a point");
    for _ in 1..regions {
        let _region = builder.region().expect(rt, "a region");
    }
    for point in bases {
        builder.base(RegionId(1), *point).expect(rt, "a base");
    }
    builder.finish().expect(rt, "memory")
}

// Writes how points are named.
fn write_points(out: &mut String, labels: &Labels, points: u32) {
    for point in 0..points {
        show(out, &labels.point(point));
        say(out, "|");
    }
}

// Writes the values of a problem whose points and regions have these names.
fn write_values(rt: &impl Abort, alloc: Global, out: &mut String, facts: Facts) {
    assert!(rt; facts.labels.regions() == facts.problem.regions() as usize);
    let answered = answer_of(alloc, Command::Values, facts);
    let (report, status) = answered.expect(rt, "memory");
    write_report(out, report.as_slice(), status);
}

// How points are named, and the values of a problem of this many points, whose region 1 has these
// base elements.
fn labels_told(
    rt: &impl Abort,
    alloc: Global,
    labels: Labels,
    points: u32,
    bases: &[u32],
) -> String {
    let mut out = String::new(alloc);
    write_points(&mut out, &labels, points);
    let regions = labels.regions().min(100) as u32;
    let problem = problem_of(rt, alloc, regions, points, bases);
    write_values(rt, alloc, &mut out, Facts { problem, labels });
    out
}

// Adds a name if it is new, and returns whether it was.
fn add(rt: &impl Abort, alloc: Global, names: &mut Names, name: &str) -> bool {
    let is_new = names.number_of(name.as_bytes()).is_none();
    if is_new {
        names.add(alloc, name.as_bytes()).expect(rt, "memory");
    }
    is_new
}

// Writes all names in their order, and the places of some.
fn write_names(out: &mut String, names: &Names) {
    for number in 0..names.len() {
        say(out, names.name(number));
        say(out, "|");
    }
    for name in ["static", "b", "c"] {
        say(out, name);
        say(out, " ");
        show(out, &names.number_of(name.as_bytes()));
        say(out, "|");
    }
}

// What names report when these are added: of each whether it is new, then all of them.
fn names_told(rt: &impl Abort, alloc: Global, added: &[&str]) -> String {
    let mut out = String::new(alloc);
    let mut names = Names::new(alloc).expect(rt, "memory");
    for name in added {
        let is_new = add(rt, alloc, &mut names, name);
        say(&mut out, name);
        say(&mut out, if is_new { " true|" } else { " false|" });
    }
    write_names(&mut out, &names);
    let labels = Labels::new(names);
    let told = labels_told(rt, alloc, labels, 2, &[1]);
    say(&mut out, told.as_str());
    out
}

// A body of two blocks, in which a struct is dropped.
const BODY: &[u8] = b"nll-mir 1
region 'w
struct W<'x +> drop (&'x int)
let _0: int
let _1: W<'w>
blocks 2
block bb0
nop
drop _1 -> bb1
block bb1
return
end
";

// The labels of that body, with the points at which the struct may be dropped.
fn body_told(rt: &impl Abort, alloc: Global) -> String {
    let body = read_mir(alloc, BODY).expect(rt, "a body");
    labels_told(rt, alloc, body.into_labels(), 3, &[0, 1])
}

// Names are in the order in which they were added, each once, after `static`. Points without blocks
// are named by their numbers.
#[test]
fn keeps_names_in_order(rt: HostRuntime) {
    let told = names_told(&rt, rt.alloc(), &["a", "b", "a", "static"]);
    let want = b"a true|b true|a false|static false|static|a|b|static Some(0)|b Some(2)|c None|\
        Number(0)|Number(1)|'static: 0 1 end('static)\n'a: 1\n'b:\n";
    compare(&rt, "names", told, want);
}

// The labels of points of blocks that begin at 0, 3 and 4.
fn three_blocks(alloc: Global) -> Result<Labels, AllocError> {
    let starts = vec![in alloc; 0u32, 3, 4]?;
    Ok(Labels::with_blocks(Names::new(alloc)?, starts))
}

// Like `three_blocks`, of blocks that begin at 0 and 2.
fn two_blocks(alloc: Global) -> Result<Labels, AllocError> {
    let starts = vec![in alloc; 0u32, 2]?;
    Ok(Labels::with_blocks(Names::new(alloc)?, starts))
}

// Points of blocks are named by their block and their place in it, also in a report, and as the
// text of a body names them.
#[test]
fn names_points_by_blocks(rt: HostRuntime) {
    let want = b"Block(0, 0)|Block(0, 1)|Block(0, 2)|Block(1, 0)|Block(2, 0)|Block(2, 1)|\
        'static: bb0/0 bb0/1 bb0/2 bb1/0 bb2/0 bb2/1 end('static)\n";
    let labels = three_blocks(rt.alloc()).expect(&rt, "memory");
    let told = labels_told(&rt, rt.alloc(), labels, 6, &[]);
    compare(&rt, "three blocks", told, want);
    let want = b"Block(0, 0)|Block(0, 1)|Block(1, 0)|\
        'static: bb0/0 bb0/1 bb1/0 end('static)\n";
    let labels = two_blocks(rt.alloc()).expect(&rt, "memory");
    let told = labels_told(&rt, rt.alloc(), labels, 3, &[]);
    compare(&rt, "two blocks", told, want);
    let want = b"Block(0, 0)|Block(0, 1)|Block(1, 0)|\
        'static: bb0/0 bb0/1 bb1/0 end('static)\n'w: bb0/0 bb0/1\n";
    compare(&rt, "a body", body_told(&rt, rt.alloc()), want);
}
