//! Calls of a problem's builder, what they answer, and what the problems report that they make.
use super::problem_text::{OfProblem, tell};
use super::transcript::Transcript;
use nll_core::{At, BuildError, Constraint, ProblemBuilder, RegionId};
use nll_problem::BaseRun;

/// A call of a builder.
#[derive(Clone, Copy)]
pub enum Call {
    Region,
    Outlives(u32, u32),
    Next(u32, u32),
    Ret(u32),
    Base(u32, u32),
    // The region, the first point and the end.
    Run(u32, u32, u32),
    // The larger region, the smaller one and the point.
    Holds(u32, u32, u32),
    // The larger region and the smaller one, at all points.
    HoldsEverywhere(u32, u32),
}

/// Calls, one after another.
#[derive(Clone, Copy)]
pub enum Calls {
    Listed(&'static [Call]),
    /// New regions.
    Regions,
    /// Edges from 0 to each point below 2048, then from 1 to each of them, and so on.
    Edges,
    /// Seven regions, then random edges, return points, base facts and constraints of nine points
    /// and nine regions.
    Random(u32),
    /// Constraints of the region 0 on 'static at each point below 4096, then of the region 1.
    Constraints,
    /// Like `Constraints`, but the first of each region holds at all points.
    ConstraintsEverywhere,
}

// The call that comes after this many.
fn call_at(calls: Calls, place: u32) -> Option<Call> {
    match calls {
        Calls::Listed(calls) => calls.get(place as usize).copied(),
        Calls::Regions => Some(Call::Region),
        Calls::Edges => Some(Call::Next(place / 2048, place % 2048)),
        Calls::Random(seed) => Some(random_call(seed, place)),
        Calls::Constraints => Some(Call::Holds(place / 4096, 0, place % 4096)),
        Calls::ConstraintsEverywhere if place % 4096 == 0 => {
            Some(Call::HoldsEverywhere(place / 4096, 0))
        }
        Calls::ConstraintsEverywhere => Some(Call::Holds(place / 4096, 0, place % 4096)),
    }
}

// A call of a problem of nine points and two universal regions, by a number that looks random.
fn random_call(seed: u32, place: u32) -> Call {
    let sum = seed.wrapping_mul(2_654_435_761) ^ place.wrapping_mul(2_246_822_519);
    let once = (sum ^ (sum >> 15)).wrapping_mul(3_266_489_917);
    let number = (once ^ (once >> 13)).wrapping_mul(668_265_263) >> 4;
    let (first, second, third) = (number / 8 % 9, number / 72 % 9, number / 648 % 9);
    if place < 7 {
        return Call::Region;
    }
    match number % 8 {
        0 => Call::Next(first, second),
        1 => Call::Next(first, (first + 1) % 9),
        2 | 3 => Call::Base(first, second),
        4 => Call::Run(first, second, 9.min(second + third)),
        5 if third < 3 => Call::Ret(first),
        7 if third < 3 => Call::HoldsEverywhere(first, second),
        _ => Call::Holds(first, second, third),
    }
}

// Makes a call.
fn make(builder: &mut ProblemBuilder, call: Call) -> Result<(), BuildError> {
    match call {
        Call::Region => builder.region().and(Ok(())),
        Call::Outlives(longer, shorter) => builder.outlives(RegionId(longer), RegionId(shorter)),
        Call::Next(from, to) => builder.next(from, to),
        Call::Ret(point) => builder.ret(point),
        Call::Base(region, point) => builder.base(RegionId(region), point),
        Call::Run(region, first, end) => builder.base_run(BaseRun {
            region: RegionId(region),
            first,
            end,
        }),
        Call::Holds(sup, sub, at) => builder.constraint(Constraint {
            sup: RegionId(sup),
            sub: RegionId(sub),
            at: At::Point(at),
        }),
        Call::HoldsEverywhere(sup, sub) => builder.constraint(Constraint {
            sup: RegionId(sup),
            sub: RegionId(sub),
            at: At::All,
        }),
    }
}

// Makes the first calls, this many of them.
fn make_first(out: &mut Transcript, builder: &mut ProblemBuilder, calls: Calls, count: u32) {
    for place in 0..count {
        if let Some(call) = call_at(calls, place) {
            let made = make(builder, call);
            out.note(made);
        }
    }
}

// Makes calls, and writes what they answer, each followed by a bar.
fn write_answers(out: &mut Transcript, builder: &mut ProblemBuilder, calls: &[Call]) {
    for call in calls {
        let made = make(builder, *call);
        out.show("", &made);
        out.say("|");
    }
}

/// Writes what calls answer after this many others.
pub fn write_behind(
    out: &mut Transcript,
    numbers: (u32, u32),
    first: (Calls, u32),
    calls: &[Call],
) {
    if let Ok(mut builder) = ProblemBuilder::new(out.alloc, numbers.0, numbers.1) {
        make_first(out, &mut builder, first.0, first.1);
        write_answers(out, &mut builder, calls);
        drop(builder);
    }
}

/// Writes what the problem reports that this many of the first calls make.
pub fn write_problem(
    out: &mut Transcript,
    numbers: (u32, u32),
    first: (Calls, u32),
    asked: OfProblem,
) {
    if let Ok(mut builder) = ProblemBuilder::new(out.alloc, numbers.0, numbers.1) {
        make_first(out, &mut builder, first.0, first.1);
        if let Ok(problem) = builder.finish() {
            tell(out, &problem, asked);
            drop(problem);
        }
    }
}

/// Writes what both solvers make of a random problem of nine points and two universal regions.
pub fn write_random(out: &mut Transcript, seed: u32) {
    let first = (Calls::Random(seed), 20 + seed % 60);
    write_problem(out, (9, 2), first, OfProblem::BothSolvers);
}
