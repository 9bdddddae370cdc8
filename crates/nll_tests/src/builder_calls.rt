//! Calls of a builder: what they answer, and the problems that they make.
use super::calls::Call::{Base, Holds, HoldsEverywhere, Next, Outlives, Region, Ret, Run};
use super::calls::Calls;
use super::problem_text::OfProblem::{Facts, Readers};
use super::rows::Asked::{Behind, Made, New};
use super::rows::{Row, compare_rows};
use super::transcript::Transcript;
use nll_core::ProblemBuilder;
use nll_problem::GraphBuilder;

/// Writes why a problem's builder and a graph's can't be made.
pub fn write_new(out: &mut Transcript, points: u32, universals: u32) {
    out.show(
        "",
        &ProblemBuilder::new(out.alloc, points, universals).err(),
    );
    out.show(" ", &GraphBuilder::new(out.alloc, points, universals).err());
}

// Numbers of points and of universal regions, and the error that is due of both builders.
const NEW: &[Row] = &[
    ("the fewest", New(1, 1), "None None"),
    ("the most", New(1_048_576, 256), "None None"),
    ("nothing", New(0, 0), "Some(PointRange) Some(PointRange)"),
    ("no point", New(0, 1), "Some(PointRange) Some(PointRange)"),
    (
        "no point, which is told before the limit",
        New(0, 257),
        "Some(PointRange) Some(PointRange)",
    ),
    (
        "no universal region",
        New(1, 0),
        "Some(RegionRange) Some(RegionRange)",
    ),
    (
        "no universal region, which is told before the limit",
        New(1_048_577, 0),
        "Some(RegionRange) Some(RegionRange)",
    ),
    (
        "a point more than the limit",
        New(1_048_577, 1),
        "Some(Limit(Points)) Some(Limit(Points))",
    ),
    (
        "more points and universal regions than the limits",
        New(1_048_577, 257),
        "Some(Limit(Points)) Some(Limit(Points))",
    ),
    (
        "a universal region more than the limit",
        New(1, 257),
        "Some(Limit(Universals)) Some(Limit(Universals))",
    ),
];

// The calls that make the region 2.
const REGION: (Calls, u32) = (Calls::Regions, 1);

// Calls after two points, two universal regions and the region 2, and what they answer.
const CALLS: &[Row] = &[
    (
        "universal regions",
        Behind((2, 2), REGION, &[Outlives(1, 0), Outlives(1, 1)]),
        "Ok(())|Ok(())|",
    ),
    (
        "an outlives fact of a region that isn't universal",
        Behind((2, 2), REGION, &[Outlives(0, 2), Outlives(2, 0)]),
        "Err(RegionRange)|Err(RegionRange)|",
    ),
    (
        "edges back and to their own point",
        Behind((2, 2), REGION, &[Next(1, 0), Next(1, 1)]),
        "Ok(())|Ok(())|",
    ),
    (
        "edges from no point and to none",
        Behind((2, 2), REGION, &[Next(2, 0), Next(0, 2)]),
        "Err(PointRange)|Err(PointRange)|",
    ),
    (
        "the last point returns, and one that isn't there",
        Behind((2, 2), REGION, &[Ret(1), Ret(2)]),
        "Ok(())|Err(PointRange)|",
    ),
    (
        "a base fact of the last region, and of none",
        Behind((2, 2), REGION, &[Base(2, 1), Base(3, 1)]),
        "Ok(())|Err(RegionRange)|",
    ),
    (
        "base facts of no point, which is told first",
        Behind((2, 2), REGION, &[Base(2, 2), Base(3, 2)]),
        "Err(PointRange)|Err(PointRange)|",
    ),
    (
        "runs of base facts: to the last point, past it, of no region, of neither, and of no point",
        Behind(
            (2, 2),
            REGION,
            &[
                Run(2, 0, 2),
                Run(2, 1, 3),
                Run(3, 0, 2),
                Run(3, 1, 3),
                Run(3, 3, 3),
            ],
        ),
        "Ok(())|Err(PointRange)|Err(RegionRange)|Err(PointRange)|Ok(())|",
    ),
    (
        "constraints of the last region, of none and on none",
        Behind(
            (2, 2),
            REGION,
            &[Holds(2, 0, 1), Holds(3, 0, 1), Holds(0, 3, 1)],
        ),
        "Ok(())|Err(RegionRange)|Err(RegionRange)|",
    ),
    (
        "constraints at no point, which is told first",
        Behind((2, 2), REGION, &[Holds(2, 0, 2), Holds(3, 3, 2)]),
        "Err(PointRange)|Err(PointRange)|",
    ),
    (
        "constraints at all points, of the last region, of none and on none",
        Behind(
            (2, 2),
            REGION,
            &[
                HoldsEverywhere(2, 0),
                HoldsEverywhere(3, 0),
                HoldsEverywhere(0, 3),
            ],
        ),
        "Ok(())|Err(RegionRange)|Err(RegionRange)|",
    ),
];

// Points, calls that come to a limit, further ones, and what these answer.
const FULL: &[Row] = &[
    (
        "behind as many as the limit allows",
        Behind((1, 256), (Calls::Regions, 65_279), &[Region, Region]),
        "Ok(())|Err(Limit(Regions))|",
    ),
    // A new edge, and the last one again.
    (
        "behind as many as the limit allows",
        Behind(
            (2049, 256),
            (Calls::Edges, 4_194_304),
            &[Next(0, 2048), Next(2047, 2047)],
        ),
        "Err(Limit(Edges))|Ok(())|",
    ),
    // A new constraint, one of no region, and the last one again. One at all points is new where
    // each point has one, and one at a point is where all points have one.
    (
        "behind as many as the limit allows",
        Behind(
            (4096, 256),
            (Calls::Constraints, 1_048_576),
            &[
                Holds(255, 1, 0),
                Holds(256, 0, 0),
                Holds(255, 0, 4095),
                HoldsEverywhere(255, 0),
            ],
        ),
        "Err(Limit(Constraints))|Err(RegionRange)|Ok(())|Err(Limit(Constraints))|",
    ),
    (
        "behind as many as the limit allows, some of them at all points",
        Behind(
            (4096, 256),
            (Calls::ConstraintsEverywhere, 1_048_576),
            &[
                HoldsEverywhere(255, 1),
                Holds(255, 0, 0),
                Holds(255, 0, 4095),
                HoldsEverywhere(255, 0),
            ],
        ),
        "Err(Limit(Constraints))|Err(Limit(Constraints))|Ok(())|Ok(())|",
    ),
];

// A builder is made of as many points and universal regions as the limits allow, and of no more. A
// number out of range is refused, a point before a region.
#[test]
fn builders_refuse(rt: HostRuntime) {
    compare_rows(&rt, rt.alloc(), NEW);
    compare_rows(&rt, rt.alloc(), CALLS);
}

// Where a limit is reached, a new fact is refused and an old one is not.
#[test]
fn refuses_new_facts_past_the_limits(rt: HostRuntime) {
    compare_rows(&rt, rt.alloc(), FULL);
}

// Points, universal regions and calls, and what the problem reports.
const MADE: &[Row] = &[
    (
        "'static alone",
        Made((1, 1), &[], Facts),
        "0 to [] from []|out []|0: 0 1|",
    ),
    (
        "a universal region has its own end",
        Made((1, 3), &[], Facts),
        "0 to [] from []|out []|0: 0 1|1: 0 2|2: 0 3|",
    ),
    (
        "a region has nothing at first",
        Made((1, 1), &[Region, Region], Facts),
        "0 to [] from []|out []|0: 0 1|1:|2:|",
    ),
    (
        "an edge to its own point, and a return point that has an edge",
        Made((3, 1), &[Next(0, 1), Next(1, 1), Next(2, 0), Ret(2)], Facts),
        "0 to [1] from [2]|1 to [1] from [0, 1]|2 to [0] from [] and out|out [2]|0: 0 1 2 3|",
    ),
    (
        "a base fact of a universal region says nothing new",
        Made((2, 2), &[Region, Base(2, 1), Base(1, 0)], Facts),
        "0 to [] from []|1 to [] from []|out []|0: 0 1 2|1: 0 1 3|2: 1|1 has 0|2 has 1|",
    ),
    (
        "base facts ascend, whatever their order",
        Made(
            (2, 1),
            &[
                Region,
                Region,
                Base(2, 1),
                Base(1, 1),
                Base(2, 0),
                Base(1, 1),
            ],
            Facts,
        ),
        "0 to [] from []|1 to [] from []|out []|0: 0 1 2|1: 1|2: 0 1|1 has 1|2 has 0|2 has 1|",
    ),
    (
        "base facts and runs of them that go on, overlap, touch and are empty",
        Made(
            (5, 1),
            &[
                Region,
                Region,
                Run(2, 3, 5),
                Run(1, 1, 3),
                Base(1, 3),
                Run(1, 0, 2),
                Base(2, 0),
                Run(2, 2, 4),
                Run(1, 4, 4),
            ],
            Facts,
        ),
        "0 to [] from []|1 to [] from []|2 to [] from []|3 to [] from []|4 to [] from []|out []|\
         0: 0 1 2 3 4 5|1: 0 1 2 3|2: 0 2 3 4|1 has 0|1 has 1|1 has 2|1 has 3|\
         2 has 0|2 has 2|2 has 3|2 has 4|",
    ),
    (
        "a constraint and outlives facts",
        Made(
            (1, 3),
            &[Region, Holds(3, 1, 0), Outlives(1, 0), Outlives(2, 2)],
            Facts,
        ),
        "0 to [] from []|out []|0: 0 1|1: 0 2|2: 0 3|3:|3 holds 1 at 0|\
         1 over 0, back false|2 over 2, back true|",
    ),
    (
        "a constraint at all points, and one of the same regions at a point",
        Made(
            (1, 1),
            &[Region, Holds(1, 0, 0), HoldsEverywhere(1, 0)],
            Facts,
        ),
        "0 to [] from []|out []|0: 0 1|1:|1 holds 0 at 0|1 holds 0 at all|",
    ),
    (
        "each fact twice",
        Made(
            (2, 1),
            &[
                Region,
                Next(0, 1),
                Ret(1),
                Base(1, 1),
                Holds(1, 0, 1),
                Next(0, 1),
                Ret(1),
                Base(1, 1),
                Holds(1, 0, 1),
            ],
            Facts,
        ),
        "0 to [1] from []|1 to [] from [0] and out|out [1]|0: 0 1 2|1: 1|1 has 1|1 holds 0 at 1|",
    ),
];

// Constraints, and those that read each region, by their larger region and then by their point: the
// one at all points comes first.
const READ: &[Row] = &[
    ("none", Made((2, 1), &[Region], Readers), "0:|1:|"),
    (
        "in another order",
        Made(
            (2, 1),
            &[
                Region,
                Region,
                Holds(2, 1, 1),
                Holds(1, 2, 0),
                Holds(2, 1, 0),
                Holds(1, 1, 1),
                Holds(0, 2, 1),
            ],
            Readers,
        ),
        "0:|1: 1 at 1 2 at 0 2 at 1|2: 0 at 1 1 at 0|",
    ),
    (
        "in order, and one twice",
        Made(
            (2, 1),
            &[Region, Holds(0, 0, 0), Holds(1, 0, 1), Holds(1, 0, 1)],
            Readers,
        ),
        "0: 0 at 0 1 at 1|1:|",
    ),
    (
        "at all points too",
        Made(
            (2, 1),
            &[
                Region,
                Holds(1, 0, 1),
                HoldsEverywhere(1, 0),
                Holds(1, 0, 0),
                HoldsEverywhere(0, 0),
                HoldsEverywhere(1, 0),
            ],
            Readers,
        ),
        "0: 0 at all 1 at all 1 at 0 1 at 1|1:|",
    ),
];

// A problem reports the facts that were said of it, and an index of it gives the constraints that
// read a region.
#[test]
fn makes_problems(rt: HostRuntime) {
    compare_rows(&rt, rt.alloc(), MADE);
    compare_rows(&rt, rt.alloc(), READ);
}
