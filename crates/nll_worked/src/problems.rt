//! The worked problems.

use crate::written::Written;
use nll_problem::At::{All, Point};

/// A region gets what is reached from the point.
pub const REACHED: Written = Written {
    points: 3,
    variables: 2,
    full: &[],
    bases: &[(1, 1), (1, 2)],
    constraints: &[(2, 1, Point(1))],
};

/// A region gets what another one holds, at all points.
pub const EVERYWHERE: Written = Written {
    points: 5,
    variables: 2,
    full: &[],
    bases: &[(1, 0), (1, 1), (1, 3), (1, 4)],
    constraints: &[(2, 1, All)],
};

/// Two regions grow by turns.
pub const BY_TURNS: Written = Written {
    points: 2,
    variables: 2,
    full: &[],
    bases: &[(1, 0), (2, 1)],
    constraints: &[(2, 1, Point(0)), (1, 2, Point(0))],
};

/// A hole that is filled opens the way.
pub const FILLED_HOLE: Written = Written {
    points: 3,
    variables: 3,
    full: &[],
    bases: &[(1, 0), (1, 2), (3, 1)],
    constraints: &[(1, 3, Point(1)), (2, 1, Point(0))],
};

/// A region gets what two others hold.
pub const TWO_SOURCES: Written = Written {
    points: 3,
    variables: 3,
    full: &[],
    bases: &[(1, 0), (1, 1), (2, 2)],
    constraints: &[(3, 1, Point(0)), (3, 2, Point(2))],
};

/// One point, and no region but the universal one.
pub const ONE_POINT: Written = Written {
    points: 1,
    variables: 0,
    full: &[],
    bases: &[],
    constraints: &[],
};

/// A region has more points than a ring has places, and another one gets them all.
pub const MANY: Written = Written {
    points: 300,
    variables: 2,
    full: &[1],
    bases: &[],
    constraints: &[(2, 1, Point(0))],
};

/// Two regions have more points than a ring has places, and each gets those of the other.
pub const MANY_BOTH_WAYS: Written = Written {
    points: 300,
    variables: 2,
    full: &[1, 2],
    bases: &[],
    constraints: &[(2, 1, Point(0)), (1, 2, Point(0))],
};
