//! The versions of facts texts, and which lines each has.

ghost use Rattle.std.specs.Prelude.{◌≡◌};
ghost use Rattle.nll_facts.specs.FactsLines.{facts_view};
ghost use Rattle.nll_facts.specs.FactsVersions as spec;

use crate::line::Line;
use nll_problem::At;

/// A version of facts texts.
#[derive(Clone, Copy, PartialEq, Eq)]
pub enum Version {
    /// Without constraints at all points.
    First,
    Second,
}

/// Whether a line may be in a text of the version.
pub fn is_of_version(version: Version, line: &Line<'_>) -> bool
    ensures { result ≡ spec.is_fact_of_version version (facts_view line.now) }
{
    match version {
        Version::First => match line {
            Line::Constraint(_, _, At::All) => false,
            _ => true,
        },
        Version::Second => true,
    }
}
