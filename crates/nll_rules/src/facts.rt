//! The facts of a body that are known before its statements ask anything.

ghost use Rattle.std.specs.Prelude.{◌≡◌, ◌<◌, ◌≤◌, IfErr, OnOk};
ghost use Rattle.nll_problem.specs.BaseRuns.{AddsRun, IsProper};
ghost use Rattle.nll_problem.specs.Limits.{most_regions};
ghost use Rattle.nll_rules.specs.Adding.{AddsBases, AddsOutlives, AreOfPoints, AreOfUniversals};

use nll_problem::{BaseRun, BuildError, ProblemBuilder, RegionId};

/// Adds the regions that aren't universal, so that there are this many in all.
pub(crate) fn add_regions(builder: &mut ProblemBuilder, universals: u32, count: usize)
    requires universals { builder.old.regions ≡ universals }
    requires more { universals ≤ count }
    requires few { count ≤ most_regions }
    ensures { builder.new ≡ record builder.old { regions = count } }
{
    for number in universals as usize..count {
        match builder.region() {
            Ok(_) => {}
            Err(_) => unreachable!(),
        }
    }
}

/// Adds outlives facts.
pub(crate) fn add_outlives(
    builder: &mut ProblemBuilder,
    facts: &[(u32, u32)],
) -> Result<(), BuildError>
    requires { AreOfUniversals facts.now builder.old }
    ensures ok { OnOk result (AddsOutlives facts.now builder.old builder.new) }
    ensures err { IfErr result (λ e. e ≡ BuildError.Memory) }
{
    for fact in facts {
        builder.outlives(RegionId(fact.0), RegionId(fact.1))?;
    }
    Ok(())
}

/// Adds base facts, by runs.
pub(crate) fn add_bases(builder: &mut ProblemBuilder, runs: &[BaseRun]) -> Result<(), BuildError>
    requires { AreOfPoints runs.now builder.old }
    ensures ok { OnOk result (AddsBases runs.now builder.old builder.new) }
    ensures err { IfErr result (λ e. e ≡ BuildError.Memory) }
{
    for run in runs {
        add_run(builder, *run)?;
    }
    Ok(())
}

// Adds the base facts of a run.
fn add_run(builder: &mut ProblemBuilder, run: BaseRun) -> Result<(), BuildError>
    requires region { IsProper run → run.region < builder.old.regions }
    requires points { IsProper run → run.end ≤ builder.old.graph.points }
    ensures ok { OnOk result (AddsRun builder.old.bases builder.new.bases run) }
    ensures others { builder.new ≡ record builder.old { bases = builder.new.bases } }
    ensures err { IfErr result (λ e. e ≡ BuildError.Memory) }
{
    builder.base_run(run)?;
    Ok(())
}
