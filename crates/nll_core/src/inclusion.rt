//! Whether a set is within another, where a look at a few runs is enough to know.

ghost use Rattle.std.specs.Prelude.{◌≡◌, ℕ, true};
ghost use Rattle.nll_core.specs.Search.{IsIn};

use nll_sets::RunSet;

// At most this many runs are looked at, so that it costs no more than a short walk.
const MOST_RUNS: usize = 64;

/// Whether each element of a set is in another one. A set of many runs isn't looked at: the result
/// is then false.
///
/// # Cost
/// At most 64 look-ups (not proved).
pub fn is_seen_within(inner: &RunSet, outer: &RunSet) -> bool
    ensures { result ≡ true → (e : ℕ) → IsIn inner.now e → IsIn outer.now e }
{
    let runs = inner.as_runs();
    if runs.len() > MOST_RUNS {
        return false;
    }
    let mut near = 0;
    for run in runs {
        let (at, Some(other)) = outer.run_near(near, run.first) else {
            return false;
        };
        if run.first < other.first || other.last < run.last {
            return false;
        }
        near = at;
    }
    true
}
