//! Laws of the report: functions that do nothing, whose contracts hold of all replays.

ghost use Rattle.std.specs.Prelude.{◌≡◌, ℕ, List};
ghost use Rattle.nll_problem.specs.Problem.{Problem};
ghost use Rattle.nll_problem.specs.Solution.{Least};
ghost use Rattle.nll_core.specs.Values.{IsHeld};
ghost use Rattle.nll_cut.specs.Partition.{Cut};
ghost use Rattle.nll_model.specs.declared.event.Event.{Event};
ghost use Rattle.nll_format.specs.Labels.{Labels};
ghost use Rattle.nll_answer.specs.Report.{IsValuesReport};
ghost use Rattle.nll_answer.specs.ReplayReport.{IsReplayReport};

/// States that the values of a replay whose balance is 0 are printed as the least values are.
pub fn replay_at_0_is_least()
    ensures { (q : Problem) (labels : Labels) (c : Cut) (events : List Event) (text : List ℕ)
        → (report : IsReplayReport q labels c events text) → report.balance ≡ 0
        → IsValuesReport q labels (Least q) report.printed.lines }
{}

/// States that a replay says only what the least values have, whatever its balance is.
pub fn replay_says_only_least()
    ensures { (q : Problem) (labels : Labels) (c : Cut) (events : List Event) (text : List ℕ)
        → (report : IsReplayReport q labels c events text)
        → (r e : ℕ) → IsHeld report.values r e → Least q r e }
{}
