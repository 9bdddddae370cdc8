//! Laws of the model: functions that do nothing, whose contracts hold of all worlds.

ghost use Rattle.std.specs.Prelude.{ℕ, List, Option};
ghost use Rattle.nll_problem.specs.Problem.{Problem, IsSound};
ghost use Rattle.nll_cut.specs.Partition.{Cut};
ghost use Rattle.nll_owner.specs.Logs.{IsCutOf};
ghost use Rattle.nll_model.specs.State.{WorldState, IsFirst};
ghost use Rattle.nll_model.specs.Events.{AreSteps};
ghost use Rattle.nll_model.specs.Soundness.{IsSoundState, IsOrderly, IsLawful, AreRanksLow};
ghost use Rattle.nll_model.specs.declared.event.Event.{Event};
ghost use Rattle.nll_model.specs.declared.outcome.Step.{Step};

/// States that in a sound state the logs say only what the least values have, that at a balance of
/// 0 nothing is under way and they say exactly that, and that no rank reaches 2^37.
pub fn sound_states_are_lawful()
    ensures { (q : Problem) (c : Cut) (w : WorldState)
        → IsSound q → IsCutOf q c → IsSoundState q c w → IsLawful q c w }
{}

/// States that each state to which events lead from the first one is lawful, by whatever
/// well-formed and well-supported logs.
pub fn steps_are_lawful()
    ensures { (q : Problem) (c : Cut) (first last : WorldState)
        (events : List Event) (answers : List (Option Step))
        → IsSound q → IsCutOf q c → IsFirst q c first → AreSteps first events answers last
        → IsLawful q c last }
{}

/// States that in an orderly state, as every state is, even after memory was refused, no rank
/// reaches 2^37.
pub fn orderly_states_have_low_ranks()
    ensures { (q : Problem) (c : Cut) (w : WorldState) → IsOrderly q c w → AreRanksLow w }
{}
