//! Laws of logs and of workers: functions that do nothing, whose contracts hold of all of them.

ghost use Rattle.std.specs.Prelude.{◌≡◌, ◌≢◌, ◌↔◌, ◌<◌, ◌++◌, ℕ, List, [], length, Contains};
ghost use Rattle.fixpoint.specs.Rules.{IsLeast};
ghost use Rattle.fixpoint.specs.Logs.{AreSound, AreSettled, SayLeast, log_of, part};
ghost use Rattle.fixpoint.specs.State.{State};
ghost use Rattle.fixpoint.specs.Sums.{sum_to};
ghost use Rattle.fixpoint.specs.Finishing.{Finishes, AreRanked};
ghost use Rattle.fixpoint.specs.declared.ending.Ending.{Ending};
ghost use Rattle.fixpoint.specs.declared.ending.Ending.TheVariants.{Quiet, Stray};

use crate::rules::Rules;

/// States that at every moment each growth of a log is of the least solution.
pub fn sound_parts_are_right<A: Rules>()
    ensures { (a : A) (logs : List (List A.Growth))
        (received : ℕ → ℕ → List A.Growth)
        → A.rules.valid a → AreSound A.rules a logs received
        → (i : ℕ) (g : A.Growth) → i < A.rules.parts a → Contains (log_of logs i) g
        → IsLeast A.rules a (A.rules.fact g) }
{}

/// States that the logs of settled owners say exactly the least solution.
pub fn settled_parts_agree<A: Rules>()
    ensures { (a : A) (logs : List (List A.Growth))
        (received : ℕ → ℕ → List A.Growth)
        → A.rules.valid a → AreSound A.rules a logs received → AreSettled A.rules a logs received
        → SayLeast A.rules a logs }
{}

/// States that no worker takes a growth that can't be its sender's: `got i j` and `rest i j` are
/// what was taken and what was left of what owner i posted to owner j.
pub fn never_stray<A: Rules>()
    ensures { (a : A) (state : ℕ → State A A.Growth)
        (sent got rest : ℕ → ℕ → List A.Growth) (owed cleared : ℕ → ℕ)
        (ending : ℕ → Ending)
        → ((i : ℕ) → i < A.rules.parts a → Finishes A.rules a i (state i) (sent i)
        (λ j. got j i) (owed i) (cleared i) (ending i))
        → ((i j : ℕ) → i < A.rules.parts a → j < A.rules.parts a
        → sent i j ≡ got i j ++ rest i j)
        → (i : ℕ) → i < A.rules.parts a → ending i ≢ Stray }
{}

/// States that if all workers found the balance 0, and owed and cleared the same in all, each owner
/// received its whole part of each other log, no rank is left out or reaches 2^37, and the logs say
/// exactly the least solution.
pub fn all_quiet<A: Rules>()
    ensures { (a : A) (state : ℕ → State A A.Growth) (logs : List (List A.Growth))
        (sent got rest : ℕ → ℕ → List A.Growth) (owed cleared : ℕ → ℕ)
        (ending : ℕ → Ending) → A.rules.valid a → length logs ≡ A.rules.parts a
        → ((i : ℕ) → i < A.rules.parts a → log_of logs i ≡ (state i).log)
        → ((i : ℕ) → i < A.rules.parts a → Finishes A.rules a i (state i) (sent i)
        (λ j. got j i) (owed i) (cleared i) (ending i))
        → ((i : ℕ) → i < A.rules.parts a → ending i ≡ Quiet)
        → ((i j : ℕ) → i < A.rules.parts a → j < A.rules.parts a
        → sent i j ≡ got i j ++ rest i j)
        → sum_to (A.rules.parts a) owed ≡ sum_to (A.rules.parts a) cleared
        → ((i j : ℕ) → i < A.rules.parts a → j < A.rules.parts a
        → (sent i j ≡ part A.rules a j (log_of logs i)) × (got i j ≡ sent i j) × (rest i j ≡ []))
        × AreSound A.rules a logs (λ i j. part A.rules a i (log_of logs j))
        × AreRanked A.rules a logs
        × SayLeast A.rules a logs }
{}
