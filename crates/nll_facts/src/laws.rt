//! Laws of the definitions, which hold of all texts.

ghost use Rattle.std.specs.Prelude.{◌≡◌, ◌⊎◌, ℕ, List};
ghost use Rattle.nll_problem.specs.Problem.{Problem, SameProblem};
ghost use Rattle.nll_format.specs.Labels.{Labels};
ghost use Rattle.nll_facts.specs.declared.version.Version.{Version};
ghost use Rattle.nll_facts.specs.FactsText.{facts, IsFactsFault, MeansFacts};
ghost use Rattle.nll_format.specs.declared.error.TextKind.{TextKind};

/// States that a text has at most one fault.
pub fn facts_one_fault()
    ensures { (text : List ℕ) (line other_line : ℕ) (kind other_kind : TextKind)
        → IsFactsFault text line kind → IsFactsFault text other_line other_kind
        → (line ≡ other_line) × (kind ≡ other_kind) }
{}

/// States that a text that means a problem has no fault.
pub fn facts_not_both()
    ensures { (text : List ℕ) (problem : Problem) (labels : Labels) (line : ℕ) (kind : TextKind)
        → MeansFacts text problem labels → IsFactsFault text line kind → ⊥ }
{}

/// States that a text means at most one problem, with one set of labels.
pub fn facts_one_meaning()
    ensures { (text : List ℕ) (problem other : Problem) (labels other_labels : Labels)
        → MeansFacts text problem labels → MeansFacts text other other_labels
        → SameProblem problem other × (labels ≡ other_labels) }
{}

/// States that a text means a problem or has a fault. With the laws above it has exactly one of
/// them.
pub fn facts_some_meaning_or_fault()
    ensures { (text : List ℕ)
        → ((problem : Problem) × (labels : Labels) × MeansFacts text problem labels)
        ⊎ ((line : ℕ) × (kind : TextKind) × IsFactsFault text line kind) }
{}
