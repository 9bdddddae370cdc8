//! Laws of the definitions, which hold of all texts.

ghost use Rattle.std.specs.Prelude.{◌≡◌, ◌≢◌, ℕ, List};
ghost use Rattle.nll_problem.specs.Problem.{Problem, SameProblem};
ghost use Rattle.nll_format.specs.Labels.{Labels};
ghost use Rattle.nll_format.specs.declared.error.TextKind.{TextKind};
ghost use Rattle.nll_answer.specs.Texts.{IsAnswerError, IsMeaning, IsTextFault};
ghost use Rattle.nll_answer.specs.declared.error.AnswerError.{AnswerError};

/// States that a text has at most one fault, whatever its format.
pub fn one_text_fault()
    ensures { (text : List ℕ) (line other_line : ℕ) (kind other_kind : TextKind)
        → IsTextFault text line kind → IsTextFault text other_line other_kind
        → (line ≡ other_line) × (kind ≡ other_kind) }
{}

/// States that a text means at most one problem, with one set of labels, whatever its format.
pub fn one_text_meaning()
    ensures { (text : List ℕ) (problem other : Problem) (labels other_labels : Labels)
        → IsMeaning text problem labels → IsMeaning text other other_labels
        → SameProblem problem other × (labels ≡ other_labels) }
{}

/// States that no text that means a problem has an error, unless an allocation fails.
pub fn no_text_has_both()
    ensures { (text : List ℕ) (problem : Problem) (labels : Labels) (error : AnswerError)
        → IsMeaning text problem labels → error ≢ AnswerError.Memory → IsAnswerError text error
        → ⊥ }
{}
