//! Laws of the definitions, which hold of all texts.

ghost use Rattle.std.specs.Prelude.{◌≡◌, ◌≢◌, ◌⊎◌, ℕ, List};
ghost use Rattle.nll_format.specs.Text.{IsFaultOfText};
ghost use Rattle.nll_format.specs.declared.error.TextKind.{TextKind};
ghost use Rattle.nll_lists.specs.CutText.{cut, MeansCut};

/// States that a text has at most one fault.
pub fn cut_one_fault()
    ensures { (text : List ℕ) (line other_line : ℕ) (kind other_kind : TextKind)
        → IsFaultOfText cut text line kind → IsFaultOfText cut text other_line other_kind
        → (line ≡ other_line) × (kind ≡ other_kind) }
{}

/// States that a text that means a list has no fault.
pub fn cut_not_both()
    ensures { (text list : List ℕ) (line : ℕ) (kind : TextKind)
        → MeansCut text list → IsFaultOfText cut text line kind → ⊥ }
{}

/// States that a text means at most one list.
pub fn cut_one_meaning()
    ensures { (text list other : List ℕ) → MeansCut text list → MeansCut text other → list ≡ other }
{}

/// States that each text means a list or has a fault. With the laws above it has exactly one of
/// them.
pub fn cut_some_meaning_or_fault()
    ensures { (text : List ℕ) → ((list : List ℕ) × MeansCut text list)
        ⊎ ((line : ℕ) × (kind : TextKind) × IsFaultOfText cut text line kind) }
{}

/// States that a text may stop after any line: no fault is reported at its end.
pub fn cut_never_at_end()
    ensures { (text : List ℕ) (line : ℕ) (kind : TextKind)
        → IsFaultOfText cut text line kind → kind ≢ TextKind.End }
{}
