//! Laws of the definitions, which hold of all texts.

ghost use Rattle.std.specs.Prelude.{◌≡◌, ℕ, List};
ghost use Rattle.nll_format.specs.declared.error.TextKind.{TextKind};
ghost use Rattle.nll_body.specs.Bodies.{BodyText};
ghost use Rattle.nll_body.specs.Sound.{IsSoundBody};
ghost use Rattle.nll_body.specs.WellTyped.{IsWellTyped};
ghost use Rattle.nll_mir_text.specs.MirText.{Means, IsMirFault};

/// States that a text has at most one fault.
pub fn mir_one_fault()
    ensures { (text : List ℕ) (line other_line : ℕ) (kind other_kind : TextKind)
        → IsMirFault text line kind → IsMirFault text other_line other_kind
        → (line ≡ other_line) × (kind ≡ other_kind) }
{}

/// States that a text that means a body has no fault.
pub fn mir_not_both()
    ensures { (text : List ℕ) (body : BodyText) (line : ℕ) (kind : TextKind)
        → Means text body → IsMirFault text line kind → ⊥ }
{}

/// States that a text means at most one body.
pub fn mir_one_meaning()
    ensures { (text : List ℕ) (body other : BodyText)
        → Means text body → Means text other → body ≡ other }
{}

/// States that no text has neither: each means a body or has a fault.
pub fn mir_not_neither()
    ensures { (text : List ℕ) → ((body : BodyText) → Means text body → ⊥)
        → ((line : ℕ) (kind : TextKind) → IsMirFault text line kind → ⊥) → ⊥ }
{}

/// States that the body that a text means is sound.
pub fn mir_meaning_is_sound()
    ensures { (text : List ℕ) (body : BodyText) → Means text body → IsSoundBody body }
{}

/// States that the body that a text means is well typed.
pub fn mir_meaning_is_well_typed()
    ensures { (text : List ℕ) (body : BodyText) → Means text body → IsWellTyped body }
{}
