//! Laws of the definitions, which hold of all texts, whatever the number of owners is.

ghost use Rattle.std.specs.Prelude.{◌≡◌, ◌≢◌, ◌⊎◌, ℕ, List};
ghost use Rattle.nll_model.specs.declared.event.Event.{Event};
ghost use Rattle.nll_format.specs.Text.{IsFaultOfText};
ghost use Rattle.nll_format.specs.declared.error.TextKind.{TextKind};
ghost use Rattle.nll_lists.specs.ScheduleText.{schedule, MeansSchedule};

/// States that a text has at most one fault.
pub fn schedule_one_fault()
    ensures { (owners : ℕ) (text : List ℕ) (line other_line : ℕ) (kind other_kind : TextKind)
        → IsFaultOfText (schedule owners) text line kind
        → IsFaultOfText (schedule owners) text other_line other_kind
        → (line ≡ other_line) × (kind ≡ other_kind) }
{}

/// States that a text that means a list of events has no fault.
pub fn schedule_not_both()
    ensures { (owners : ℕ) (text : List ℕ) (list : List Event) (line : ℕ) (kind : TextKind)
        → MeansSchedule owners text list → IsFaultOfText (schedule owners) text line kind → ⊥ }
{}

/// States that a text means at most one list.
pub fn schedule_one_meaning()
    ensures { (owners : ℕ) (text : List ℕ) (list other : List Event)
        → MeansSchedule owners text list → MeansSchedule owners text other → list ≡ other }
{}

/// States that each text means a list or has a fault. With the laws above it has exactly one of
/// them.
pub fn schedule_some_meaning_or_fault()
    ensures { (owners : ℕ) (text : List ℕ) → ((list : List Event) × MeansSchedule owners text list)
        ⊎ ((line : ℕ) × (kind : TextKind) × IsFaultOfText (schedule owners) text line kind) }
{}

/// States that a text may stop after any line: no fault is reported at its end.
pub fn schedule_never_at_end()
    ensures { (owners : ℕ) (text : List ℕ) (line : ℕ) (kind : TextKind)
        → IsFaultOfText (schedule owners) text line kind → kind ≢ TextKind.End }
{}
