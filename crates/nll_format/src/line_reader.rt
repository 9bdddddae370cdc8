//! A reader of the lines of a text after its header, one after another.

ghost use Rattle.std.specs.Prelude.{◌≤◌, ◌↔◌, List, length, IsTrue, OnOk, IfErr};
ghost use Rattle.nll_problem.specs.Limits.{most_bytes};
ghost use Rattle.nll_format.specs.Text.{Format};
ghost use Rattle.nll_format.specs.Lines.{TakesIn, TurnsDown};

use crate::error::TextKind;

/// A reader of the lines of texts. What names their format, as its version does, comes with each
/// line.
pub trait LineReader<'a, F> {
    /// The format that is named.
    ghost format_of: { F → Format };

    /// The reader holds what lines of these forms say together.
    ghost holds: { (format : F) → List (format_of format).Form → Self → Type 0 };

    /// The reader can take in a line.
    ghost ready: { Self → Type 0 };

    /// Takes in a line.
    ///
    /// # Errors
    /// What is wrong with the line after those that were taken in; or `Memory`.
    fn read_line(&mut self, format: &F, line: &'a [u8]) -> Result<(), TextKind>
        requires ready { ready self.old }
        requires short { length line.now ≤ most_bytes }
        ensures ready { OnOk result (ready self.new) }
        ensures taken { OnOk result (TakesIn (format_of format.now)
            (λ forms. holds format.now forms self.old)
            (λ forms. holds format.now forms self.new) line.now) }
        ensures refused { IfErr result (TurnsDown (format_of format.now)
            (λ forms. holds format.now forms self.old) line.now) };

    /// Whether a text may stop after the lines that were taken in.
    fn has_ended(&self, format: &F) -> bool
        ensures { (forms : List (format_of format.now).Form) → holds format.now forms self.now
            → IsTrue result ↔ (format_of format.now).HasEnded forms };
}
