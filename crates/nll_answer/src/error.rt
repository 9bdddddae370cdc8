//! Why a text has no answer.

use nll_core::Memory;
use nll_format::{TextError, TextKind};
use nll_rules::RuleError;
use nll_run::RunError;
use thiserror::Error;

/// Why a text has no answer.
#[derive(Clone, Copy, Debug, PartialEq, Eq, Error)]
pub enum AnswerError {
    /// The text is faulty.
    #[error(transparent)]
    Text(TextError),
    /// The body that the text means has no problem.
    #[error(transparent)]
    Rule(RuleError),
    /// The run of owners was refused.
    #[error(transparent)]
    Run(RunError),
    /// An allocation failed.
    #[error("memory was refused")]
    Memory,
}

impl From<Memory> for AnswerError {
    ghost use Rattle.std.specs.Prelude.{◌≡◌};
    ghost use Rattle.nll_answer.specs.declared.error.AnswerError.TheVariants.{Memory as memory};

    ghost from_gives = { λ _ error. error ≡ memory };

    fn from(_: Memory) -> AnswerError {
        AnswerError::Memory
    }
}

impl From<TextError> for AnswerError {
    ghost use Rattle.std.specs.Prelude.{◌≡◌};
    ghost use Rattle.nll_answer.specs.Texts.{error_of_text};

    ghost from_gives = { λ error told. told ≡ error_of_text error };

    fn from(error: TextError) -> AnswerError {
        match error.kind {
            TextKind::Memory => AnswerError::Memory,
            _ => AnswerError::Text(error),
        }
    }
}

impl From<RuleError> for AnswerError {
    ghost use Rattle.std.specs.Prelude.{◌≡◌};
    ghost use Rattle.nll_answer.specs.Texts.{error_of_body};

    ghost from_gives = { λ error told. told ≡ error_of_body error };

    fn from(error: RuleError) -> AnswerError {
        match error {
            RuleError::Limit(_) => AnswerError::Rule(error),
            RuleError::Memory => AnswerError::Memory,
        }
    }
}

impl From<RunError> for AnswerError {
    ghost use Rattle.std.specs.Prelude.{◌≡◌};
    ghost use Rattle.nll_answer.specs.Running.{error_of_run};

    ghost from_gives = { λ error told. told ≡ error_of_run error };

    fn from(error: RunError) -> AnswerError {
        match error {
            RunError::Memory => AnswerError::Memory,
            RunError::Thread => AnswerError::Run(error),
        }
    }
}
