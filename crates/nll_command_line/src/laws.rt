//! Laws of the definitions, which hold of all arguments.

ghost use Rattle.std.specs.Prelude.{◌≡◌, ℕ, List};
ghost use Rattle.nll_command_line.specs.CommandLine.{AsksPlainlyForHelp, IsPlainLine};
ghost use Rattle.nll_command_line.specs.Options.{AreOptionsRead, SaidOptions, no_options};
ghost use Rattle.nll_command_line.specs.declared.task.Task.{Task};

/// States that arguments can be read in one way at most.
pub fn one_reading()
    ensures { (words others more : List (List ℕ)) (said other : SaidOptions)
        → AreOptionsRead words others said → AreOptionsRead words more other
        → (more ≡ others) × (other ≡ said) }
{}

/// States that a plain line is read as it is, without options.
pub fn plain_line_is_read()
    ensures { (task : Task) (file : List ℕ) (words : List (List ℕ))
        → IsPlainLine task file words → AreOptionsRead words words no_options }
{}

/// States that arguments which plainly ask for help are read as they are, without options.
pub fn help_is_read()
    ensures { (words : List (List ℕ)) → AsksPlainlyForHelp words
        → AreOptionsRead words words no_options }
{}
