//! Laws of the definitions, which hold of all tokens.

ghost use Rattle.std.specs.Prelude.{◌≡◌, ◌<◌, List, length};
ghost use Rattle.nll_text.specs.Tokens as lex;
ghost use Rattle.nll_mir_grammar.specs.WrittenTypes.{BeginsWithType, WrittenType, spelled};
ghost use Rattle.nll_mir_grammar.specs.MirForms.{Form, IsSpelled};

/// States that tokens spell one form at most.
pub fn one_form()
    ensures { (ts : List lex.Token) (f g : Form) → IsSpelled ts f → IsSpelled ts g → f ≡ g }
{}

/// States that tokens begin with at most one type that no `<` follows.
pub fn one_type_at_most()
    ensures { (ts : List lex.Token) (t u : WrittenType) (a b : List lex.Token)
        → BeginsWithType ts t a → BeginsWithType ts u b → (t ≡ u) × (a ≡ b) }
{}

/// States that a type has at least one token.
pub fn a_type_has_tokens()
    ensures { (t : WrittenType) → 0 < length (spelled t) }
{}
