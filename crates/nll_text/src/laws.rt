//! Laws of the definitions, which hold of all lines.

ghost use Rattle.std.specs.Prelude.{◌≡◌, ℕ, List};
ghost use Rattle.nll_text.specs.Tokens.{AreTokens, IsMadeOf, Token};
ghost use Rattle.nll_text.specs.LineTokens.{tokens_in};

/// States that a line is made of at most one list of tokens.
pub fn one_token_list()
    ensures { (line : List ℕ) (ts us : List Token) → IsMadeOf line ts → IsMadeOf line us → ts ≡ us }
{}

/// States that the tokens that make a line are those in it, and that those in it make it where each
/// of them is a token.
pub fn tokens_make_a_line()
    ensures made { (line : List ℕ) (ts : List Token) → IsMadeOf line ts → tokens_in line ≡ ts }
    ensures make { (line : List ℕ) → AreTokens (tokens_in line) → IsMadeOf line (tokens_in line) }
{}
