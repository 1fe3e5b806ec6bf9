//! Laws of texts, their tokens and the places at which they fail.

ghost use Rattle.std.specs.Prelude.{◌≡◌, ◌≤◌, ◌⊎◌, ℕ, List, length};
ghost use Rattle.dscript_lex.specs.Tokens.{AreTokens, FailsAt, HavePlaces};
ghost use Rattle.dscript_lex.specs.declared.token.Token.{Token};

/// A text has one list of tokens at most: their kinds, their values and their places.
pub fn one_reading()
    ensures { (bytes : List ℕ) (first second : List Token) →
        AreTokens bytes first → AreTokens bytes second → first ≡ second }
{}

/// The places of a text's tokens rise, and the bytes at each place are a spelling of its token.
pub fn places()
    ensures { (bytes : List ℕ) (tokens : List Token) →
        AreTokens bytes tokens → HavePlaces bytes tokens }
{}

/// A text fails at one place at most.
pub fn one_place()
    ensures { (bytes : List ℕ) (first second : ℕ) →
        FailsAt bytes first → FailsAt bytes second → first ≡ second }
{}

/// A text fails at one of its bytes or at its end.
pub fn place_in_text()
    ensures { (bytes : List ℕ) (at : ℕ) → FailsAt bytes at → at ≤ length bytes }
{}

/// A text that fails has no tokens.
pub fn failing_text_has_no_tokens()
    ensures { (bytes : List ℕ) (at : ℕ) (tokens : List Token) →
        FailsAt bytes at → AreTokens bytes tokens → ⊥ }
{}

/// Each text has tokens or fails.
pub fn tokens_or_failure()
    ensures { (bytes : List ℕ) →
        ((tokens : List Token) × AreTokens bytes tokens) ⊎ ((at : ℕ) × FailsAt bytes at) }
{}
