//! Laws of tokens. Each is proved and does nothing.

ghost use Rattle.lexer_spec.specs.Lexed.{LexesOnce, TokensInPlace};
ghost use Rattle.lexer_spec.specs.Spaced.{TokensSpaced};

/// A text has one list of tokens, or one first fault.
pub fn lexes_once()
    ensures { LexesOnce }
{}

/// Each token is a slice of its text at its place, and they stand in order.
pub fn tokens_in_place()
    ensures { TokensInPlace }
{}

/// Between tokens stand blanks and comments alone, each token has its kind's form, and what stands
/// after it does not continue it. After the last gap stands nothing, or the fault.
pub fn tokens_are_spaced()
    ensures { TokensSpaced }
{}
