//! One token.

ghost use Rattle.std.specs.Prelude.{◌≡◌, ◌≤◌, length, take};
ghost use Rattle.lexer_spec.specs.Bytes.{scan_of};
ghost use Rattle.lexer_spec.specs.declared.scan_of.Scanned.TheVariants.{Of};

use crate::kind::TokenKind;

/// A token: its bytes are a slice of the statement, which begins `at` bytes after the statement's
/// prefix. The bytes are one whole token of the kind, with no lexical fault.
#[derive(Clone, Copy)]
pub struct Token<'a> {
    /// What the token is.
    pub kind: TokenKind,
    /// The token's bytes: a text has its quotes, a number its sign.
    pub text: &'a [u8],
    /// The place of its first byte in the statement, from 0.
    pub at: u32,
    pub ghost whole: { scan_of text.now ≡ Of kind (length text.now) },
}

impl<'a> Token<'a> {
    ghost use Rattle.std.specs.Prelude.{◌≡◌, ◌≤◌, length, take};
    ghost use Rattle.lexer_spec.specs.Bytes.{scan_of};
    ghost use Rattle.lexer_spec.specs.declared.scan_of.Scanned.TheVariants.{Of};

    /// The token of so many bytes at the start of these.
    #[tactic(auto, using(crate::proofs::WholeTokens::again))]
    pub fn first(kind: TokenKind, len: usize, bytes: &'a [u8], at: u32) -> Token<'a>
        requires within { len ≤ length bytes.now }
        requires token { scan_of bytes.now ≡ Of kind len }
        ensures kind { result.kind ≡ kind }
        ensures text { result.text.now ≡ take len bytes.now }
        ensures place { result.at ≡ at }
    {
        Token {
            kind,
            text: &bytes[..len],
            at,
        }
    }
}
