ghost use Rattle.std.specs.Prelude.{◌≡◌, ◌+◌, ◌≤◌, ◌<◌, ℕ, List, length, drop, take, IfOk, IfErr};
ghost use Rattle.std.specs.Prelude.{None, Some};
ghost use Rattle.lexer_spec.specs.Lexed.{Lexes, Gives};
ghost use Rattle.lexer_spec.specs.Spaced.{Spaced};

use crate::scanned::{gap, scan_at};
use lexer_spec::{LexFault, Scanned, Token};
use std::alloc::{AllocError, Global};

/// The tokens of a statement of at most 1,048,576 bytes, from the left, or its first lexical fault.
/// Between tokens stand blanks and comments alone, and each token is the longest that fits. Inside
/// one text literal a control byte is found before a missing end, and that before its length.
/// Places count the bytes of the text from 0.
pub fn tokens<'a>(alloc: Global, text: &'a [u8]) -> Result<Vec<Token<'a>>, LexFault>
    requires { length text.now ≤ 1048576 }
    ensures ok { IfOk result (λ v. Lexes 0 text.now v.items None) }
    ensures spaced { IfOk result (λ v. Spaced 0 text.now v.items None) }
    ensures err { IfErr result (λ f. Gives f (λ e. (ts : List Token) × Lexes 0 text.now ts (Some e)
        × Spaced 0 text.now ts (Some e))) }
{
    let mut out = Vec::new(alloc);
    let mut rest = text;
    let mut at: u32 = 0;
    loop {
        let skipped = gap(rest);
        rest = &rest[skipped..];
        at += skipped as u32;
        match scan_at(rest) {
            Scanned::End => return Ok(out),
            Scanned::Of(kind, len) => {
                out.push(Token::first(kind, len, rest, at))?;
                rest = &rest[len..];
                at += len as u32;
            }
            Scanned::Bad(len) => return Err(LexFault::BadByte(at + len as u32)),
            Scanned::Open => return Err(LexFault::OpenQuote(at)),
            Scanned::Long => return Err(LexFault::LongText(at)),
            Scanned::Big => return Err(LexFault::BigNumber(at)),
        }
    }
}
