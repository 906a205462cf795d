//! What stands at the start of bytes.

use crate::kind::TokenKind;

/// What stands at the start.
#[derive(Clone, Copy)]
pub enum Scanned {
    /// Nothing.
    End,
    /// A token of this kind and so many bytes.
    Of(TokenKind, usize),
    /// A byte that cannot stand there, so far from the start.
    Bad(usize),
    /// A text without an end.
    Open,
    /// A text that is too long.
    Long,
    /// A number outside its range.
    Big,
}
