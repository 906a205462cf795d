//! The kinds of tokens.

/// What a token is: a word, a number with its sign, a text literal with its quotes, or a sign of
/// one or two bytes.
#[derive(Clone, Copy)]
pub enum TokenKind {
    /// A letter or `_`, then letters, digits and `_`. Names and reserved words are words.
    Word,
    /// Digits, or `-` and digits, of a value from -2^63 to 2^64 - 1.
    Number,
    /// A text in single quotes, in which a quote is doubled. It stands for 0 to 4,096 bytes, none
    /// of them a control byte.
    Text,
    /// `(` `)` `,` `.` `=` `<>` `<=` `>=` `<` or `>`.
    Sign,
}
