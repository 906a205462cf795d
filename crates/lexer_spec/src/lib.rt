//! The lexical grammar: which tokens a text has, and what each says.
//!
//! `specs/Bytes.antt` says by cases on the bytes how far a gap of blanks and comments reaches, and
//! what the longest token at a prefix is; `specs/Lexed.antt` says by it which list of tokens a text
//! has, or which first fault. `specs/Spaced.antt` says the same in words of its own: gaps, and
//! tokens that nothing after them continues. What a token says to a grammar, whatever its place and
//! spelling, is its lexeme (`specs/Lexemes.antt`).
//!
//! The types are here, and the laws: each function but `Token::first` is proved and does nothing.
#![tactic(auto)]

mod fault;
mod kind;
mod laws;
mod scan_of;
mod token;

pub use fault::LexFault;
pub use kind::TokenKind;
pub use laws::{lexes_once, tokens_are_spaced, tokens_in_place};
pub use scan_of::Scanned;
pub use token::Token;
