//! The tokens of a statement, and what statements are read from.
//!
//! `tokens` makes the tokens of a text. `parse_expr` and `parse_cond` read an expression or a
//! condition from a list of tokens. Their grammar is `specs/Grammar.antt` of lexer_trees_spec; what
//! is counted at each token is its `specs/TreeCounts.antt`, and which token is the first that is
//! too much `specs/Crossings.antt` of lexer_combinators.
//!
//! Crates above read statements over a `Cursor`, with these readers and their own: `name` and
//! `names`, `moment`, `small`, `int`, `literal` and `constant` (`specs/Constants.antt` of
//! lexer_trees_spec), `fresh_expr` and `fresh_cond`, which count anew, `outer_where` and
//! `fresh_where` for a condition after WHERE, and the cursor's own steps (`expect_word`,
//! `expect_sign`, `sees_word`, `sees_sign`, `skip`). `specs/Parsing.antt` of lexer_combinators has
//! the steps of reading for any grammar, and says how a production is made of them.
//!
//! This crate stands for those below it too: lexer_spec, lexer_combinators and lexer_trees_spec
//! have the definitions with their laws.
#![tactic(auto)]

mod atom_reader;
mod constant_reader;
mod number;
mod parse;
mod reader;
mod scanned;
mod token_list;
mod word;

pub use constant_reader::{constant, int, literal, moment, name, names, natural, small};
pub use lexer_combinators::{Cursor, ParseFault, Stop};
pub use lexer_spec::{LexFault, Token, TokenKind, lexes_once, tokens_are_spaced, tokens_in_place};
pub use lexer_trees_spec::{
    constants_are_read, counts_add_up, prefixes_are_one, trees_and_rests, trees_are_one,
    trees_are_read,
};
pub use parse::{fault_at, limit_of, parse_cond, parse_expr, tail};
pub use reader::{fresh_cond, fresh_expr, fresh_where, outer_cond, outer_expr, outer_where};
pub use scanned::is_blank;
pub use token_list::tokens;
pub use word::is_name;
