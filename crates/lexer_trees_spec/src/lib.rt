//! The grammar of names, constants, expressions and conditions, and its laws.
//!
//! `specs/Grammar.antt` says which lexemes spell which tree, and of what size it is;
//! `specs/Constants.antt` names and constants, each one lexeme. `specs/Reader.antt` reads them from
//! left to right, made of the parts of lexer_combinators. `specs/TreeCounts.antt` says what is
//! counted at each token. `specs/Where.antt` has the WHERE of operators, changes and branches.
//!
//! Nothing runs here. Each function is proved and does nothing; crates above make their own
//! productions of the lemmas of `proofs/`.
#![tactic(auto)]

mod laws;

pub use laws::{
    constants_are_read, counts_add_up, prefixes_are_one, trees_and_rests, trees_are_one,
    trees_are_read,
};
