//! The grammar of queries, and its laws.
//!
//! `specs/QueryGrammar.antt` says which lexemes spell which query, and of what size it is.
//! `specs/QueryReader.antt` reads them from left to right, made of the parts of lexer_combinators
//! and of the readers of lexer_trees_spec. `specs/QueryOverflows.antt` says at which tokens a count
//! passes its limit.
//!
//! Nothing runs here. Each function is proved and does nothing; crates above make their own
//! productions of the lemmas of `proofs/`.
#![tactic(auto)]

mod laws;

pub use laws::{
    aggregates_are_correct, overflows_tell_what_is_too_much, queries_are_correct, queries_are_one,
};
