//! Parser combinators: readers and grammars made of parts, for any grammar over lexemes.
//!
//! `specs/Parsing.antt` has the steps of reading beside the grammars that they read, what is
//! counted meanwhile, and `IsCorrectParser`: what is read is in the grammar, what is in it is read,
//! and a fault stands at the first place. It says how a crate above makes a production.
//! `specs/TokenCounts.antt` has what is counted at each token, `specs/Crossings.antt` which is the
//! first at which a count passes its limit, `ListOverflows.antt` the same by how a grammar is made
//! of others, and `specs/Prefixes.antt` how a value and what stands after it determine each other.
//!
//! Code reads with a `Cursor` over tokens, whose own steps are here; `specs/Reads.antt` says what a
//! function that reads ensures, and `specs/Found.antt` what reading a list of tokens ensures.
//!
//! The laws are the lemmas of `proofs/`, each for any grammar: `Parsing`, `Fresh` and
//! `Alternatives` say which combinations are good, `ReadSteps` and `ManySteps` lead from the
//! cursor's steps to them, `Places` to the places of tokens, and `Counted`, `Overflow` and
//! `AlongParts` to the first token that is too much.
#![tactic(auto)]

mod cursor;
mod fault;

pub use cursor::{Cursor, Stop};
pub use fault::ParseFault;
