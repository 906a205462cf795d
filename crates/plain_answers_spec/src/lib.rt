//! The plain answer: what conditions and outputs are over choices of one row per atom, what
//! branches of a query answer over one database, and what is read for that. Definitions (`specs/`)
//! and their laws, under queries and under pieces.
#![tactic(auto)]

mod laws;

pub use laws::{
    answers_are_given, columns_are_named_atom_by_atom, one_relation_is_answered_row_by_row,
    plain_rows_are_given, what_is_named_and_selected_is_enough,
};
