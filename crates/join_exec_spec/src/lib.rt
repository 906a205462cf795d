//! Choices of one row of each of several lists of rows with periods, as flat rows: the rows of a
//! choice one after the other. Definitions (`specs/`) and their laws, under the engine of joins.
#![tactic(auto)]

mod laws;

pub use laws::{
    what_atoms_answer_without_hopeless_rows, what_is_hopeless_is_left_out, what_pairs_hold,
};
