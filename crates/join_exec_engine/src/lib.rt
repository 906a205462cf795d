//! Joins over time: the choices of one row of each of several lists that hold together and meet a
//! condition.
#![tactic(auto)]

mod atom;
mod engine;
mod listed_rows;
mod order;
mod own_part;
mod single_atom;

pub use atom::Atom;
pub use engine::answer_choices;
