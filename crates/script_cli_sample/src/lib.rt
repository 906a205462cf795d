//! The sample script: a history of a page table, made from a size alone.
//!
//! It gives as many rows as its size says, changes the tables after them four times, updates a
//! quarter of the rows, has the archive stored by a checkpoint, renames a table thirty-five times,
//! and then asks five queries. `summary` is what is told of the replies to it.
#![tactic(auto)]

mod place;
mod script;
mod source;
mod statement;
mod tally;
mod text;

pub use script::SampleScript;
pub use source::SampleSource;
pub use tally::summary;
