//! What the changes of a table make of it: the rows that it loses and those that it gains.
//!
//! INSERTs alone are rows that the table gets too. Else the changes are applied one after the
//! other over what is stored, and what they come to is kept as the rows by which the table differs
//! from that (`pending`). An UPDATE or DELETE looks at rows among which are all that can meet its
//! condition, and passes over those that fail a test of one of its columns
//! (version_groups_candidates).
#![tactic(auto)]

mod change;
mod pending_changes;
mod pending_row;
mod row_value;

pub use change::prepare_table;
