//! Ids of rows in the order of the rows that they have now, and what a change makes of that order.
//!
//! The newest values of all columns are a row of each id. The ids of the current rows of a table
//! stand in an index (history_store_index) in the order of these rows: a row, or the rows between
//! two cuts, are found there by binary search. A change takes the ids of lost rows out and puts
//! those of gained rows in, the lost ids in turn and then new ones. Where it is of few rows their
//! places alone are kept until it is carried out ([`After`]), and each row is searched once.
#![tactic(auto)]

mod change;
mod cut;
mod index_splice;
mod walk;

pub use change::{RowChange, find_change};
pub use cut::{BorrowedRows, Cut, count_before};
pub use index_splice::{After, change_index, few_of, splice, splice_fresh};
pub use walk::{copy_rows, place_in};
