//! Stored rows among which are all that can meet a condition, found by the constants with which the
//! condition compares columns.
//!
//! The rows in their order are looked at between two cuts (`range`), or those with one value of a
//! column that has an index (`candidate`). Of these a row is passed over that fails a test of one
//! of its columns (`filter`).
#![tactic(auto)]

mod candidate;
mod end;
mod filter;
mod range;

pub use candidate::{column_asked, lend_rows};
pub use filter::{ColumnTest, filter_for, hits_pass_filters, passes};
pub use range::{high_cut, hits_are_between_the_cuts, hits_have_pinned_values, low_cut};
pub use smo_ops::{
    Change, OwnColumns, inserted_row, insertions_are_a_union, row_meets, row_with_sets,
};
