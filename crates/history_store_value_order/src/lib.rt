//! Ids of rows in the order of the values that they have in one column, and then of themselves.
//!
//! What is asked of such an order, and what changes it, finds its places by binary search in the
//! column's newest values: no value is copied. The ids stand in blocks (history_store_index), so
//! that one that comes or goes moves few others.
#![tactic(auto)]

mod order;

pub use order::{count_under, put_handed, sort_ids, take_each};
