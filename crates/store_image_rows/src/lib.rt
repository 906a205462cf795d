//! The rows that ids show, by the periods of keys and the entries of columns: whether two ids show
//! one row at one moment, and the rows that go on, in order.
//!
//! What ids show is sorted (`order`): the first column's entries where these tell the rows apart,
//! and else the rows themselves, each in the stretches in which an id shows it (`stretch`).
#![tactic(auto)]

mod order;
mod stretch;

pub use order::order_of;
