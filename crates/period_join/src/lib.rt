//! Pairs of rows whose periods stand in a relation of time.
//!
//! The pairs of places are handed out one by one, by the left place, then the right one.
#![tactic(auto)]

mod law;
mod pairs;
mod relation;

pub use law::{pairs_are_all, related_entries_are_all};
pub use pairs::Pairs;
