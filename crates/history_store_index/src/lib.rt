//! The ids of rows in an order, in blocks: an id that comes or goes moves those of its block alone,
//! and the blocks after it are counted again.
#![tactic(auto)]

mod index;

pub use index::RowIndex;
