//! The log of one column of a table: the values that its rows had, each from the moment at which it
//! was written.
//!
//! A [`Column`] keeps its writes in the order in which they were made, and for each id where its
//! first and its last one stand: the newest value of a row is found at once, and a scan follows the
//! writes of each id from the first to the last, so that entries come by id and start. A value is
//! written once and stays where it is. Texts stand one after the other in one buffer; what is read
//! of them is borrowed from there. All memory is taken by `reserve`: `put` takes none and cannot
//! fail.
#![tactic(auto)]

mod column;
mod scan;
mod stored_value;
mod text_buffer;

pub use column::Column;
pub use scan::{CellEntry, CellScan};
pub use stored_value::{text_bytes, text_room};
