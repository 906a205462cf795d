//! Rows written into the columns, the keys and the indexes of a table, and the room that they take.
//!
//! A gained row is written column by column under the id of a lost row, or under a new id with a
//! new key. An index by the values of one column ([`ValueIndex`]) loses and gains the ids of few
//! rows, and goes where they are many. All memory is taken by `reserve_rows`: what writes takes
//! none and cannot fail.
#![tactic(auto)]

mod other_index;
mod row_change;
mod value_index;

pub use other_index::{gain_each, index_of, lose_each};
pub use row_change::{apply, count_cells, empty_columns, reserve_rows, rows_room};
pub use value_index::ValueIndex;
