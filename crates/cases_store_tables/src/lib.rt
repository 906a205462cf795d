//! The two tables that `cases_store` compares: a stored one, with what its calls require tested
//! before each, and a plain one, which keeps its history simply.
#![tactic(auto)]

mod moment;
mod plain_table;
mod row;
mod row_comparison;
mod tested_table;

pub use moment::rows_shown;
pub use plain_table::{PlainCell, PlainRow, PlainTable, are_of};
pub use row::add_copies;
pub use row_comparison::NOW;
pub use tested_table::{Scanned, TestedTable, between, current, scan};
