//! The history of one table: which rows it had at each moment.
//!
//! A [`StoredTable`] keeps for each row an id of its own, with the period of its key, and for each
//! column the values that the rows had with the periods in which they had them. Its history is read
//! by scans, one of the keys and one of each column, that hand out each entry once and take no
//! memory. A change is made in two steps: `prepare` or `prepare_change` takes all the memory that
//! it needs, and `install` carries it out and cannot fail.
//!
//! Where the relation changes, a row that stays keeps its id. The lost rows and the gained rows
//! stand in ascending order, and the i-th lost row hands its id to the i-th gained row: only
//! columns whose values differ get a new entry. A lost row without a partner ends its key, and a
//! gained row without one gets the next id. Ids are never used again.
//!
//! Current rows are found by binary search: by the values that rows begin with, and by the value of
//! any one column for which an index was asked.
#![tactic(auto)]

mod likeness;
mod restoration;
mod scan;
mod table;
mod table_heading;

pub use history_store_columns::{CellEntry, CellScan};
pub use history_store_row_order::{BorrowedRows, Cut};
pub use prima_base_rows::GivenRow;
pub use restoration::Cell;
pub use scan::{KeyEntry, KeyScan};
pub use table::{PreparedTable, StoredTable};
