//! The stored tables of a version, by its places among all tables that are stored, and what is made
//! of those of the newest version: changes of rows, the tables of the next version, and the ends of
//! lifelines.
//!
//! A table is stored once over its lifeline, the versions in which no operator makes or consumes it
//! (PRIMA 2008), so several versions may have one at their places. What is prepared here is
//! installed without taking memory.
#![tactic(auto)]

mod change_group;
mod changed_table;
mod ended_lifeline;
mod evolution;
mod made_table;
mod restoration;

pub use changed_table::{Changes, install_tables, prepare_tables};
pub use ended_lifeline::end_consumed;
pub use evolution::{NextTables, begin_version};
pub use made_table::{MadeTable, find_stored, find_table};
pub use restoration::restored_tables;
