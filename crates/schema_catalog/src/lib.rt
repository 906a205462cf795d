//! Schemas: tables with their columns, by name.
//!
//! A contract sees a table as its name and its columns, and a schema as the map from names to
//! columns; `specs/` also has the databases of a schema.
#![tactic(auto)]

mod difference;
mod laws;
mod place;
mod schema;
mod table;

pub use difference::{SameFault, same};
pub use laws::{database_with_table, empty_database, row_is_its_cells};
pub use schema::Schema;
pub use table::{Table, are_columns};
