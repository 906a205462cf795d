//! Columns and names of columns, made and tested as operators and changes ask for them: columns
//! without one, with one more, with one under another name, with some names alone, in the order of
//! their names, and beside another table's; and a table's columns as conditions over it see them.
#![tactic(auto)]

mod column;
mod column_cover;
mod column_join;
mod made_column;
mod name_list;

pub use column::{OwnColumns, has_name, type_in};
pub use column_cover::{are_cover, columns_named};
pub use column_join::{are_joinable, joined_columns, same_columns};
pub use made_column::{columns_renamed, columns_with, columns_without, first_again, in_order};
pub use name_list::{first_name_again, is_either};
