//! Instance maps: the rows of the tables that a schema modification operator makes, from those of
//! the tables that it makes them of. (PRISM 2008.)
//!
//! The definition is the whole-instance map of `smo_ops` (`carried` in its `specs/After.antt`);
//! `specs/Carrying.antt` says that what is answered here is what it has under the names of the made
//! tables.
#![tactic(auto)]

mod add_column;
mod decompose_table;
mod drop_column;
mod group;
mod join_table;
mod map;
mod merge_table;
mod name;
mod one_row;
mod partition_table;
mod projection;
mod rename_column;
mod source;
mod whole_table;

pub use map::{Carried, carry};
pub use name::put_in_order;
