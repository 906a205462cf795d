//! Queries as the program holds them, with their copies, and the moments that they ask of; what is
//! asked of pairs of entries, and of groups of rows.
//!
//! A contract sees a query and its branches as plain mirrors of them (`specs/Queries.antt`,
//! `specs/Branches.antt`).
#![tactic(auto)]

mod agg_item;
mod branch;
mod copy;
mod query;
mod relation;
mod time_slice;
mod when;

pub use agg_item::AggItem;
pub use branch::Branch;
pub use copy::{copy_items, copy_keeps};
pub use prima_base::Keep;
pub use query::Query;
pub use relation::Relation;
pub use time_slice::slice;
pub use when::When;
