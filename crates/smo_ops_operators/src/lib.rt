//! The schema after a schema modification operator, the tables that one makes, makes them of and
//! consumes, whether an inverse leads back, the one that is derived where none is named, and the
//! tables of a version by its number.
#![tactic(auto)]

mod derived_inverse;
mod inverse;
mod made_schema;
mod name;
mod operator;
mod touched;
mod version_tables;

pub use derived_inverse::derived;
pub use inverse::{check_inverse, check_way_back};
pub use name::Made;
pub use operator::{after, operator_refusal, schema_after};
pub use smo_ops_columns::{OwnColumns, has_name, type_in};
pub use touched::{consumed, made, made_of};
pub use version_tables::tables_at;
