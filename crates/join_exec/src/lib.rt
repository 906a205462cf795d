//! What a piece of a rewritten query answers over stored tables of attribute histories, at each
//! moment of a slice.
//!
//! Of each atom the keys of its table inside the slice are read together with the columns that the
//! piece names of it, row by row: the keys and the entries of every column ascend by id, and those
//! of one id follow one another, so that one walk along the keys and all of these columns finds the
//! values that each row has, and until when it has just these. The atoms are joined over time.
//! Nothing is coalesced here.
#![tactic(auto)]

mod atom;
mod branch_join;
mod cursor;
mod gathered_table;
mod key_rows;
mod laws;
mod left_entries;
mod name;
mod piece;

pub use branch_join::join_atoms;
pub use gathered_table::gather;
pub use laws::reads_depend_on_the_columns_named;
pub use name::names_at;
pub use piece::run_piece;
