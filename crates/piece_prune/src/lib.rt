//! Dead pieces are told, exactly, and dropped: they mean the empty relation over every database of
//! valid values. Which part of a condition is pushed to an item of a branch: what is said of the
//! item alone.
#![tactic(auto)]

mod laws;
mod liveness;
mod pushed_part;

pub use laws::{
    a_dead_piece_means_nothing, living_pieces_mean_the_same, pushed_conditions_have_types,
};
pub use liveness::{is_dead, living};
pub use piece_ir::Piece;
pub use pushed_part::pushed_cond;
