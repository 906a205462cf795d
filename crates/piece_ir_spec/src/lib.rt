//! Pieces of rewritten queries: what they mean, how they are unfolded through an operator by views,
//! the views of each operator, and how a book of rules takes pieces from version to version.
//! Definitions (`specs/`) and their laws.
#![tactic(auto)]

mod chain_laws;
mod piece_laws;
mod view_laws;

pub use chain_laws::{
    a_moment_is_read_by_pieces, pieces_are_taken_along, pieces_stand_for_a_table,
    the_pieces_of_a_table, the_way_of_pieces_is_step_by_step, versions_hold_valid_constants,
    what_is_lost_stays_lost,
};
pub use piece_laws::{
    pieces_mean_what_they_give, rules_by_views_are_valid, unfoldings_keep_the_meaning,
    valid_rules_make_a_valid_book,
};
pub use view_laws::views_give_the_made_tables;
