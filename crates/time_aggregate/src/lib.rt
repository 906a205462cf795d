//! What groups of rows have at each moment, over time.
//!
//! The rows of a listing ascend, so a group stands together. The moments at which its rows begin
//! and end to hold are put in order and gone over once, with what is kept of the rows that hold.
#![tactic(auto)]

mod agg_value;
mod cell;
mod group;
mod law;
mod listed;
mod sweep;
mod tally;
mod turn;

pub use group::aggregate;
pub use law::{
    aggregated_is_the_one_list, aggregates_are_one, aggregates_of_a_listing, groups_side_by_side,
};
