//! Lists of rows with periods joined level by level: each list is a level, whose rows are looked up
//! and tested beside a choice of one row of each level before it.
#![tactic(auto)]

mod answer;
mod group;
mod join;
mod key;
mod level;
mod part;
mod place;
mod plan;
mod source;
mod step;

pub use answer::put_choice_answer;
pub use group::in_turn;
pub use join::join_rows;
pub use part::gather_parts;
pub use place::{column_place, is_settled, place_of};
pub use source::Source;
pub use step::all_met;
