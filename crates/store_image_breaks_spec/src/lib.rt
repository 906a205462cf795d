//! Where bytes that are no store image break, in an image's own words: behind the longest run of
//! whole items with which some image begins.
#![tactic(auto)]

mod laws;

pub use laws::{bytes_break_at_one_place, bytes_break_behind_the_items_of_an_image};
