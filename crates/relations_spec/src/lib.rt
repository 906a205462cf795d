//! Relations as the ascending lists of their members, alone and over time: definitions and their
//! laws.
//!
//! Nothing runs here. Each function states a law, for the order of any type; `specs/` has the
//! definitions.
#![tactic(auto)]

mod choice;
mod listing;
mod moment;
mod set;

pub use choice::choices_are_all;
pub use listing::{at_most_one_listing, timeline_is_listed};
pub use moment::{common_moments_are_in_both, held_at_its_moments};
pub use set::{same_members_same_relation, set_is_the_relation};
