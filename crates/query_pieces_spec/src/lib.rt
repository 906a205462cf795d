//! Queries on any version, read by pieces at each moment of their slice: definitions (`specs/`) and
//! their laws.
#![tactic(auto)]

mod laws;

pub use laws::{
    a_query_is_answered_by_pieces, an_accepted_query_asks_questions, one_version_is_read,
    parts_are_gathered, pieces_are_run_one_by_one, the_least_lost_version_decides,
};
