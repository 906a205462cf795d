//! Queries on any version: read version by version from the stored tables, through pieces that a
//! book of rules takes along the versions, joined over time and listed over the whole slice (PRIMA
//! 2008).
#![tactic(auto)]

mod branch;
mod explanation;
mod item;
mod laws;
mod loss;
mod part_piece;
mod piece;
mod query_answer;
mod question;
mod route;
mod run;
mod table;
mod walk;

pub use explanation::explain;
pub use laws::{
    a_run_is_read_as_each_of_its_parts, living_pieces_are_those_that_are_not_dead,
    pieces_mean_what_is_asked,
};
pub use loss::first_loss_in_slice;
pub use query_answer::answer;
pub use rewrite_rules_book::{Rule, RuleBook, kind_of};
pub use temporal_lang::{check_query, check_query_counts};
