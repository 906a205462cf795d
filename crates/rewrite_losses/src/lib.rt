//! What is lost on the way from one version to another, by names alone: tables, and columns of the
//! tables that are not lost themselves.
#![tactic(auto)]

mod losses;
mod lost_item;
mod made_table;
mod named_column;
mod no_way;
mod operator;
mod operator_back;
mod table_loss;
mod version_way;

pub use lost_item::{first_lost, loss_of};
