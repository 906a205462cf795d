//! The versions of an archive, and the stored tables of each (PRIMA 2008). A table is stored once
//! over all versions in which no operator makes or consumes it; its history begins at the stamp of
//! the first.
//!
//! `specs/Representation.antt` says when groups represent a past. A command that was checked is
//! prepared by `prepare`, which takes all the memory that it needs, and `install` applies it
//! and cannot fail.
#![tactic(auto)]

mod checked_command;
mod groups;
mod lifeline_laws;
mod prepared_command;
mod restoration;
mod size;

pub use checked_command::CheckedCommand;
pub use groups::Groups;
pub use lifeline_laws::{lifelines_are_few, lifelines_are_longest_runs};
pub use prepared_command::PreparedCommand;
pub use restoration::restored_groups_represent;
pub use size::{SizeLine, sizes_are_of_lifelines};
pub use version_groups_tables::MadeTable;
