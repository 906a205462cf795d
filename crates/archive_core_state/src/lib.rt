//! The archive: it accepts commands, or refuses them, and answers queries from what was accepted.
//! It keeps what it has in memory.
//!
//! `specs/ArchiveContents.antt` says when an archive represents a past; a command that is accepted
//! makes it represent the past with this command.
#![tactic(auto)]

mod acceptance;
mod accepted_command;
mod archive;
mod asked_query;
mod fault;
mod width;

pub use accepted_command::AcceptedCommand;
pub use answer_text::Listing;
pub use archive::{ArchiveState, Done};
pub use fault::{AskFault, CommandFault};
pub use query_exec::{Rule, RuleBook};
pub use version_groups::{CheckedCommand, Groups};
