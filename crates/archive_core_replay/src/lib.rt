//! The records of a file, made an archive in memory again: each payload is read, and then the
//! commands after the last image are carried out over what it shows.
#![tactic(auto)]

mod fault;
mod opened;
mod record_reader;
mod replay;

pub use archive_core_state::{
    AcceptedCommand, ArchiveState, AskFault, CheckedCommand, CommandFault, Done, Groups, Listing,
    Rule, RuleBook,
};
pub use fault::RestoreFault;
pub use opened::Opened;
pub use replay::restore;
pub use store_image::{an_image_shows_its_archive, image_of};
