//! An archive as sessions need one: the vault that is shared by all of them.
#![tactic(auto)]

mod answer;
mod kept_row;
mod vault;

pub use archive_core::{
    Archive, AskFault, CommitFault, Done, Listing, MountFault, Opened, Rule, RuleBook,
};
pub use vault::{ArchiveVault, ask_counted};
