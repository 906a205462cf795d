//! The archive on a disk: what it has accepted stands in memory (archive_core_state), and as
//! records in a journal that may stop at any moment (journal).
//!
//! A command is checked, made ready, written as bytes and sealed before the first call of the
//! device; then its record is put, and then it is carried out, which cannot fail. So the file and
//! the memory go on together: what stands in memory is always the past of the file's records, or,
//! after a disk failed, of these but for the last.
#![tactic(auto)]

mod archive;
mod fault;
mod preparation;

pub use archive::Archive;
pub use archive_core_replay::{ArchiveState, AskFault, Done, Listing, Opened, Rule, RuleBook};
pub use fault::{CommitFault, MountFault};
pub use piece_ir::Explained;
