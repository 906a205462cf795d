//! The journal: records on a disk that may stop at any moment.
//!
//! A record counts once the gate before it is open. Putting one writes it after the closed gate,
//! with a closed gate of its own after it, syncs, opens the gate, and syncs again; so at each
//! moment a crash leaves the records before, with the new one or without.
#![tactic(auto)]

mod fault;
mod journal;
mod laws;
mod mount;
mod put_list;
mod reader;
mod rec;
mod sealed;
mod synced_write;

pub use disk_model::{Disk, Failed, NoMemory};
pub use fault::{JournalFault, PutFault, PutsFault};
pub use journal::Journal;
pub use laws::a_file_stands_or_is_damaged;
pub use put_list::{mount_and_put, put_each};
pub use rec::{CHECKPOINT, COMMAND, RECORD_HEAD, Rec};
pub use sealed::Sealed;
