//! A disk as a journal sees it: what a read gives, what a crash may leave, and when.
//!
//! A contract sees of a disk what a read gives, where the disk tells it, the files that a crash now
//! may leave, those that a crash at some moment since an earlier one may have left, how often the
//! disk has failed, and whether it is honest: whether it keeps to the model of written ranges and
//! syncs. Between two syncs each written range, and the part past the length at the last sync, may
//! hold any bytes after a crash; the length is then any from that of the last sync to the present
//! one; other bytes stay. After a sync that succeeds a crash leaves what a read gives.
#![tactic(auto)]

mod borrowed;
mod call;
mod crash_image;
mod disk;
mod fuse_disk;
mod mem_disk;
mod sure_disk;

pub use disk::Disk;
pub use fuse_disk::FuseDisk;
pub use mem_disk::MemDisk;
pub use prima_base::{Failed, NoMemory};
pub use sure_disk::SureDisk;
