//! The script language over an archive on a disk: what a script is answered, byte by byte, and what
//! it leaves in the file.
//!
//! `run` checks the words, opens the archive, reads a script of statements from a source, answers
//! each when it ends, and writes the replies to a sink. It carries the theorem of the whole. The
//! adapters are such ends over the system's readers and writers.
#![tactic(auto)]

mod adapter;
mod disk_run;
mod driver;
mod file_disk;
mod kept_reply;
mod laws;
mod program_run;
mod sample;
mod script_run;
mod status;
mod word;

pub use adapter::{ReaderSource, WriterSink};
pub use file_disk::FileDisk;
pub use laws::a_run_follows_a_run;
pub use program_run::run;
pub use script_cli_statement::{Archive, MountFault, Opened};
pub use status::Status;
pub use word::Word;

/// The longest script of one run, in bytes.
pub const SCRIPT_LIMIT: u64 = 1_099_511_627_776;
