//! Whether bytes spell a command, found out without making it.
//!
//! `check` answers as `decode` of command_codec does, but for the command, and takes no memory. It
//! goes over the bytes from the start; a function stands for each production of the spelling in
//! command_codec_spec, and ensures that it goes on, or is stuck, as that production's reader there
//! (`Recognizes`).
#![tactic(auto)]

mod checker;
mod command;
mod fault;
mod field;
mod list;
mod operator;
mod tree;

pub use checker::check;
pub use fault::CheckFault;
