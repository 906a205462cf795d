//! The response to one statement over an archive on a disk: it is read, the archive carries it out
//! or answers it, and its reply is put.
//!
//! `respond` carries the theorem: what is put of the reply, what is written, and what the archive
//! then stands for, also where the sink or the disk fails.
#![tactic(auto)]

mod aggregate_response;
mod checkpoint;
mod pair_response;
mod reply_kind;
mod response;
mod session_response;
mod stop_reason;

pub use reply_kind::ReplyKind;
pub use response::{refuse, respond};
pub use script_cli_vault::{Archive, MountFault, Opened, Rule, RuleBook};
pub use stop_reason::StopReason;
