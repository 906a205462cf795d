//! Sessions that share one archive: each may have a transaction, whose changes are committed as one
//! command, and cursors, which hand out the answer of a query as it was when they were opened.
//!
//! The archive is a `Vault`. A contract sees the sessions as plain data
//! (`specs/SessionStates.antt`) and each call as a step (`specs/Steps.antt`); what is so of every
//! list of steps is said in `specs/Runs.antt`.
#![tactic(auto)]

mod cursor;
mod laws;
mod request;
mod session;
mod transaction;
mod vault;

pub use cursor::CursorLine;
pub use laws::{
    cursors_keep_their_answers, only_commits_change, sessions_are_apart, transactions_are_whole,
};
pub use request::SessionRequest;
pub use session::Sessions;
pub use vault::{KeptRow, Vault, VaultDone, VaultFault};
