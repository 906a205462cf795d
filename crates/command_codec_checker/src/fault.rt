use thiserror::Error;

/// Why bytes spell no command. A place counts the bytes from 0.
#[derive(Clone, Copy, Debug, PartialEq, Eq, Error)]
pub enum CheckFault {
    /// No prefix of the bytes is a command's spelling. At this place stands the first byte with
    /// which none goes on, or the bytes end there.
    #[error("no spelling goes on at {0}")]
    BadAt(u64),
    /// A command's spelling ends before this place, and more bytes follow.
    #[error("more bytes after the spelling at {0}")]
    Rest(u64),
}
