//! What was put of a reply.

ghost use Rattle.std.specs.Prelude.{◌≡◌};
ghost use Rattle.script_cli_statement.specs.Puts.{is_error, is_command};

/// What was put of a reply, or of all replies.
#[derive(Clone, Copy, PartialEq, Eq)]
pub enum ReplyKind {
    /// No `error` line, and no `ok` line of a command.
    NoError,
    /// The `ok` line of a command.
    Command,
    /// An `error` line, whatever else was put.
    ErrorLine,
}

impl ReplyKind {
    /// An `error` line, where there is one.
    pub fn new(error: bool) -> ReplyKind
        ensures { is_error result ≡ error }
    {
        if error {
            ReplyKind::ErrorLine
        } else {
            ReplyKind::NoError
        }
    }

    /// Whether an `error` line was put.
    pub fn is_error(self) -> bool
        ensures { result ≡ is_error self }
    {
        match self {
            ReplyKind::NoError | ReplyKind::Command => false,
            ReplyKind::ErrorLine => true,
        }
    }

    /// Whether the `ok` line of a command was put.
    pub fn is_command(self) -> bool
        ensures { result ≡ is_command self }
    {
        match self {
            ReplyKind::Command => true,
            ReplyKind::NoError | ReplyKind::ErrorLine => false,
        }
    }
}
