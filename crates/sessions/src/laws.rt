//! What is so of every list of steps. Nothing runs here.

ghost use Rattle.std.specs.Prelude.{ℕ};
ghost use Rattle.smo_ops_types.specs.Commands.{PlainCommand};
ghost use Rattle.sessions.specs.Runs.{CursorsKeepTheirAnswers, TransactionsAreWhole};
ghost use Rattle.sessions.specs.Runs.{OnlyCommitsChange, SessionsAreApart};

/// A fetch gives the next entries of the answer at the cursor's opening, and all that was fetched
/// is the beginning of that answer, whatever is done between.
pub fn cursors_keep_their_answers()
    ensures { (needs : PlainCommand → ℕ) → CursorsKeepTheirAnswers needs }
{}

/// A transaction is committed whole, as one command of all its changes, and refused exactly where
/// the newest version is no longer the one at its beginning, or else as that command is.
pub fn transactions_are_whole()
    ensures { (needs : PlainCommand → ℕ) → TransactionsAreWhole needs }
{}

/// Nothing that a session asks for but a COMMIT changes what is shared.
pub fn only_commits_change()
    ensures { (needs : PlainCommand → ℕ) → OnlyCommitsChange needs }
{}

/// What a session asks for leaves each transaction and each cursor that it is not about: what
/// another session has, and what else the session has itself.
pub fn sessions_are_apart()
    ensures { (needs : PlainCommand → ℕ) → SessionsAreApart needs }
{}
