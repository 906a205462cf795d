//! What a session asks for.

use prima_base::Name;
use smo_ops_types::Change;
use temporal_lang_types::Query;

/// What a session asks for.
#[derive(Drop)]
pub enum SessionRequest {
    /// Its transaction is to begin.
    Begin,
    /// Changes are to be added to its transaction.
    Do(Vec<Change>),
    /// Its transaction is to be committed at this moment, which is below `FOREVER`.
    Commit(u64),
    /// Its transaction is to end without a command.
    Abort,
    /// A cursor of this name is to be opened on the answer of a query.
    Open(Name, Query),
    /// So many entries of the cursor are to be fetched, or all that are left.
    Fetch(Name, u32),
    /// The cursor is to be closed.
    Close(Name),
}
