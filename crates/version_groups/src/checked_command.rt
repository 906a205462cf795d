//! A command that is accepted, with what checking it found.

use smo_ops::{Change, Version};

/// An accepted command, with what checking it found: nothing of that is looked for again when it is
/// prepared. Its changes are borrowed until they are applied; its operator and its inverse
/// stand in the version that is kept.
#[derive(Drop)]
pub enum CheckedCommand<'a> {
    /// Changes of rows from the stamp on, one after the other; and for each change where its table
    /// stands in the newest schema, from 0 in the order of names.
    Changes {
        stamp: u64,
        changes: &'a [Change],
        places: Vec<usize>,
    },
    /// The next version, with the schema that is after its operator.
    Evolve(Version),
}
