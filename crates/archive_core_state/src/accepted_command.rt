use smo_ops::{Change, Version};

/// A command that checking accepted, with what it found, which is so of the past that the archive
/// represented. The command is taken apart, and nothing of it is copied.
#[derive(Drop)]
pub enum AcceptedCommand {
    /// Changes of rows from the stamp on, one after the other; and for each change where its table
    /// stands in the newest schema, from 0 in the order of names.
    Changes {
        stamp: u64,
        changes: Vec<Change>,
        places: Vec<usize>,
    },
    /// The next version, with the schema that is after its operator.
    Evolve(Version),
}
