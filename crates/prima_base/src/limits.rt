//! The limits of the statement language and of what its statements make, for code: what tests one
//! takes it from here. Definitions take theirs from `specs/Limits.antt`. A contract whose proof
//! reckons with a limit has the number itself, and the proof of each call holds it to the test. The
//! limits of a script, of a journal and of a sample stand in the crates that set them.

/// The most bytes of a name.
pub const MAX_NAME: usize = 63;

/// The most bytes of a text.
pub const MAX_TEXT: usize = 4096;

/// The most bytes of a statement, without its `;`.
pub const MAX_STATEMENT: usize = 1_048_576;

/// The most nodes of an expression or a condition.
pub const MAX_NODES: u64 = 256;

/// The most levels of an expression or a condition.
pub const MAX_DEPTH: u64 = 32;

/// The most parts of a CONCAT.
pub const MAX_PARTS: u64 = 8;

/// The most tables of a branch of a query.
pub const MAX_BRANCH_TABLES: usize = 8;

/// The most outputs of a branch of a query.
pub const MAX_OUTPUTS: usize = 32;

/// The most branches of a query.
pub const MAX_BRANCHES: usize = 16;

/// The most conditions of KEEP.
pub const MAX_KEEPS: usize = 8;

/// The most changes of a command.
pub const MAX_CHANGES: usize = 65_536;

/// The most operators of an inverse.
pub const MAX_INVERSE: usize = 8;

/// The most columns of a table.
pub const MAX_COLUMNS: usize = 32;

/// The most tables of a version.
pub const MAX_TABLES: usize = 64;

/// The most versions of the schema, version 0 not counted.
pub const MAX_VERSIONS: usize = 512;
