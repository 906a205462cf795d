//! Why a list of tokens does not hold what is read.

use prima_base::What;

/// Why a list holds nothing of a grammar at a place.
#[derive(Clone, Copy)]
pub enum ParseFault {
    /// What was read found no memory.
    NoMemory,
    /// The place in the statement of the first token with which nothing goes on.
    Syntax(u32),
    /// The list ends before what is read is whole.
    RanOut,
    /// The counted thing, and its limit: as a node, an open construct or a part of a CONCAT more.
    TooMany(What, u64),
}
