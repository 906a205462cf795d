use crate::Piece;
use prima_base::Period;

/// A piece that a query runs, as EXPLAIN tells it: over the tables of this version, in this period,
/// for this atom of this branch of the query.
#[derive(Drop)]
pub struct Explained {
    /// The version's period, cut to the moments that the query asks of.
    pub period: Period,
    /// The branch of the query, from 1.
    pub branch: u32,
    /// The item of the branch's FROM, from 1.
    pub atom: u32,
    /// The version whose tables the piece reads.
    pub version: u32,
    /// What is read of them.
    pub piece: Piece,
}
