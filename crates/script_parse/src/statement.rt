//! Statements, and why a text is none.

use prima_base::What;
use sessions::SessionRequest;
use smo_ops::Command;
use temporal_lang::{AggItem, Query, Relation};

/// A statement.
#[derive(Drop)]
pub enum Statement {
    /// A command that is to become part of the history.
    Write(Command),
    /// A query, which changes nothing.
    Ask(Query),
    /// A query whose pieces are told in place of its answer.
    Explain(Query),
    /// The pairs of entries of two answers whose periods stand in the relation.
    Pairs(Query, Relation, Query),
    /// What the aggregates have over time of the groups of a query's rows, which are as many of
    /// their first outputs as this number says.
    Aggregate(Vec<AggItem>, u32, Query),
    /// What the session with this number asks for.
    Session(u32, SessionRequest),
    /// The list of all versions.
    ShowVersions,
    /// The tables of the version with this number.
    ShowSchema(u32),
    /// The list of all lifelines with their sizes.
    ShowSizes,
    /// The list of all open cursors.
    ShowCursors,
    /// The whole archive is to be stored, so that later runs begin from there.
    Checkpoint,
}

/// Why a text is no statement.
#[derive(Clone, Copy, PartialEq, Eq)]
pub enum ReadFault {
    /// Reading found no memory.
    NoMemory,
    /// The place in the text of the first lexical fault, or else of the first token with which no
    /// statement goes on; where the tokens run out, the text's length.
    Syntax(u32),
    /// The counted thing, and its limit, which is passed at a token.
    TooMany(What, u64),
}
