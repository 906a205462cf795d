//! Cases of how wide tables are: the pieces by which the book of all rules reads a table of one
//! version from another, beside the width that the table has there.
//!
//! They stand in `stdin`, and what each is answered in `stdout`. A line `== NAME` begins a case,
//! with an empty archive. Then come, in any number:
//!
//! - `AT ..` is a command, which the archive accepts;
//! - `each` tells for each version and each of its tables, and each other version and the same, how
//!   many pieces read the table from there, the most tables and nodes of the condition of one of
//!   them, and the most nodes that stand for each column; each number beside that of the width,
//!   `lost` where the table or a column of it cannot be read from there, and `too wide` where a
//!   number is above that of the width;
//! - `all` tells of how many tables that was asked, how many of these are lost, how many pieces
//!   there are, and how many tables are too wide.
//!
//! Another line is a note.
#![tactic(auto)]

mod case;
mod line;
mod question;
mod reading;
mod tally;
mod version;
mod width;

use crate::case::play;
use rewrite_rules::{Rule, push_every_rule};
use std::io;
use std::io::{Read, Write};

fn main(rt: HostRuntime) -> io::Result<()> {
    let mut cases = Vec::new(rt.alloc());
    rt.reader().read_to_end(&mut cases)?;
    let mut rules: Vec<Box<dyn Rule>> = Vec::new(rt.alloc());
    push_every_rule!(rt.alloc(), rules);
    let answers = play(rt.alloc(), rules, &cases)?;
    io::writer(&rt).write_all(&answers)
}
