//! Cases of one table's history: the same changes made in a stored table and in a plain one, and
//! what both show compared.
//!
//! They stand in `stdin`, and what each is answered in `stdout`. A line `== name` begins a case,
//! with no column and no table. Then come, in any number:
//!
//! - `column NAME int` or `column NAME text` puts a column after the others; they stand in the
//!   order of their names;
//! - `gain VALUE ..` puts a row among those that the next change gains;
//! - `lose VALUE ..` puts a row among those that it loses;
//! - `gains A B VALUE ..` and `loses A B VALUE ..` put one there for each number from A to B, with
//!   the number in place of each `#`;
//! - `at N` makes the change at the stamp N, row by row; the first change makes the table;
//! - `whole N` makes it by all the rows that the table has after it;
//! - `index N` asks for an index of the column at the place N;
//! - `restore` goes on with the table that the scans make;
//! - `made SEED COUNT EVERY` makes so many changes from the seed, one a stamp, and compares the
//!   histories after each EVERY-th;
//! - `figures` tells how many rows, keys and cells the table has.
//!
//! A value is a number, or a text after a `'`; `'TEXT*N` is the text N times. A case is answered by
//! `same` where the tables show the same at each step, or else by the first step and the first
//! thing in which they differ.
#![tactic(auto)]

mod case;
mod change_case;
mod comparison;
mod line;
mod pair;
mod word;

use crate::case::play;
use std::io;
use std::io::{Read, Write};

fn main(rt: HostRuntime) -> io::Result<()> {
    let mut cases = Vec::new(rt.alloc());
    rt.reader().read_to_end(&mut cases)?;
    let answers = play(rt.alloc(), &cases)?;
    io::writer(&rt).write_all(&answers)
}
