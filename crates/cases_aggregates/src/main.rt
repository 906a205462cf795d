//! Cases of pairs of entries whose periods are related, and of aggregates over time.
//!
//! They stand in `stdin`, and what each is answered in `stdout`. A line `== NAME` begins a case,
//! with no entries on either side, and all moments for its slice. Then come, in any number:
//!
//! - `left START END VALUE ..` and `right START END VALUE ..` put a row that holds in a period
//!   among those of a side; `now` as END is the end of time;
//! - `lefts A B START END VALUE ..` puts one there for each number from A to B, with the number in
//!   place of each `#`;
//! - `slice START END` sets the slice in which both sides are listed;
//! - `pairs RELATION` lists the related pairs of entries, those of the left side first: a line
//!   each, and how many they are;
//! - `aggregate ITEM .. BY G` lists what the items have of the groups of the left side: COUNT, or
//!   MIN, MAX or SUM with the place of an output after it.
//!
//! A value is a number, or a text after a `'`. The rows of a side are coalesced in the slice before
//! they are asked, so what is asked is the one list of what they hold. Another line is a note.
#![tactic(auto)]

mod answer;
mod case;
mod line;
mod listing;

use crate::case::play;
use std::io;
use std::io::{Read, Write};

fn main(rt: HostRuntime) -> io::Result<()> {
    let mut cases = Vec::new(rt.alloc());
    rt.reader().read_to_end(&mut cases)?;
    let answers = play(rt.alloc(), &cases)?;
    io::writer(&rt).write_all(&answers)
}
