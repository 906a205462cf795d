//! Cases of dead conditions, over a table with the INT columns a and c and the TEXT columns b and
//! d.
//!
//! They stand in `stdin`, a line each, `NAME: CONDITION`, and in `stdout` whether each is dead or
//! alive, written by hand from the definition. A line without a colon is a note.
#![tactic(auto)]

mod case;

use crate::case::play;
use std::io;
use std::io::{Read, Write};

fn main(rt: HostRuntime) -> io::Result<()> {
    let mut cases = Vec::new(rt.alloc());
    rt.reader().read_to_end(&mut cases)?;
    let answers = play(rt.alloc(), &cases)?;
    io::writer(&rt).write_all(&answers)
}
