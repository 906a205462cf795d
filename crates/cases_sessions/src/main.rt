//! Cases of sessions that share an archive: transactions and cursors, interleaved.
//!
//! They stand in `stdin`, and what each is answered in `stdout`, written by hand.
#![tactic(auto)]

use cases_player::play;
use std::io;
use std::io::{Read, Write};

fn main(rt: HostRuntime) -> io::Result<()> {
    let mut cases = Vec::new(rt.alloc());
    rt.reader().read_to_end(&mut cases)?;
    let answers = play(rt.alloc(), &cases)?;
    io::writer(&rt).write_all(&answers)
}
