//! Cases of journals: files in hexadecimal, what mounting them answers, and what is put into them.
//!
//! They stand in `stdin`, and what each is answered in `stdout`, written by hand from the rules of
//! frames. A line `== name` begins a case, with no file and no limit. Then come, in any number:
//!
//! - `file HEX` puts bytes after those of the file;
//! - `limit N` is the limit of the journal;
//! - `open` mounts the file and tells its records, or the damage, and the file that is left;
//! - `put HEX` mounts it, puts a command of this payload, and keeps the file that is left;
//! - `cuts` mounts each prefix of the file, the shortest first, and tells what it holds;
//! - `bytes N` mounts the file with each byte in turn set to N, and tells what it holds;
//! - `fuses HEX` mounts it and puts a command of this payload, over disks that fail from their
//!   first call on, from their second one, and so on, and tells which call answered;
//! - `puts HEX, HEX, ..` mounts it and puts a command of each payload, over a disk that is
//!   borrowed, tells how many were put and after how many writes and syncs, and keeps the file that
//!   is left;
//! - `steps HEX, HEX, ..` does so over disks that fail from their first call on, from their second
//!   one, and so on, and tells how many writes and syncs the disk inside then has;
//! - `sure HEX, HEX, ..` does so over an empty disk that keeps nothing, and mounts that once more.
#![tactic(auto)]

mod answer;
mod case;
mod line;
mod list;

use crate::case::play;
use std::io;
use std::io::{Read, Write};

fn main(rt: HostRuntime) -> io::Result<()> {
    let mut cases = Vec::new(rt.alloc());
    rt.reader().read_to_end(&mut cases)?;
    let answers = play(rt.alloc(), &cases)?;
    io::writer(&rt).write_all(&answers)
}
