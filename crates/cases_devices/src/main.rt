//! Runs over files, and over sources, sinks and disks that fail at each of their calls in turn: the
//! status, the replies that went out, the file that is left, and what a later run over that file
//! answers.
//!
//! The cases stand in `stdin`, and what each is answered in `stdout`, written by hand. A line `==
//! name` begins a case, with an empty file, no script and the one word `run`. Then come, in any
//! number:
//!
//! - `file HEX` puts bytes after those of the file;
//! - `words WORD ..` are the words of the run, one after each blank;
//! - `script TEXT` puts a line after those of the script;
//! - `run` runs the script over the file, keeps the file that is left, and forgets the script;
//! - `ends` does the same, and tells no bytes of the file;
//! - `opens` mounts the archive of the file, and tells how many commands it counts, and how many of
//!   them it applies again;
//! - `later TEXT` puts a line after those of the script that is run afterwards over the file that
//!   is left;
//! - `chunk N`: the source hands out at most N bytes a call;
//! - `sources` runs the script, over the file each time, over sources that fail at their first
//!   call, at their second one, and so on;
//! - `sinks` runs it over sinks that fail so;
//! - `rooms` runs it over sinks with room for no byte, for one, and so on;
//! - `disks` runs it over disks that fail from their first write or sync on, from their second one,
//!   and so on;
//! - `fuses` runs it over disks that fail from their first call of any kind on, from their second
//!   one, and so on, and tells how many writes and syncs the disk inside then has;
//! - `crashes` runs it over the same disks, and tells how many commands were acknowledged, and with
//!   how many commands the files open that a crash may then leave: those of sixteen picks;
//! - `moments` runs it over a disk that does not fail, and tells of each moment of the run with how
//!   many commands the files open that a crash may leave there;
//! - `image` runs it over a disk that does not fail, and tells the file that a crash leaves at the
//!   last moment, where all that was written is kept.
//!
//! Each goes on until a run over such a device ends well. A file that a crash leaves and that does
//! not open, or has other records than the first ones of the whole run, is told by its pick.
#![tactic(auto)]

mod answer;
mod case;
mod crash;
mod line;
mod run;

use crate::case::play;
use std::io;
use std::io::{Read, Write};

fn main(rt: HostRuntime) -> io::Result<()> {
    let mut cases = Vec::new(rt.alloc());
    rt.reader().read_to_end(&mut cases)?;
    let answers = play(rt.alloc(), &cases)?;
    io::writer(&rt).write_all(&answers)
}
