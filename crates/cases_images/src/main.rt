//! Cases of store images: bytes in hexadecimal, whole and damaged, and what reading them answers.
//!
//! They stand in `stdin`, and what each is answered in `stdout`, written by hand from the table of
//! image bytes. A good image stands before the cases that damage it:
//!
//! - `image` begins an image, with no bytes;
//! - `bytes HEX` puts bytes after those of the image;
//! - `times N HEX` puts them there N times;
//! - `stamped A B HEX` puts, for each number from A to B, that number in eight bytes and these
//!   bytes there.
//!
//! A line `== name` begins a case, with the bytes of the image. Then come, in any number:
//!
//! - `cut N` leaves the first N bytes;
//! - `set N HEX` puts these bytes in place of those that stand from N on;
//! - `insert N HEX` puts them before the byte at N, or at the end;
//! - `remove N M` takes out M bytes from N on;
//! - `read` reads the bytes as an image, and tells how many versions and lifelines it has and its
//!   last stamp, or where they break;
//! - `cuts` reads each proper prefix, the shortest first;
//! - `each N` reads the bytes with each byte in turn set to N.
//!
//! Of prefixes and set bytes the places that have one answer stand in one line.
#![tactic(auto)]

mod answer;
mod case;
mod line;

use crate::case::play;
use std::io;
use std::io::{Read, Write};

fn main(rt: HostRuntime) -> io::Result<()> {
    let mut cases = Vec::new(rt.alloc());
    rt.reader().read_to_end(&mut cases)?;
    let answers = play(rt.alloc(), &cases)?;
    io::writer(&rt).write_all(&answers)
}
