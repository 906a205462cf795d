//! Cases of the bytes of commands: bytes in hexadecimal, and what reading them answers.
//!
//! They stand in `stdin`, and what each is answered in `stdout`, written from the table of command
//! bytes. A line `== name` begins a case, with no bytes. Then come, in any number:
//!
//! - `bytes HEX` puts bytes after those of the case;
//! - `decode` reads them as a command and tells it as a script has it, or where they are none;
//! - `cuts` reads each proper prefix, the shortest first, and tells where it ends to be one;
//! - `set N` reads the bytes with each byte in turn set to N, and tells one sign a byte: `+` a
//!   command, `.` none goes on with that byte, `>` none goes on with a later byte, `$` the bytes
//!   end before a command does, `<` a command ends before the bytes do; the places of `>` and `<`
//!   stand after them;
//! - `name N`, `value N` and `operator N` read one part that begins at N, and tell its bytes as
//!   they are written again and the place after it, or where it is none.
#![tactic(auto)]

mod case;
mod command_text;
mod line;
mod sweep;

use crate::case::play;
use std::io;
use std::io::{Read, Write};

fn main(rt: HostRuntime) -> io::Result<()> {
    let mut cases = Vec::new(rt.alloc());
    rt.reader().read_to_end(&mut cases)?;
    let answers = play(rt.alloc(), &cases)?;
    io::writer(&rt).write_all(&answers)
}
