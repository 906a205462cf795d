//! The lines of SHOW SIZES: each lifeline of a table, a line a call, and how many they are.

ghost use Rattle.std.specs.Prelude.{◌≡◌, ◌+◌, ◌≤◌, ◌++◌, length, codes, decimal, OnOk, OnErr};
ghost use Rattle.std.specs.Io.KnownBytes.{Appends};
ghost use Rattle.prima_io.specs.Causes.{HasCause};
ghost use Rattle.prima_io.specs.Moves.{AppendsLess};
ghost use Rattle.answer_text.specs.Texts.{size_text, count_text};

use crate::line::ReplyLine;
use prima_base::Name;
use prima_io::{Failed, Sink};

// Adds a space and a number, for which there is room.
fn add_spaced(line: &mut ReplyLine, number: u64)
    requires { length line.old + 21 ≤ 4096 }
    ensures added { line.new ≡ line.old ++ (codes " " ++ decimal number) }
    ensures short { length line.new ≤ length line.old + 21 }
{
    line.add(b" ");
    line.add_number(number);
}

// The line of a lifeline.
#[tactic(auto, unfolding(crate::specs::Texts::size_text))]
fn size_line(table: &Name, first: u32, last: u32, keys: u64, cells: u64) -> ReplyLine
    ensures { result ≡ size_text table.now first last keys cells }
{
    let mut line = ReplyLine::new();
    line.add(b"size ");
    line.add(table.bytes());
    add_spaced(&mut line, u64::from(first));
    add_spaced(&mut line, u64::from(last));
    add_spaced(&mut line, keys);
    add_spaced(&mut line, cells);
    line.add(b"\n");
    line
}

/// Puts the line of a lifeline: its table, its first version and its last, and how many keys and
/// cells are stored of it. It takes no memory. `Failed`, here and below, comes only where the
/// sink's count of faults rose; a prefix of the line, and not all of it, was then put.
pub fn put_size<K: Sink>(
    sink: &mut K,
    table: &Name,
    first: u32,
    last: u32,
    keys: u64,
    cells: u64,
) -> Result<(), Failed>
    ensures all { OnOk result (Appends (K.written sink.old) (K.written sink.new)
        (size_text table.now first last keys cells)) }
    ensures part { OnErr result (AppendsLess (K.written sink.old) (K.written sink.new)
        (size_text table.now first last keys cells)) }
    ensures cause { HasCause (K.faults sink.old) (K.faults sink.new) result }
{
    let mut line = size_line(table, first, last, keys, cells);
    line.flush(sink)
}

/// Puts the line after those of all lifelines, which are so many. It takes no memory.
pub fn put_count<K: Sink>(sink: &mut K, count: u64) -> Result<(), Failed>
    ensures all { OnOk result (Appends (K.written sink.old) (K.written sink.new)
        (count_text count)) }
    ensures part { OnErr result (AppendsLess (K.written sink.old) (K.written sink.new)
        (count_text count)) }
    ensures cause { HasCause (K.faults sink.old) (K.faults sink.new) result }
{
    let mut line = ReplyLine::counting(count);
    line.flush(sink)
}
