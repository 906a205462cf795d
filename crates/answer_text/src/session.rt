//! The lines of what sessions are answered, and of their open cursors.

ghost use Rattle.std.specs.Prelude.{◌≡◌, ◌≤◌, ◌++◌, length, codes, OnOk, OnErr};
ghost use Rattle.std.specs.Io.KnownBytes.{Appends};
ghost use Rattle.prima_io.specs.Causes.{HasCause};
ghost use Rattle.prima_io.specs.Moves.{AppendsLess};
ghost use Rattle.answer_text.specs.Gathering.{Gathers};
ghost use Rattle.answer_text.specs.Texts.{row_text, values_text};
ghost use Rattle.answer_text.specs.SessionTexts.{ok_text, begun_text, buffered_text, empty_text};
ghost use Rattle.answer_text.specs.SessionTexts.{aborted_text, opened_text, closed_text};
ghost use Rattle.answer_text.specs.SessionTexts.{cursor_text};

use crate::line::ReplyLine;
use crate::listing::{push_head, push_value};
use prima_base::{Name, Period, Row, Value};
use prima_io::{Failed, Sink, put_all};

// Puts `ok`, a word and a number.
fn put_ok<K: Sink>(sink: &mut K, word: &[u8], number: u64) -> Result<(), Failed>
    requires { length word.now ≤ 20 }
    ensures all { OnOk result (Appends (K.written sink.old) (K.written sink.new)
        (ok_text word.now number)) }
    ensures part { OnErr result (AppendsLess (K.written sink.old) (K.written sink.new)
        (ok_text word.now number)) }
    ensures cause { HasCause (K.faults sink.old) (K.faults sink.new) result }
{
    let mut line = ok_line(word, number);
    line.flush(sink)
}

fn ok_line(word: &[u8], number: u64) -> ReplyLine
    requires { length word.now ≤ 20 }
    ensures { result ≡ ok_text word.now number }
{
    let mut line = ReplyLine::new();
    line.add(b"ok ");
    line.add(word);
    line.add(b" ");
    line.add_number(number);
    line.add(b"\n");
    line
}

/// Puts the reply to a transaction that began, where this version is the newest. It takes no
/// memory, as each call here. `Failed`, here and below, comes only where the sink's count of faults
/// rose; a prefix of the line, and not all of it, was then put.
#[tactic(auto, unfolding(crate::specs::SessionTexts::begun_text))]
pub fn put_begun<K: Sink>(sink: &mut K, version: u32) -> Result<(), Failed>
    ensures all { OnOk result (Appends (K.written sink.old) (K.written sink.new)
        (begun_text version)) }
    ensures part { OnErr result (AppendsLess (K.written sink.old) (K.written sink.new)
        (begun_text version)) }
    ensures cause { HasCause (K.faults sink.old) (K.faults sink.new) result }
{
    put_ok(sink, b"begin", u64::from(version))
}

/// Puts the reply to changes that were added to a transaction, which now has so many.
#[tactic(auto, unfolding(crate::specs::SessionTexts::buffered_text))]
pub fn put_buffered<K: Sink>(sink: &mut K, count: u64) -> Result<(), Failed>
    ensures all { OnOk result (Appends (K.written sink.old) (K.written sink.new)
        (buffered_text count)) }
    ensures part { OnErr result (AppendsLess (K.written sink.old) (K.written sink.new)
        (buffered_text count)) }
    ensures cause { HasCause (K.faults sink.old) (K.faults sink.new) result }
{
    put_ok(sink, b"buffered", count)
}

/// Puts the reply to a COMMIT of a transaction without changes.
#[tactic(auto, unfolding(crate::specs::SessionTexts::empty_text))]
pub fn put_empty<K: Sink>(sink: &mut K) -> Result<(), Failed>
    ensures all { OnOk result (Appends (K.written sink.old) (K.written sink.new) empty_text) }
    ensures part { OnErr result (AppendsLess (K.written sink.old) (K.written sink.new)
        empty_text) }
    ensures cause { HasCause (K.faults sink.old) (K.faults sink.new) result }
{
    put_all(sink, b"ok empty\n")
}

/// Puts the reply to a transaction that was aborted.
#[tactic(auto, unfolding(crate::specs::SessionTexts::aborted_text))]
pub fn put_aborted<K: Sink>(sink: &mut K) -> Result<(), Failed>
    ensures all { OnOk result (Appends (K.written sink.old) (K.written sink.new) aborted_text) }
    ensures part { OnErr result (AppendsLess (K.written sink.old) (K.written sink.new)
        aborted_text) }
    ensures cause { HasCause (K.faults sink.old) (K.faults sink.new) result }
{
    put_all(sink, b"ok abort\n")
}

/// Puts the reply to a cursor that was opened on an answer of so many entries.
#[tactic(auto, unfolding(crate::specs::SessionTexts::opened_text))]
pub fn put_opened<K: Sink>(sink: &mut K, count: u64) -> Result<(), Failed>
    ensures all { OnOk result (Appends (K.written sink.old) (K.written sink.new)
        (opened_text count)) }
    ensures part { OnErr result (AppendsLess (K.written sink.old) (K.written sink.new)
        (opened_text count)) }
    ensures cause { HasCause (K.faults sink.old) (K.faults sink.new) result }
{
    put_ok(sink, b"open", count)
}

/// Puts the reply to a cursor that was closed.
#[tactic(auto, unfolding(crate::specs::SessionTexts::closed_text))]
pub fn put_closed<K: Sink>(sink: &mut K) -> Result<(), Failed>
    ensures all { OnOk result (Appends (K.written sink.old) (K.written sink.new) closed_text) }
    ensures part { OnErr result (AppendsLess (K.written sink.old) (K.written sink.new)
        closed_text) }
    ensures cause { HasCause (K.faults sink.old) (K.faults sink.new) result }
{
    put_all(sink, b"ok close\n")
}

// The line of an open cursor.
#[tactic(auto, unfolding(crate::specs::SessionTexts::cursor_text))]
fn cursor_line(session: u32, name: &Name, fetched: u64, total: u64) -> ReplyLine
    ensures { result ≡ cursor_text session name.now fetched total }
{
    let mut line = ReplyLine::new();
    line.add(b"cursor ");
    line.add_number(u64::from(session));
    line.add(b" ");
    line.add(name.bytes());
    line.add(b" ");
    line.add_number(fetched);
    line.add(b" ");
    line.add_number(total);
    line.add(b"\n");
    line
}

/// Puts the line of an open cursor: its session and name, and how many of its entries were fetched
/// of how many.
pub fn put_cursor<K: Sink>(
    sink: &mut K,
    session: u32,
    name: &Name,
    fetched: u64,
    total: u64,
) -> Result<(), Failed>
    ensures all { OnOk result (Appends (K.written sink.old) (K.written sink.new)
        (cursor_text session name.now fetched total)) }
    ensures part { OnErr result (AppendsLess (K.written sink.old) (K.written sink.new)
        (cursor_text session name.now fetched total)) }
    ensures cause { HasCause (K.faults sink.old) (K.faults sink.new) result }
{
    let mut line = cursor_line(session, name, fetched, total);
    line.flush(sink)
}

/// Puts the line of a row that a cursor kept, after its period where the periods are told
/// (`periods`).
pub fn put_kept<K: Sink>(
    sink: &mut K,
    values: &Row,
    period: Period,
    periods: bool,
) -> Result<(), Failed>
    ensures all { OnOk result (Appends (K.written sink.old) (K.written sink.new)
        (row_text periods (record { item = values.now; period = period }))) }
    ensures part { OnErr result (AppendsLess (K.written sink.old) (K.written sink.new)
        (row_text periods (record { item = values.now; period = period }))) }
    ensures cause { HasCause (K.faults sink.old) (K.faults sink.new) result }
{
    let mut line = ReplyLine::new();
    push_kept(&mut line, sink, values.values(), period, periods)?;
    line.flush(sink)
}

fn push_kept<K: Sink>(
    line: &mut ReplyLine,
    sink: &mut K,
    values: &[Value],
    period: Period,
    periods: bool,
) -> Result<(), Failed>
    ensures all { OnOk result (Gathers (K.written sink.old) line.old (K.written sink.new) line.new
        (row_text periods (record { item = values.now; period = period }))) }
    ensures part { OnErr result (AppendsLess (K.written sink.old) (K.written sink.new)
        (line.old ++ row_text periods (record { item = values.now; period = period }))) }
    ensures cause { HasCause (K.faults sink.old) (K.faults sink.new) result }
{
    push_head(line, sink, period, periods)?;
    push_kept_values(line, sink, values)?;
    line.push(sink, b"\n")
}

// The values, each after a space.
fn push_kept_values<K: Sink>(
    line: &mut ReplyLine,
    sink: &mut K,
    values: &[Value],
) -> Result<(), Failed>
    ensures all { OnOk result (Gathers (K.written sink.old) line.old (K.written sink.new) line.new
        (values_text values.now)) }
    ensures part { OnErr result (AppendsLess (K.written sink.old) (K.written sink.new)
        (line.old ++ values_text values.now)) }
    ensures cause { HasCause (K.faults sink.old) (K.faults sink.new) result }
{
    for value in values {
        push_value(line, sink, &value.lend())?;
    }
    Ok(())
}
