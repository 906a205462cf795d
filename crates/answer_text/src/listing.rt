//! The listing of a query: a line for each row, and then how many they are.

ghost use Rattle.std.specs.Prelude.{◌≡◌, ◌+◌, ◌≤◌, ◌++◌, length, map, OnOk, OnErr, codes};
ghost use Rattle.std.specs.List.{flat_map};
ghost use Rattle.std.specs.Fmt.{signed_decimal};
ghost use Rattle.std.specs.Io.KnownBytes.{Appends};
ghost use Rattle.prima_io.specs.Causes.{HasCause};
ghost use Rattle.prima_io.specs.Moves.{AppendsLess};
ghost use Rattle.prima_base.specs.Order.{shown};
ghost use Rattle.prima_base.specs.Timed.{entries_of};
ghost use Rattle.answer_text.specs.Gathering.{Gathers};
ghost use Rattle.smo_parse.specs.TreeTexts.{doubled, value_text};
ghost use Rattle.answer_text.specs.Texts.{values_text, head_text, row_text, count_text};
ghost use Rattle.answer_text.specs.Texts.{listing_text};

use crate::line::{ROOM, ReplyLine};
use itoa::Buffer;
use prima_base::{Period, Val};
use prima_base_rows::TimedRows;
use prima_io::{Failed, Sink};

// the space and the two quotes that stand around a text
const MARKS: usize = 3;

/// The answer to a query: its rows, each with a period in which it holds, ascending by row and
/// start. The periods are told with the rows (`periods`), but for a query that asks of one moment.
/// Texts are borrowed as the query's answer has them.
#[derive(Drop)]
pub struct Listing<'a> {
    pub rows: TimedRows<'a>,
    pub periods: bool,
}

/// Puts the rows, a line each, after their periods where these are told, and then the line that
/// counts them. It takes no memory. `Failed` comes only where the sink's count of faults rose; a
/// prefix of the text, and not all of it, was then put.
pub fn put_listing<K: Sink>(sink: &mut K, listing: &Listing<'_>) -> Result<(), Failed>
    ensures all { OnOk result (Appends (K.written sink.old) (K.written sink.new)
        (listing_text listing.now.periods (entries_of listing.now.rows.items))) }
    ensures part { OnErr result (AppendsLess (K.written sink.old) (K.written sink.new)
        (listing_text listing.now.periods (entries_of listing.now.rows.items))) }
    ensures cause { HasCause (K.faults sink.old) (K.faults sink.new) result }
{
    put_rows(sink, &listing.rows, listing.periods)
}

#[tactic(auto, unfolding(crate::specs::Texts::listing_text))]
fn put_rows<K: Sink>(sink: &mut K, rows: &TimedRows<'_>, told: bool) -> Result<(), Failed>
    ensures all { OnOk result (Appends (K.written sink.old) (K.written sink.new)
        (listing_text told (entries_of rows.now.items))) }
    ensures part { OnErr result (AppendsLess (K.written sink.old) (K.written sink.new)
        (listing_text told (entries_of rows.now.items))) }
    ensures cause { HasCause (K.faults sink.old) (K.faults sink.new) result }
{
    let mut line = ReplyLine::new();
    push_rows(&mut line, sink, rows, told)?;
    push_count(&mut line, sink, rows.len() as u64)?;
    line.flush(sink)
}

fn push_rows<K: Sink>(
    line: &mut ReplyLine,
    sink: &mut K,
    rows: &TimedRows<'_>,
    told: bool,
) -> Result<(), Failed>
    ensures all { OnOk result (Gathers (K.written sink.old) line.old (K.written sink.new) line.new
        (flat_map (row_text told) (entries_of rows.now.items))) }
    ensures part { OnErr result (AppendsLess (K.written sink.old) (K.written sink.new)
        (line.old ++ flat_map (row_text told) (entries_of rows.now.items))) }
    ensures cause { HasCause (K.faults sink.old) (K.faults sink.new) result }
{
    for i in 0..rows.len() {
        push_row(line, sink, rows.period(i), rows.values(i), told)?;
    }
    Ok(())
}

fn push_count<K: Sink>(line: &mut ReplyLine, sink: &mut K, count: u64) -> Result<(), Failed>
    ensures all { OnOk result (Gathers (K.written sink.old) line.old (K.written sink.new) line.new
        (count_text count)) }
    ensures part { OnErr result (AppendsLess (K.written sink.old) (K.written sink.new) line.old) }
    ensures cause { HasCause (K.faults sink.old) (K.faults sink.new) result }
{
    line.make_room(sink, 30)?;
    let text = ReplyLine::counting(count);
    line.add(text.held());
    Ok(())
}

fn push_row<K: Sink>(
    line: &mut ReplyLine,
    sink: &mut K,
    period: Period,
    values: &[Val<'_>],
    told: bool,
) -> Result<(), Failed>
    ensures all { OnOk result (Gathers (K.written sink.old) line.old (K.written sink.new) line.new
        (row_text told (record { item = map shown values.now; period = period }))) }
    ensures part { OnErr result (AppendsLess (K.written sink.old) (K.written sink.new)
        (line.old ++ row_text told (record { item = map shown values.now; period = period }))) }
    ensures cause { HasCause (K.faults sink.old) (K.faults sink.new) result }
{
    push_head(line, sink, period, told)?;
    push_values(line, sink, values)?;
    line.push(sink, b"\n")
}

/// The head of a row's line.
pub(crate) fn push_head<K: Sink>(
    line: &mut ReplyLine,
    sink: &mut K,
    period: Period,
    told: bool,
) -> Result<(), Failed>
    ensures all { OnOk result (Gathers (K.written sink.old) line.old (K.written sink.new) line.new
        (head_text told period.start period.end)) }
    ensures part { OnErr result (AppendsLess (K.written sink.old) (K.written sink.new) line.old) }
    ensures cause { HasCause (K.faults sink.old) (K.faults sink.new) result }
{
    line.make_room(sink, 50)?;
    add_head(line, period, told);
    Ok(())
}

fn add_head(line: &mut ReplyLine, period: Period, told: bool)
    requires { length line.old + 50 ≤ 4096 }
    ensures { line.new ≡ line.old ++ head_text told period.start period.end }
{
    line.add(b"row");
    if told {
        line.add(b" ");
        line.add_number(period.start());
        line.add(b" ");
        line.add_end(period.end());
    }
}

/// The values, each after a space.
pub(crate) fn push_values<K: Sink>(
    line: &mut ReplyLine,
    sink: &mut K,
    values: &[Val<'_>],
) -> Result<(), Failed>
    ensures all { OnOk result (Gathers (K.written sink.old) line.old (K.written sink.new) line.new
        (values_text (map shown values.now))) }
    ensures part { OnErr result (AppendsLess (K.written sink.old) (K.written sink.new)
        (line.old ++ values_text (map shown values.now))) }
    ensures cause { HasCause (K.faults sink.old) (K.faults sink.new) result }
{
    for value in values {
        push_value(line, sink, value)?;
    }
    Ok(())
}

/// A space and the value.
pub(crate) fn push_value<K: Sink>(
    line: &mut ReplyLine,
    sink: &mut K,
    value: &Val<'_>,
) -> Result<(), Failed>
    ensures all { OnOk result (Gathers (K.written sink.old) line.old (K.written sink.new) line.new
        (codes " " ++ value_text (shown value.now))) }
    ensures part { OnErr result (AppendsLess (K.written sink.old) (K.written sink.new)
        (line.old ++ (codes " " ++ value_text (shown value.now)))) }
    ensures cause { HasCause (K.faults sink.old) (K.faults sink.new) result }
{
    match value {
        Val::Int(n) => push_int(line, sink, *n),
        Val::Slice(bytes) => push_text(line, sink, bytes),
        Val::Own(text) => push_text(line, sink, text.bytes()),
    }
}

fn push_int<K: Sink>(line: &mut ReplyLine, sink: &mut K, n: i64) -> Result<(), Failed>
    ensures all { OnOk result (Gathers (K.written sink.old) line.old (K.written sink.new) line.new
        (codes " " ++ signed_decimal n)) }
    ensures part { OnErr result (AppendsLess (K.written sink.old) (K.written sink.new)
        (line.old ++ (codes " " ++ signed_decimal n))) }
    ensures cause { HasCause (K.faults sink.old) (K.faults sink.new) result }
{
    line.make_room(sink, 41)?;
    line.add(b" ");
    line.add(Buffer::new().format(n).as_bytes());
    Ok(())
}

// A space, and between two quotes a text whose bytes are put as they are. A line has room for it.
fn push_whole<K: Sink>(line: &mut ReplyLine, sink: &mut K, bytes: &[u8]) -> Result<(), Failed>
    requires { length bytes.now + 3 ≤ 4096 }
    ensures all { OnOk result (Gathers (K.written sink.old) line.old (K.written sink.new) line.new
        (codes " '" ++ bytes.now ++ codes "'")) }
    ensures part { OnErr result (AppendsLess (K.written sink.old) (K.written sink.new)
        (line.old ++ (codes " '" ++ bytes.now ++ codes "'"))) }
    ensures cause { HasCause (K.faults sink.old) (K.faults sink.new) result }
{
    line.make_room(sink, bytes.len() + MARKS)?;
    line.add(b" '");
    line.add(bytes);
    line.add(b"'");
    Ok(())
}

// Each piece that is pushed ends with a quote, and the next begins with the same quote once more.
fn push_pieces<K: Sink>(line: &mut ReplyLine, sink: &mut K, bytes: &[u8]) -> Result<(), Failed>
    ensures all { OnOk result (Gathers (K.written sink.old) line.old (K.written sink.new) line.new
        (doubled bytes.now)) }
    ensures part { OnErr result (AppendsLess (K.written sink.old) (K.written sink.new)
        (line.old ++ doubled bytes.now)) }
    ensures cause { HasCause (K.faults sink.old) (K.faults sink.new) result }
{
    let mut start = 0;
    for (i, b) in bytes.iter().enumerate() {
        if *b == b'\'' {
            line.push(sink, &bytes[start..=i])?;
            start = i;
        }
    }
    line.push(sink, &bytes[start..])
}

// A space, and between two quotes a text of any length, with its quotes doubled.
fn push_doubled<K: Sink>(line: &mut ReplyLine, sink: &mut K, bytes: &[u8]) -> Result<(), Failed>
    ensures all { OnOk result (Gathers (K.written sink.old) line.old (K.written sink.new) line.new
        (codes " '" ++ doubled bytes.now ++ codes "'")) }
    ensures part { OnErr result (AppendsLess (K.written sink.old) (K.written sink.new)
        (line.old ++ (codes " '" ++ doubled bytes.now ++ codes "'"))) }
    ensures cause { HasCause (K.faults sink.old) (K.faults sink.new) result }
{
    line.push(sink, b" '")?;
    push_pieces(line, sink, bytes)?;
    line.push(sink, b"'")
}

// A space and the text, between two quotes. Most texts have no quotes: these are looked through
// many bytes at a time, and gathered at once, where a line has room for them.
fn push_text<K: Sink>(line: &mut ReplyLine, sink: &mut K, bytes: &[u8]) -> Result<(), Failed>
    ensures all { OnOk result (Gathers (K.written sink.old) line.old (K.written sink.new) line.new
        (codes " '" ++ doubled bytes.now ++ codes "'")) }
    ensures part { OnErr result (AppendsLess (K.written sink.old) (K.written sink.new)
        (line.old ++ (codes " '" ++ doubled bytes.now ++ codes "'"))) }
    ensures cause { HasCause (K.faults sink.old) (K.faults sink.new) result }
{
    if bytes.len() > ROOM - MARKS || bytes.contains(&b'\'') {
        return push_doubled(line, sink, bytes);
    }
    push_whole(line, sink, bytes)
}
