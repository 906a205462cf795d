//! The line of a pair of entries whose periods are related.

ghost use Rattle.std.specs.Prelude.{◌≡◌, ◌+◌, ◌≤◌, ◌++◌, length, map, codes, OnOk, OnErr};
ghost use Rattle.std.specs.Io.KnownBytes.{Appends};
ghost use Rattle.prima_io.specs.Causes.{HasCause};
ghost use Rattle.prima_io.specs.Moves.{AppendsLess};
ghost use Rattle.prima_base.specs.Order.{shown};
ghost use Rattle.answer_text.specs.Gathering.{Gathers};
ghost use Rattle.answer_text.specs.Texts.{period_text, entry_text, pair_text, count_text};

use crate::line::ReplyLine;
use crate::listing::push_values;
use itoa::Buffer;
use prima_base::{Period, Val};
use prima_io::{Failed, Sink};

/// Puts the line of two entries, with the periods of both. It takes no memory. `Failed` comes only
/// where the sink's count of faults rose; a prefix of the line, and not all of it, was then put.
pub fn put_pair<K: Sink>(
    sink: &mut K,
    left: Period,
    left_values: &[Val<'_>],
    right: Period,
    right_values: &[Val<'_>],
) -> Result<(), Failed>
    ensures all { OnOk result (Appends (K.written sink.old) (K.written sink.new)
        (pair_text (record { item = map shown left_values.now; period = left })
        (record { item = map shown right_values.now; period = right }))) }
    ensures part { OnErr result (AppendsLess (K.written sink.old) (K.written sink.new)
        (pair_text (record { item = map shown left_values.now; period = left })
        (record { item = map shown right_values.now; period = right }))) }
    ensures cause { HasCause (K.faults sink.old) (K.faults sink.new) result }
{
    let mut line = ReplyLine::new();
    push_pair(&mut line, sink, left, left_values, right, right_values)?;
    line.flush(sink)
}

/// Puts the line after those of all pairs, which are so many: two answers may have more of them than
/// 64 bits count. It takes no memory.
pub fn put_pair_count<K: Sink>(sink: &mut K, count: u128) -> Result<(), Failed>
    ensures all { OnOk result (Appends (K.written sink.old) (K.written sink.new)
        (count_text count)) }
    ensures part { OnErr result (AppendsLess (K.written sink.old) (K.written sink.new)
        (count_text count)) }
    ensures cause { HasCause (K.faults sink.old) (K.faults sink.new) result }
{
    let mut line = ReplyLine::new();
    line.add(b"end ");
    line.add(Buffer::new().format(count).as_bytes());
    line.add(b"\n");
    line.flush(sink)
}

#[tactic(auto, unfolding(crate::specs::Texts::pair_text))]
fn push_pair<K: Sink>(
    line: &mut ReplyLine,
    sink: &mut K,
    left: Period,
    left_values: &[Val<'_>],
    right: Period,
    right_values: &[Val<'_>],
) -> Result<(), Failed>
    ensures all { OnOk result (Gathers (K.written sink.old) line.old (K.written sink.new) line.new
        (pair_text (record { item = map shown left_values.now; period = left })
        (record { item = map shown right_values.now; period = right }))) }
    ensures part { OnErr result (AppendsLess (K.written sink.old) (K.written sink.new)
        (line.old ++ pair_text (record { item = map shown left_values.now; period = left })
        (record { item = map shown right_values.now; period = right }))) }
    ensures cause { HasCause (K.faults sink.old) (K.faults sink.new) result }
{
    push_entry(line, sink, b"pair", left, left_values)?;
    push_right(line, sink, right, right_values)
}

// The entry on the right, and the end of the line.
fn push_right<K: Sink>(
    line: &mut ReplyLine,
    sink: &mut K,
    period: Period,
    values: &[Val<'_>],
) -> Result<(), Failed>
    ensures all { OnOk result (Gathers (K.written sink.old) line.old (K.written sink.new) line.new
        (entry_text (codes " with") (record { item = map shown values.now; period = period })
        ++ codes "\n")) }
    ensures part { OnErr result (AppendsLess (K.written sink.old) (K.written sink.new)
        (line.old ++ (entry_text (codes " with")
        (record { item = map shown values.now; period = period }) ++ codes "\n"))) }
    ensures cause { HasCause (K.faults sink.old) (K.faults sink.new) result }
{
    push_entry(line, sink, b" with", period, values)?;
    line.push(sink, b"\n")
}

// A word, and the entry after it.
fn push_entry<K: Sink>(
    line: &mut ReplyLine,
    sink: &mut K,
    word: &[u8],
    period: Period,
    values: &[Val<'_>],
) -> Result<(), Failed>
    requires { length word.now ≤ 5 }
    ensures all { OnOk result (Gathers (K.written sink.old) line.old (K.written sink.new) line.new
        (entry_text word.now (record { item = map shown values.now; period = period }))) }
    ensures part { OnErr result (AppendsLess (K.written sink.old) (K.written sink.new)
        (line.old ++ entry_text word.now
        (record { item = map shown values.now; period = period }))) }
    ensures cause { HasCause (K.faults sink.old) (K.faults sink.new) result }
{
    push_period(line, sink, word, period)?;
    push_values(line, sink, values)
}

// A word, and the period after it.
fn push_period<K: Sink>(
    line: &mut ReplyLine,
    sink: &mut K,
    word: &[u8],
    period: Period,
) -> Result<(), Failed>
    requires { length word.now ≤ 5 }
    ensures all { OnOk result (Gathers (K.written sink.old) line.old (K.written sink.new) line.new
        (word.now ++ period_text period.start period.end)) }
    ensures part { OnErr result (AppendsLess (K.written sink.old) (K.written sink.new) line.old) }
    ensures cause { HasCause (K.faults sink.old) (K.faults sink.new) result }
{
    line.make_room(sink, 50)?;
    add_period(line, word, period);
    Ok(())
}

fn add_period(line: &mut ReplyLine, word: &[u8], period: Period)
    requires room { length line.old + 50 ≤ 4096 }
    requires short { length word.now ≤ 5 }
    ensures { line.new ≡ line.old ++ (word.now ++ period_text period.start period.end) }
{
    line.add(word);
    line.add(b" ");
    line.add_number(period.start());
    line.add(b" ");
    line.add_end(period.end());
}
