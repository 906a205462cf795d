//! The line of a group of rows, with what the aggregates have of it.

ghost use Rattle.std.specs.Prelude.{◌≡◌, ◌+◌, ◌≤◌, ◌++◌, length, map, codes, decimal, OnOk, OnErr};
ghost use Rattle.std.specs.Fmt.{signed_decimal};
ghost use Rattle.std.specs.Io.KnownBytes.{Appends};
ghost use Rattle.prima_io.specs.Causes.{HasCause};
ghost use Rattle.prima_io.specs.Moves.{AppendsLess};
ghost use Rattle.prima_base.specs.Order.{shown};
ghost use Rattle.prima_base.specs.Groups.{amount, group_shown};
ghost use Rattle.answer_text.specs.Gathering.{Gathers};
ghost use Rattle.answer_text.specs.Texts.{values_text, amount_text, amounts_text, aggregate_text};

use crate::line::ReplyLine;
use crate::listing::{push_head, push_value, push_values};
use itoa::Buffer;
use prima_base::{AggRow, AggValue};
use prima_io::{Failed, Sink};

/// Puts the line of a group, after its period where the periods are told (`periods`): its values,
/// and then what each aggregate has. It takes no memory. `Failed` comes only where the sink's count
/// of faults rose; a prefix of the line, and not all of it, was then put.
pub fn put_aggregate<K: Sink>(sink: &mut K, row: &AggRow<'_>, periods: bool) -> Result<(), Failed>
    ensures all { OnOk result (Appends (K.written sink.old) (K.written sink.new)
        (aggregate_text periods (group_shown row.now))) }
    ensures part { OnErr result (AppendsLess (K.written sink.old) (K.written sink.new)
        (aggregate_text periods (group_shown row.now))) }
    ensures cause { HasCause (K.faults sink.old) (K.faults sink.new) result }
{
    let mut line = ReplyLine::new();
    push_aggregate(&mut line, sink, row, periods)?;
    line.flush(sink)
}

#[tactic(auto, unfolding(crate::specs::Texts::aggregate_text))]
fn push_aggregate<K: Sink>(
    line: &mut ReplyLine,
    sink: &mut K,
    row: &AggRow<'_>,
    periods: bool,
) -> Result<(), Failed>
    ensures all { OnOk result (Gathers (K.written sink.old) line.old (K.written sink.new) line.new
        (aggregate_text periods (group_shown row.now))) }
    ensures part { OnErr result (AppendsLess (K.written sink.old) (K.written sink.new)
        (line.old ++ aggregate_text periods (group_shown row.now))) }
    ensures cause { HasCause (K.faults sink.old) (K.faults sink.new) result }
{
    push_head(line, sink, row.period, periods)?;
    push_group(line, sink, row)
}

// The values of a group, and what stands after them.
fn push_group<K: Sink>(line: &mut ReplyLine, sink: &mut K, row: &AggRow<'_>) -> Result<(), Failed>
    ensures all { OnOk result (Gathers (K.written sink.old) line.old (K.written sink.new) line.new
        (values_text (map shown row.now.group.items)
        ++ (amounts_text (map amount row.now.values.items) ++ codes "\n"))) }
    ensures part { OnErr result (AppendsLess (K.written sink.old) (K.written sink.new)
        (line.old ++ (values_text (map shown row.now.group.items)
        ++ (amounts_text (map amount row.now.values.items) ++ codes "\n")))) }
    ensures cause { HasCause (K.faults sink.old) (K.faults sink.new) result }
{
    push_values(line, sink, &row.group)?;
    push_line_of_amounts(line, sink, &row.values)
}

// What the aggregates have, and the end of the line.
fn push_line_of_amounts<K: Sink>(
    line: &mut ReplyLine,
    sink: &mut K,
    values: &[AggValue<'_>],
) -> Result<(), Failed>
    ensures all { OnOk result (Gathers (K.written sink.old) line.old (K.written sink.new) line.new
        (amounts_text (map amount values.now) ++ codes "\n")) }
    ensures part { OnErr result (AppendsLess (K.written sink.old) (K.written sink.new)
        (line.old ++ (amounts_text (map amount values.now) ++ codes "\n"))) }
    ensures cause { HasCause (K.faults sink.old) (K.faults sink.new) result }
{
    push_amounts(line, sink, values)?;
    line.push(sink, b"\n")
}

fn push_amounts<K: Sink>(
    line: &mut ReplyLine,
    sink: &mut K,
    values: &[AggValue<'_>],
) -> Result<(), Failed>
    ensures all { OnOk result (Gathers (K.written sink.old) line.old (K.written sink.new) line.new
        (amounts_text (map amount values.now))) }
    ensures part { OnErr result (AppendsLess (K.written sink.old) (K.written sink.new)
        (line.old ++ amounts_text (map amount values.now))) }
    ensures cause { HasCause (K.faults sink.old) (K.faults sink.new) result }
{
    for value in values {
        push_amount(line, sink, value)?;
    }
    Ok(())
}

// A space, and what an aggregate has.
fn push_amount<K: Sink>(
    line: &mut ReplyLine,
    sink: &mut K,
    value: &AggValue<'_>,
) -> Result<(), Failed>
    ensures all { OnOk result (Gathers (K.written sink.old) line.old (K.written sink.new) line.new
        (codes " " ++ amount_text (amount value.now))) }
    ensures part { OnErr result (AppendsLess (K.written sink.old) (K.written sink.new)
        (line.old ++ (codes " " ++ amount_text (amount value.now)))) }
    ensures cause { HasCause (K.faults sink.old) (K.faults sink.new) result }
{
    match value {
        AggValue::Count(count) => push_number(line, sink, *count),
        AggValue::Of(value) => push_value(line, sink, value),
        AggValue::Sum(sum) => push_sum(line, sink, *sum),
    }
}

fn push_number<K: Sink>(line: &mut ReplyLine, sink: &mut K, number: u64) -> Result<(), Failed>
    ensures all { OnOk result (Gathers (K.written sink.old) line.old (K.written sink.new) line.new
        (codes " " ++ decimal number)) }
    ensures part { OnErr result (AppendsLess (K.written sink.old) (K.written sink.new)
        (line.old ++ (codes " " ++ decimal number))) }
    ensures cause { HasCause (K.faults sink.old) (K.faults sink.new) result }
{
    line.make_room(sink, 21)?;
    line.add(b" ");
    line.add_number(number);
    Ok(())
}

fn push_sum<K: Sink>(line: &mut ReplyLine, sink: &mut K, sum: i128) -> Result<(), Failed>
    ensures all { OnOk result (Gathers (K.written sink.old) line.old (K.written sink.new) line.new
        (codes " " ++ signed_decimal sum)) }
    ensures part { OnErr result (AppendsLess (K.written sink.old) (K.written sink.new)
        (line.old ++ (codes " " ++ signed_decimal sum))) }
    ensures cause { HasCause (K.faults sink.old) (K.faults sink.new) result }
{
    line.make_room(sink, 41)?;
    line.add(b" ");
    line.add(Buffer::new().format(sum).as_bytes());
    Ok(())
}
