//! The lines of SHOW VERSIONS: each version with the moments at which it is in force, its operator
//! and its inverse.

ghost use Rattle.std.specs.Prelude.{◌≡◌, ◌++◌, ◌+◌, ◌<◌, ◌^◌, length, map, IfOk, OnOk, OnErr, Err};
ghost use Rattle.std.specs.Io.KnownBytes.{Appends};
ghost use Rattle.prima_io.specs.Moves.{AppendsPrefix, AppendsLess};
ghost use Rattle.smo_ops_types.specs.Operators.{operator_of, evolutions_of};
ghost use Rattle.smo_ops_types.specs.Commands.{version_of};
ghost use Rattle.smo_parse.specs.Texts.{operator_text};
ghost use Rattle.answer_text.specs.Causes.{HasStopCause};
ghost use Rattle.answer_text.specs.declared.stop.PutStop.TheVariants as stop;
ghost use Rattle.answer_text.specs.Texts.{more_operators, inverse_text, version_head};
ghost use Rattle.answer_text.specs.Texts.{first_version_text, version_text, version_texts};
ghost use Rattle.answer_text.specs.Texts.{versions_text};

use crate::line::ReplyLine;
use crate::made_reply::{add_count, put_lines};
use crate::stop::PutStop;
use prima_base::NoMemory;
use prima_io::Sink;
use smo_ops::{Op, Version, begins_at};
use smo_parse::{op_text, put};
use std::alloc::Global;

// An operator's canonical text, after a word.
fn add_operator(alloc: Global, line: &mut Vec<u8>, word: &[u8], op: &Op) -> Result<(), NoMemory>
    ensures { OnOk result (line.new.items ≡ line.old.items
        ++ (word.now ++ operator_text (operator_of op.now))) }
{
    put(line, word)?;
    let text = op_text(alloc, op)?;
    put(line, &text)
}

// Operators, each after THEN.
fn add_more_operators(alloc: Global, line: &mut Vec<u8>, ops: &[Op]) -> Result<(), NoMemory>
    ensures { OnOk result (line.new.items ≡ line.old.items
        ++ more_operators (evolutions_of ops.now)) }
{
    match ops {
        [] => Ok(()),
        [op, more @ ..] => {
            add_operator(alloc, line, b" THEN ", op)?;
            add_more_operators(alloc, line, more)
        }
    }
}

// The inverse, where one is named.
fn add_inverse(alloc: Global, line: &mut Vec<u8>, inverse: &[Op]) -> Result<(), NoMemory>
    ensures { OnOk result (line.new.items ≡ line.old.items
        ++ inverse_text (evolutions_of inverse.now)) }
{
    match inverse {
        [] => Ok(()),
        [op, more @ ..] => {
            add_operator(alloc, line, b" INVERSE ", op)?;
            add_more_operators(alloc, line, more)
        }
    }
}

// The number of a version, and the moments from which and up to which it is in force.
#[tactic(auto, unfolding(crate::specs::Texts::version_head))]
fn head_line(number: u64, start: u64, end: u64) -> ReplyLine
    ensures { result ≡ version_head number start end }
{
    let mut line = ReplyLine::new();
    line.add(b"version ");
    line.add_number(number);
    line.add(b" ");
    line.add_number(start);
    line.add(b" ");
    line.add_end(end);
    line
}

fn add_head(line: &mut Vec<u8>, number: u64, start: u64, end: u64) -> Result<(), NoMemory>
    ensures { OnOk result (line.new.items ≡ line.old.items ++ version_head number start end) }
{
    let head = head_line(number, start, end);
    put(line, head.held())
}

// The line of version 0.
fn add_first_version(lines: &mut Vec<u8>, end: u64) -> Result<(), NoMemory>
    ensures { OnOk result (lines.new.items ≡ lines.old.items ++ first_version_text end) }
{
    add_head(lines, 0, 0, end)?;
    put(lines, b"\n")
}

// The line of a version.
fn add_version(
    alloc: Global,
    lines: &mut Vec<u8>,
    number: u64,
    version: &Version,
    end: u64,
) -> Result<(), NoMemory>
    ensures { OnOk result (lines.new.items ≡ lines.old.items
        ++ version_text number (version_of version.now) end) }
{
    add_head(lines, number, version.stamp, end)?;
    add_operator(alloc, lines, b" ", &version.op)?;
    add_inverse(alloc, lines, &version.inverse)?;
    put(lines, b"\n")
}

// The lines of versions, the first of which has this number.
fn add_versions(
    alloc: Global,
    lines: &mut Vec<u8>,
    number: u64,
    versions: &[Version],
) -> Result<(), NoMemory>
    requires { number + length versions.now < 2 ^ 64 }
    ensures { OnOk result (lines.new.items ≡ lines.old.items
        ++ version_texts number (map version_of versions.now)) }
{
    match versions {
        [] => Ok(()),
        [first, more @ ..] => {
            add_version(alloc, lines, number, first, begins_at(more, 1))?;
            add_versions(alloc, lines, number + 1, more)
        }
    }
}

// The lines of all versions, version 0 first, and then how many they are.
#[tactic(auto, unfolding(crate::specs::Texts::versions_text))]
fn version_lines(alloc: Global, versions: &[Version]) -> Result<Vec<u8>, NoMemory>
    ensures { IfOk result (λ lines. lines.items ≡ versions_text (map version_of versions.now)) }
{
    let mut lines = Vec::new(alloc);
    add_first_version(&mut lines, begins_at(versions, 1))?;
    add_versions(alloc, &mut lines, 1, versions)?;
    add_count(&mut lines, versions.len() as u64 + 1)?;
    Ok(lines)
}

/// Puts a line for each version, version 0 first, and then how many they are. A failing sink's
/// count has risen; a prefix of the lines, and not all of them, was then put. Where memory ran out
/// nothing was put.
pub fn put_versions<K: Sink>(
    alloc: Global,
    sink: &mut K,
    versions: &[Version],
) -> Result<(), PutStop>
    ensures all { OnOk result (Appends (K.written sink.old) (K.written sink.new)
        (versions_text (map version_of versions.now))) }
    ensures part { OnErr result (AppendsPrefix (K.written sink.old) (K.written sink.new)
        (versions_text (map version_of versions.now))) }
    ensures less { result ≡ Err stop.WriteFault
        → AppendsLess (K.written sink.old) (K.written sink.new)
        (versions_text (map version_of versions.now)) }
    ensures unsaid { result ≡ Err stop.NoMemory → K.written sink.new ≡ K.written sink.old }
    ensures cause { HasStopCause (K.faults sink.old) (K.faults sink.new) result }
{
    put_lines(sink, version_lines(alloc, versions))
}
