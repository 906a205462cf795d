//! The lines of SHOW SCHEMA: each table of a version with its columns.

ghost use Rattle.std.specs.Prelude.{◌≡◌, ◌++◌, map, drop, IfOk, OnOk, OnErr, Err};
ghost use Rattle.std.specs.FinMap.{entries};
ghost use Rattle.std.specs.Io.KnownBytes.{Appends};
ghost use Rattle.prima_io.specs.Moves.{AppendsPrefix, AppendsLess};
ghost use Rattle.answer_text.specs.Causes.{HasStopCause};
ghost use Rattle.answer_text.specs.declared.stop.PutStop.TheVariants as stop;
ghost use Rattle.answer_text.specs.Texts.{table_text, tables_text, schema_text};

use crate::made_reply::{add_count, put_lines};
use crate::stop::PutStop;
use prima_base::NoMemory;
use prima_io::Sink;
use schema_catalog::{Schema, Table};
use smo_parse::{put, write_columns};
use std::alloc::Global;

// The line of a table.
fn add_table(lines: &mut Vec<u8>, table: &Table) -> Result<(), NoMemory>
    ensures { OnOk result (lines.new.items ≡ lines.old.items ++ table_text table.now) }
{
    put(lines, b"table ")?;
    put(lines, table.name().bytes())?;
    put(lines, b" ")?;
    write_columns(lines, table.columns())?;
    put(lines, b"\n")
}

// The lines of all tables.
fn add_tables(lines: &mut Vec<u8>, schema: &Schema) -> Result<(), NoMemory>
    ensures { OnOk result (lines.new.items ≡ lines.old.items ++ tables_text (entries schema.now)) }
{
    for place in 0..schema.len() {
        add_table(lines, schema.at(place))?;
    }
    Ok(())
}

// The lines of all tables, and then how many they are.
fn schema_lines(alloc: Global, schema: &Schema) -> Result<Vec<u8>, NoMemory>
    ensures { IfOk result (λ lines. lines.items ≡ schema_text schema.now) }
{
    let mut lines = Vec::new(alloc);
    add_tables(&mut lines, schema)?;
    add_count(&mut lines, schema.len() as u64)?;
    Ok(lines)
}

/// Puts a line for each table of the schema, in the order of names, and then how many they are. A
/// failing sink's count has risen; a prefix of the lines, and not all of them, was then put. Where
/// memory ran out nothing was put.
pub fn put_schema<K: Sink>(alloc: Global, sink: &mut K, schema: &Schema) -> Result<(), PutStop>
    ensures all { OnOk result (Appends (K.written sink.old) (K.written sink.new)
        (schema_text schema.now)) }
    ensures part { OnErr result (AppendsPrefix (K.written sink.old) (K.written sink.new)
        (schema_text schema.now)) }
    ensures less { result ≡ Err stop.WriteFault
        → AppendsLess (K.written sink.old) (K.written sink.new) (schema_text schema.now) }
    ensures unsaid { result ≡ Err stop.NoMemory → K.written sink.new ≡ K.written sink.old }
    ensures cause { HasStopCause (K.faults sink.old) (K.faults sink.new) result }
{
    put_lines(sink, schema_lines(alloc, schema))
}
