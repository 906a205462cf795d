//! Reading what is kept over lifelines.

ghost use Rattle.std.specs.Prelude.{◌≡◌, All, IfOk, length, map};
ghost use Rattle.command_codec.specs.Reads.{Reads};
ghost use Rattle.command_codec_spec.specs.Reading.{bind, map_to};
ghost use Rattle.store_image_spec.specs.Items.{item, checked};
ghost use Rattle.store_image_spec.specs.ItemChecks.{is_line};
ghost use Rattle.store_image_spec.specs.Encoding.{last_number};
ghost use Rattle.store_image_spec.specs.Reader as spec;
ghost use Rattle.store_image_reader.specs.Seen.{line_seen, parts_seen, stored_seen, lines_seen};
ghost use Rattle.store_image_reader.specs.Seen.{head_of};
ghost use Rattle.store_image_reader.specs.Ordered.{IsOrdered};

use crate::count::count_32;
use crate::due::DueLine;
use crate::entry::columns;
use crate::key::keys;
use command_codec::{ReadStop, Reader, name};
use history_store::Cell;
use prima_base::{Name, Period};
use std::alloc::Global;
use store_image_rows::order_of;

// In place of the last version of a lifeline that lives.
const NO_LAST: u32 = 0xFFFF_FFFF;

/// What is kept over a lifeline: the period of each key, whose id is its place, and the entries of
/// each column, in the order of the columns' names. Their texts stay where they stand in the image.
/// Beside them the ids of the rows that go on, in the order of their rows.
#[derive(Drop)]
pub struct ReadLine<'a> {
    pub keys: Vec<Period>,
    pub cells: Vec<Vec<Cell<'a>>>,
    pub order: Vec<usize>,
}

// The period of each key, and the entries of each column.
type Parts<'a> = (Vec<Period>, Vec<Vec<Cell<'a>>>);

// A first and a last version, and a table.
#[tactic(auto, unfolding(store_image_spec::specs::Reader::line_head, store_image_spec::specs::Reader::number_32))]
fn head_read(alloc: Global, reader: &mut Reader<'_>) -> Result<(u64, u64, Name), ReadStop>
    ensures { Reads (λ x. ((x.0, x.1), x.2)) (spec.line_head reader.old.rest.now) result
        reader.new.rest.now }
{
    let first = reader.number(4, 0xFFFF_FFFF)?;
    let last = reader.number(4, 0xFFFF_FFFF)?;
    let table = name(alloc, reader)?;
    Ok((first, last, table))
}

/// The number that stands in an image for a lifeline's last version. It takes no memory.
pub fn last_number(last: Option<u32>) -> u32
    ensures { result ≡ last_number last }
{
    match last {
        None => NO_LAST,
        Some(last) => last,
    }
}

// Whether these are the versions and the table of the lifeline.
fn is_line(due: &DueLine<'_>, first: u64, last: u64, table: &Name) -> bool
    ensures { result ≡ is_line (line_seen due.now) ((first, last), table.now) }
{
    first == due.first as u64 && last == last_number(due.last) as u64 && table == due.table
}

// The versions and the table of the lifeline that is due.
fn head(alloc: Global, reader: &mut Reader<'_>, due: &DueLine<'_>) -> Result<(), ReadStop>
    ensures { Reads (λ u. head_of (line_seen due.now))
        (item (checked (is_line (line_seen due.now)) spec.line_head) reader.old.rest.now) result
        reader.new.rest.now }
{
    let start = reader.rest;
    match head_read(alloc, reader) {
        Ok((first, last, table)) if is_line(due, first, last, &table) => Ok(()),
        Ok(_) => {
            reader.rest = start;
            Err(ReadStop::Unexpected)
        }
        Err(stop) => {
            reader.rest = start;
            Err(stop)
        }
    }
}

// What is kept over the lifeline that is due, whose rows are not yet checked.
fn parts<'a>(
    alloc: Global,
    reader: &mut Reader<'a>,
    last: Option<u64>,
    due: &DueLine<'_>,
) -> Result<Parts<'a>, ReadStop>
    ensures { Reads (parts_seen (line_seen due.now))
        (bind (item (checked (is_line (line_seen due.now)) spec.line_head))
        (λ h. bind (spec.keys last) (λ ks. map_to (spec.a_line (line_seen due.now) ks)
        (spec.columns last ks due.now.columns.now))) reader.old.rest.now) result
        reader.new.rest.now }
{
    head(alloc, reader, due)?;
    let keys = keys(alloc, reader, last)?;
    let cells = columns(alloc, reader, last, &keys, due.columns)?;
    Ok((keys, cells))
}

// What is kept over the lifeline that is due. Where two ids show one row, and nothing else breaks
// it, the reader stands at its first byte.
#[tactic(auto, unfolding(store_image_spec::specs::Reader::stored_line))]
fn stored_line<'a>(
    alloc: Global,
    reader: &mut Reader<'a>,
    last: Option<u64>,
    due: &DueLine<'_>,
) -> Result<ReadLine<'a>, ReadStop>
    ensures line { Reads (stored_seen (line_seen due.now))
        (spec.stored_line last (line_seen due.now) reader.old.rest.now) result reader.new.rest.now }
    ensures order { IfOk result IsOrdered }
{
    let start = reader.rest;
    let (keys, cells) = parts(alloc, reader, last, due)?;
    if let Some(order) = order_of(alloc, &keys, &cells)? {
        return Ok(ReadLine { keys, cells, order });
    }
    reader.rest = start;
    Err(ReadStop::Unexpected)
}

/// What is kept over each of the lifelines that are due, with their count before them. Where one is
/// missing, or more follow, the reader stands where it is looked for.
pub(crate) fn all_lines<'a>(
    alloc: Global,
    reader: &mut Reader<'a>,
    last: Option<u64>,
    due: &[DueLine<'_>],
) -> Result<Vec<ReadLine<'a>>, ReadStop>
    ensures lines { Reads (λ v. lines_seen (map line_seen due.now) v.items)
        (spec.all_lines last (map line_seen due.now) reader.old.rest.now) result
        reader.new.rest.now }
    ensures order { IfOk result (λ v. All IsOrdered v.items) }
{
    let count = count_32(reader)?;
    let mut list = Vec::new(alloc);
    for i in 0..count {
        let Some(line) = due.get(i as usize) else {
            return Err(ReadStop::Unexpected);
        };
        list.push(stored_line(alloc, reader, last, line)?)?;
    }
    if count < due.len() as u64 {
        return Err(ReadStop::Unexpected);
    }
    Ok(list)
}
