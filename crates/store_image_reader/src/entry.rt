//! Reading the entries of columns.

ghost use Rattle.std.specs.Prelude.{◌≡◌, ◌+◌, ◌<◌, ◌≤◌, map, length, IfOk, IfSome};
ghost use Rattle.command_codec.specs.Reads.{Reads};
ghost use Rattle.prima_base.specs.Columns.{has_type};
ghost use Rattle.prima_base.specs.Order.{shown};
ghost use Rattle.store_image_spec.specs.ItemChecks.{is_due};
ghost use Rattle.store_image_spec.specs.Reader as spec;
ghost use Rattle.command_codec_spec.specs.Reading.{map_to, pair};
ghost use Rattle.command_codec_spec.specs.Reader as parts;
ghost use Rattle.store_image_reader.specs.Seen.{cell_seen, cells_seen, unchecked_seen};
ghost use Rattle.store_image_reader.specs.Due.{keys_left, IsNextDue};

use crate::count::{count_64, number_64, room_for};
use crate::key::{is_period, period};
use command_codec::{ReadStop, Reader, borrowed_value};
use history_store::Cell;
use prima_base::{ColType, Name, Period, Val};
use std::alloc::Global;

// The fewest bytes of an entry: an id, an empty text, a start and an end.
const LEAST_ENTRY: usize = 27;

// What is read of an entry before it is checked. A text stays where it stands in the image.
#[derive(Drop)]
struct Unchecked<'a> {
    id: u64,
    value: Val<'a>,
    start: u64,
    end: u64,
}

// An entry, not yet checked.
fn entry_read<'a>(reader: &mut Reader<'a>) -> Result<Unchecked<'a>, ReadStop>
    ensures { Reads unchecked_seen (map_to spec.cell_of
        (pair (pair parts.number_64 parts.value) spec.period) reader.old.rest.now) result
        reader.new.rest.now }
{
    let id = number_64(reader)?;
    let value = borrowed_value(reader)?;
    let (start, end) = period(reader)?;
    Ok(Unchecked {
        id,
        value,
        start,
        end,
    })
}

// Whether the value has this type.
fn has_type(kind: ColType, value: &Val<'_>) -> bool
    ensures { result ≡ has_type kind (shown value.now) }
{
    match (kind, value) {
        (ColType::Int, Val::Int(_)) | (ColType::Text, Val::Slice(_) | Val::Own(_)) => true,
        (ColType::Int, Val::Slice(_) | Val::Own(_)) | (ColType::Text, Val::Int(_)) => false,
    }
}

// Whether the entry is the one that is due: of the key with this id, of whose period this part is
// not yet filled.
fn is_due(last: Option<u64>, kind: ColType, id: u64, left: Period, read: &Unchecked<'_>) -> bool
    ensures { result ≡ is_due last kind id left (unchecked_seen read.now) }
{
    let begins = read.id == id && read.start == left.start();
    let lasts = is_period(last, read.start, read.end) && read.end <= left.end();
    begins && has_type(kind, &read.value) && lasts
}

// The entry that is due.
fn entry<'a>(
    reader: &mut Reader<'a>,
    last: Option<u64>,
    kind: ColType,
    id: u64,
    left: Period,
) -> Result<Cell<'a>, ReadStop>
    ensures reads { Reads cell_seen (spec.entry last kind id left reader.old.rest.now) result
        reader.new.rest.now }
    ensures within { IfOk result (λ c. c.period.end ≤ left.end) }
{
    let first = reader.rest;
    match entry_read(reader) {
        Ok(read) if is_due(last, kind, id, left, &read) => {
            let Unchecked {
                id,
                value,
                start,
                end,
            } = read;
            let period = Period::between(start, end);
            Ok(Cell { id, value, period })
        }
        Ok(_) => {
            reader.rest = first;
            Err(ReadStop::Unexpected)
        }
        Err(stop) => {
            reader.rest = first;
            Err(stop)
        }
    }
}

// The key whose entries are read, by its id, and the part of its period that is not yet filled;
// none after the last key.
#[derive(Clone, Copy)]
struct Due {
    id: usize,
    left: Option<Period>,
}

// The first key, of which nothing is filled.
fn first_due(keys: &[Period]) -> Due
    ensures id { result.id ≡ 0 }
    ensures keys { keys_left keys.now result ≡ keys.now }
    ensures known { IfSome result.left (λ left. result.id < length keys.now) }
{
    Due {
        id: 0,
        left: keys.first().copied(),
    }
}

// What is due when this part of the key with this id is filled up to the end of a period.
fn next_due(keys: &[Period], id: usize, left: Period, filled: Period) -> Due
    requires known { id < length keys.now }
    requires within { filled.end ≤ left.end }
    ensures next { IsNextDue keys.now id left filled.end result }
    ensures known { IfSome result.left (λ left. result.id < length keys.now) }
{
    let end = filled.end();
    if end == left.end() {
        return Due {
            id: id + 1,
            left: keys.get(id + 1).copied(),
        };
    }
    Due {
        id,
        left: Some(Period::between(end, left.end())),
    }
}

// So many entries, which fill the periods of the keys. Where one is missing, or more follow, the
// reader stands where it is looked for.
fn entries<'a>(
    alloc: Global,
    reader: &mut Reader<'a>,
    last: Option<u64>,
    kind: ColType,
    keys: &[Period],
    count: u64,
) -> Result<Vec<Cell<'a>>, ReadStop>
    ensures { Reads (λ v. map cell_seen v.items)
        (spec.entries last kind count 0 keys.now reader.old.rest.now) result reader.new.rest.now }
{
    let mut list = Vec::with_capacity(alloc, room_for(count, reader, LEAST_ENTRY))?;
    let mut due = first_due(keys);
    for _ in 0..count {
        let Some(left) = due.left else {
            return Err(ReadStop::Unexpected);
        };
        let cell = entry(reader, last, kind, due.id as u64, left)?;
        due = next_due(keys, due.id, left, cell.period);
        list.push(cell)?;
    }
    match due.left {
        Some(_) => Err(ReadStop::Unexpected),
        None => Ok(list),
    }
}

// The entries of a column, with their count before them.
#[tactic(auto, unfolding(store_image_spec::specs::Reader::column_entries))]
fn column_entries<'a>(
    alloc: Global,
    reader: &mut Reader<'a>,
    last: Option<u64>,
    keys: &[Period],
    kind: ColType,
) -> Result<Vec<Cell<'a>>, ReadStop>
    ensures { Reads (λ v. map cell_seen v.items)
        (spec.column_entries last keys.now kind reader.old.rest.now) result reader.new.rest.now }
{
    let count = count_64(reader)?;
    entries(alloc, reader, last, kind, keys, count)
}

/// The entries of each of these columns, in their order.
pub(crate) fn columns<'a>(
    alloc: Global,
    reader: &mut Reader<'a>,
    last: Option<u64>,
    keys: &[Period],
    columns: &[(Name, ColType)],
) -> Result<Vec<Vec<Cell<'a>>>, ReadStop>
    ensures { Reads (λ v. cells_seen v.items)
        (spec.columns last keys.now columns.now reader.old.rest.now) result reader.new.rest.now }
{
    let mut list = Vec::with_capacity(alloc, columns.len())?;
    for (_, kind) in columns {
        list.push(column_entries(alloc, reader, last, keys, *kind)?)?;
    }
    Ok(list)
}
