ghost use Rattle.std.specs.Prelude.{◌≡◌, OnOk, IfOk, [], ◌+◌, ◌-◌, ◌++◌, vec_len, vec_capacity};
ghost use Rattle.std.specs.Prelude.{◌^◌, ◌<◌, ◌≤◌, max, length, All, slice_index_or, ℕ};
ghost use Rattle.history_store_row_order.specs.Logs.{cells_of, few_of};
ghost use Rattle.history_store_writes.specs.Logs.{kinds_of, types_of, AreOf, AreRowsOf};
ghost use Rattle.history_store_writes.specs.Logs.{least_spare};
ghost use Rattle.history_store_writes.specs.Logs.{countable_rows, spare_rows};
ghost use Rattle.history_store_columns.specs.Keys.{ended_at, no_span};
ghost use Rattle.history_store_writes.specs.Writing.{put_row, put_rows, unpaired, new_keys};
ghost use Rattle.history_store_writes.specs.Writing.{end_keys};
ghost use Rattle.history_store_writes.specs.Writing.{keys_handed, logs_handed};
ghost use Rattle.history_store_row_order.specs.Handing.{handed};
ghost use Rattle.history_store_row_order.specs.Rows.{AllWidth};
ghost use Rattle.history_store_writes.specs.ValueIndexes.{Indexed, least_room};
ghost use Rattle.history_store_columns.specs.Log.{Log};
ghost use Rattle.history_store_writes.specs.RowRoom.{row_room, rows_room};
ghost use Rattle.history_store_spec.specs.Store.{cells_in};
ghost use Rattle.relations_spec.specs.Spans.{forever};

use crate::other_index::reserve_each;
use crate::value_index::ValueIndex;
use history_store_columns::{Column, text_room};
use history_store_index::RowIndex;
use history_store_row_order::few_of;
use prima_base::{ColType, Name, NoMemory, Period};
use prima_base_rows::GivenRow;
use std::alloc::Global;

/// From the stamp on, the row with this id has these values. It takes no memory.
fn put_row(columns: &mut [Column], id: usize, row: &GivenRow<'_>, stamp: u64)
    requires width { length row.now ≡ length columns.old }
    requires known { All (λ c. id ≤ c.ids) columns.old }
    requires typed { AreOf (kinds_of columns.old) row.now }
    requires room { All (λ c. row_room row.now ≤ c.spare) columns.old }
    ensures kinds { kinds_of columns.new ≡ kinds_of columns.old }
    ensures cells { cells_of columns.new ≡ put_row id row.now stamp (cells_of columns.old) }
    ensures ids { (k : _) (d : Log) → k < length columns.old
        → (slice_index_or columns.new k d).ids ≡ max (slice_index_or columns.old k d).ids (id + 1) }
    ensures spare { (k : _) (d : Log) → k < length columns.old
        → (slice_index_or columns.old k d).spare ≤ (slice_index_or columns.new k d).spare + row_room
        row.now }
{
    for k in 0..row.len() {
        columns[k].put(id, &row.value(k), stamp);
    }
}

// The period up to the moment.
fn ended(period: Period, moment: u64) -> Period
    requires { period.start < moment }
    ensures { result ≡ ended_at moment period }
{
    Period::between(period.start(), moment)
}

/// Ends the keys with these ids.
fn end_keys(keys: &mut Vec<Period>, ids: &[usize], stamp: u64)
    requires known { All (λ id. id < vec_len keys.old) ids.now }
    requires later { (k : _) → k < vec_len keys.old
        → (slice_index_or keys.old.items k no_span).start < stamp }
    ensures keys { keys.new.items ≡ end_keys ids.now stamp keys.old.items }
    ensures len { vec_len keys.new ≡ vec_len keys.old }
    ensures capacity { vec_capacity keys.new ≡ vec_capacity keys.old }
{
    for id in ids {
        keys[*id] = ended(keys[*id], stamp);
    }
}

/// The i-th row for the i-th lost id, and for a new id where there is none.
fn hand_rows(
    keys: &mut Vec<Period>,
    columns: &mut [Column],
    lost: &[usize],
    gained: Vec<GivenRow<'_>>,
    stamp: u64,
)
    requires valid { stamp < forever }
    requires wide { AllWidth (length columns.old) gained.items }
    requires known { All (λ id. id < vec_len keys.old) lost.now }
    requires ids { All (λ c. c.ids ≡ vec_len keys.old) columns.old }
    requires typed { AreRowsOf (kinds_of columns.old) gained.items }
    requires room { All (λ c. rows_room gained.items ≤ c.spare) columns.old }
    requires key_room { vec_len keys.old + length gained.items ≤ vec_capacity keys.old }
    ensures keys { keys.new.items ≡ keys.old.items
        ++ new_keys stamp (unpaired gained.entry.items lost.now) }
    ensures cells { cells_of columns.new
        ≡ put_rows (handed lost.now (vec_len keys.old) gained.entry.items) gained.entry.items stamp
        (cells_of columns.old) }
    ensures ids { All (λ c. c.ids ≡ vec_len keys.new) columns.new }
    ensures kinds { kinds_of columns.new ≡ kinds_of columns.old }
{
    let mut i = 0;
    for row in gained {
        let id = if i < lost.len() {
            lost[i]
        } else {
            keys.push_reserved(Period::from(stamp));
            keys.len() - 1
        };
        put_row(columns, id, &row, stamp);
        i += 1;
    }
}

/// Writes the gained rows, and ends the keys of the lost rows that have no partner. It takes no
/// memory.
pub fn apply(
    keys: &mut Vec<Period>,
    columns: &mut Vec<Column>,
    lost: &[usize],
    gained: Vec<GivenRow<'_>>,
    stamp: u64,
)
    requires valid { stamp < forever }
    requires wide { AllWidth (vec_len columns.old) gained.items }
    requires known { All (λ id. id < vec_len keys.old) lost.now }
    requires later { (k : _) → k < vec_len keys.old
        → (slice_index_or keys.old.items k no_span).start < stamp }
    requires ids { All (λ c. c.ids ≡ vec_len keys.old) columns.old.items }
    requires typed { AreRowsOf (kinds_of columns.old.items) gained.items }
    requires room { All (λ c. rows_room gained.items ≤ c.spare) columns.old.items }
    requires key_room { vec_len keys.old + length gained.items ≤ vec_capacity keys.old }
    ensures keys { keys.new.items ≡ keys_handed keys.old.items lost.now gained.entry.items stamp }
    ensures cells { cells_of columns.new.items
        ≡ logs_handed keys.old.items (cells_of columns.old.items) lost.now
        gained.entry.items stamp }
    ensures ids { All (λ c. c.ids ≡ vec_len keys.new) columns.new.items }
    ensures kinds { kinds_of columns.new.items ≡ kinds_of columns.old.items }
{
    let paired = gained.len().min(lost.len());
    end_keys(keys, lost.split_at(paired).1, stamp);
    hand_rows(keys, columns, lost, gained, stamp);
}

// How many units of room the row takes. A change takes fewer than 2^64 units: more are refused as
// out of memory.
fn row_room(row: &GivenRow<'_>) -> Result<usize, NoMemory>
    ensures { IfOk result (λ n. n ≡ row_room row.now) }
{
    let mut room = 1usize;
    for k in 0..row.len() {
        let Some(more) = room.checked_add(text_room(&row.value(k))) else {
            return Err(NoMemory);
        };
        room = more;
    }
    Ok(room)
}

/// How many units of room the rows take: each takes one, and one more for each 32 bytes of a text
/// of it. A change takes fewer than 2^64 units: more are refused as out of memory.
pub fn rows_room(rows: &[GivenRow<'_>]) -> Result<usize, NoMemory>
    ensures { IfOk result (λ n. n ≡ rows_room rows.now) }
{
    let mut room = 0usize;
    for row in rows {
        let Some(more) = room.checked_add(row_room(row)?) else {
            return Err(NoMemory);
        };
        room = more;
    }
    Ok(room)
}

/// Room for this many cells more in each column, with as many units of text.
pub fn reserve_all(columns: &mut Vec<Column>, more: usize) -> Result<(), NoMemory>
    ensures len { vec_len columns.new ≡ vec_len columns.old }
    ensures cells { cells_of columns.new.items ≡ cells_of columns.old.items }
    ensures kinds { kinds_of columns.new.items ≡ kinds_of columns.old.items }
    ensures ids { (k : _) (d : Log) → k < vec_len columns.old
        → (slice_index_or columns.new.items k d).ids ≡ (slice_index_or columns.old.items k d).ids }
    ensures spare { (least : _) → least_spare least columns.old.items ≤ least_spare least
        columns.new.items }
    ensures room { OnOk result (All (λ c. more ≤ c.spare) columns.new.items) }
{
    for k in 0..columns.len() {
        columns[k].reserve(more)?;
    }
    Ok(())
}

/// How many cells the columns have in all.
pub fn count_cells(columns: &[Column]) -> u64
    requires counted { cells_in (cells_of columns.now) < 2 ^ 64 }
    ensures { result ≡ cells_in (cells_of columns.now) }
{
    let mut cells = 0;
    for column in columns {
        cells += column.count() as u64;
    }
    cells
}

// Whether the cells could still be counted with this many rows more. A table has fewer than 2^64
// cells: more are refused as out of memory.
fn check_count(columns: &[Column], more: usize) -> Result<(), NoMemory>
    requires counted { cells_in (cells_of columns.now) < 2 ^ 64 }
    ensures { OnOk result (more ≤ countable_rows (cells_of columns.now)) }
{
    let width = columns.len().max(1) as u64;
    if more as u64 > (u64::MAX - count_cells(columns)) / width {
        return Err(NoMemory);
    }
    Ok(())
}

/// Room for this many units more, of which a row takes at least one: for their keys, for the ids
/// of few of them in each index, for a cell of each in each column and as many units of text, and
/// in the number of all cells.
pub fn reserve_rows(
    keys: &mut Vec<Period>,
    live: &mut RowIndex,
    others: &mut Vec<ValueIndex>,
    columns: &mut Vec<Column>,
    more: usize,
) -> Result<(), NoMemory>
    requires counted { cells_in (cells_of columns.old.items) < 2 ^ 64 }
    ensures keys { keys.new.items ≡ keys.old.items }
    ensures live { live.new.ids ≡ live.old.ids }
    ensures others_len { vec_len others.new ≡ vec_len others.old }
    ensures others { (k : ℕ) (d : Indexed) → k < vec_len others.old
        → ((slice_index_or others.new.items k d).column
        ≡ (slice_index_or others.old.items k d).column)
        × ((slice_index_or others.new.items k d).ids
        ≡ (slice_index_or others.old.items k d).ids) }
    ensures len { vec_len columns.new ≡ vec_len columns.old }
    ensures cells { cells_of columns.new.items ≡ cells_of columns.old.items }
    ensures kinds { kinds_of columns.new.items ≡ kinds_of columns.old.items }
    ensures ids { (k : _) (d : Log) → k < vec_len columns.old
        → (slice_index_or columns.new.items k d).ids ≡ (slice_index_or columns.old.items k d).ids }
    ensures spare { spare_rows (few_of (length live.old.ids))
        (least_room live.old.room others.old.items) (vec_capacity keys.old - vec_len keys.old)
        columns.old.items
        ≤ spare_rows (few_of (length live.new.ids)) (least_room live.new.room others.new.items)
        (vec_capacity keys.new - vec_len keys.new) columns.new.items }
    ensures room { OnOk result (more ≤ spare_rows (few_of (length live.new.ids))
        (least_room live.new.room others.new.items) (vec_capacity keys.new - vec_len keys.new)
        columns.new.items) }
{
    check_count(columns, more)?;
    let few = more.min(few_of(live.len()));
    keys.reserve(more)?;
    live.reserve(few)?;
    reserve_each(others, few)?;
    reserve_all(columns, more)
}

/// These columns without rows.
pub fn empty_columns(alloc: Global, columns: &[(Name, ColType)]) -> Result<Vec<Column>, NoMemory>
    ensures width { IfOk result (λ v. length v.items ≡ length columns.now) }
    ensures kinds { IfOk result (λ v. kinds_of v.items ≡ types_of columns.now) }
    ensures cells { IfOk result (λ v. All (λ c. c.cells ≡ []) v.items) }
    ensures ids { IfOk result (λ v. All (λ c. c.ids ≡ 0) v.items) }
{
    let mut empty = Vec::with_capacity(alloc, columns.len())?;
    for (_, kind) in columns {
        empty.push(Column::new(alloc, *kind))?;
    }
    Ok(empty)
}
