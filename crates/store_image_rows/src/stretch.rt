//! The stretches in which each id shows one row.

ghost use Rattle.std.specs.Prelude.{◌≡◌, ◌++◌, ◌∷◌, [], ◌<◌, map, drop, IfOk, OnOk};
ghost use Rattle.prima_base.specs.Order.{shown};
ghost use Rattle.store_image_rows.specs.Cells.{cell_seen, cells_seen};
ghost use Rattle.store_image_rows.specs.Stretches.{stretch_of, row_stretches, bare_from, longer};
ghost use Rattle.store_image_rows.specs.Stretches.{begun};
ghost use Rattle.store_image_rows.specs.Stretches.{ended_by, given, left_by, merged, all_merged};

use history_store::Cell;
use prima_base::{NoMemory, Period, Val, copy_vals};
use std::alloc::Global;
use std::mem;

/// An id shows these values in this period. They are borrowed.
#[derive(Drop)]
pub(crate) struct Stretch<'a> {
    pub(crate) id: u64,
    pub(crate) values: Vec<Val<'a>>,
    pub(crate) period: Period,
}

// A stretch without a value for each key.
fn of_keys<'a>(alloc: Global, keys: &[Period]) -> Result<Vec<Stretch<'a>>, NoMemory>
    ensures { IfOk result (λ v. row_stretches v.items ≡ bare_from 0 keys.now) }
{
    let mut stretches = Vec::with_capacity(alloc, keys.len())?;
    for (id, key) in keys.iter().enumerate() {
        stretches.push(Stretch {
            id: id as u64,
            values: Vec::new(alloc),
            period: *key,
        })?;
    }
    Ok(stretches)
}

// Puts a stretch with one value more, in this period, after the others.
fn put<'a>(
    done: &mut Vec<Stretch<'a>>,
    id: u64,
    values: Vec<Val<'a>>,
    cell: &Cell<'a>,
    period: Period,
) -> Result<(), NoMemory>
    ensures { OnOk result (row_stretches done.new.items ≡ row_stretches done.old.items
        ++ longer (record { id = id; row = map shown values.entry.items; period = period })
        (shown cell.now.value) period ∷ []) }
{
    let mut values = values;
    values.push(cell.value.copy()?)?;
    done.push(Stretch { id, values, period })?;
    Ok(())
}

// Puts the whole stretch with the entry's value after the others. It is used up.
fn finish<'a>(
    done: &mut Vec<Stretch<'a>>,
    stretch: &mut Stretch<'a>,
    cell: &Cell<'a>,
) -> Result<(), NoMemory>
    ensures { OnOk result (row_stretches done.new.items ≡ row_stretches done.old.items
        ++ longer (stretch_of stretch.old) (shown cell.now.value) stretch.old.period ∷ []) }
{
    let none = Vec::new(*stretch.values.allocator());
    let values = mem::replace(&mut stretch.values, none);
    put(done, stretch.id, values, cell, stretch.period)
}

// Puts the stretch up to the entry's end with its value after the others. The rest of it is left.
fn split<'a>(
    done: &mut Vec<Stretch<'a>>,
    stretch: &mut Stretch<'a>,
    cell: &Cell<'a>,
) -> Result<(), NoMemory>
    requires { cell.now.period.end < stretch.old.period.end }
    ensures done { OnOk result (row_stretches done.new.items ≡ row_stretches done.old.items
        ++ begun (stretch_of stretch.old) (cell_seen cell.now)) }
    ensures left { OnOk result (stretch_of stretch.new
        ≡ ended_by (stretch_of stretch.old) (cell_seen cell.now)) }
{
    let end = cell.period.end();
    if let Some(period) = Period::new(stretch.period.start(), end) {
        let values = copy_vals(*stretch.values.allocator(), &stretch.values, 1)?;
        put(done, stretch.id, values, cell, period)?;
    }
    stretch.period = Period::between(end, stretch.period.end());
    Ok(())
}

// Puts what the stretches from a place on have with the entry after the others, and answers the
// place of the first that is left.
fn take_in<'a>(
    done: &mut Vec<Stretch<'a>>,
    stretches: &mut [Stretch<'a>],
    from: usize,
    cell: &Cell<'a>,
) -> Result<usize, NoMemory>
    ensures done { OnOk result (row_stretches done.new.items ≡ row_stretches done.old.items
        ++ given (drop from (row_stretches stretches.old)) (cell_seen cell.now)) }
    ensures left { IfOk result (λ at. drop at (row_stretches stretches.new)
        ≡ left_by (drop from (row_stretches stretches.old)) (cell_seen cell.now)) }
{
    let mut at = from;
    'walk: while at < stretches.len() {
        let end = stretches[at].period.end();
        if cell.period.end() < end {
            split(done, &mut stretches[at], cell)?;
            return Ok(at);
        }
        finish(done, &mut stretches[at], cell)?;
        at += 1;
        if end == cell.period.end() {
            return Ok(at);
        }
    }
    Ok(at)
}

// What the stretches have with the entries of a column. A stretch is copied only where it is split;
// its texts stay borrowed.
fn with_column<'a>(
    alloc: Global,
    stretches: Vec<Stretch<'a>>,
    cells: &[Cell<'a>],
) -> Result<Vec<Stretch<'a>>, NoMemory>
    ensures { IfOk result (λ v. row_stretches v.items
        ≡ merged (row_stretches stretches.entry.items) (map cell_seen cells.now)) }
{
    let mut left = stretches;
    let mut done = Vec::with_capacity(alloc, left.len().max(cells.len()))?;
    let mut from = 0;
    for cell in cells {
        from = take_in(&mut done, &mut left, from, cell)?;
    }
    Ok(done)
}

/// The stretches in which each id shows one row, by id and start.
pub(crate) fn all_stretches<'a>(
    alloc: Global,
    keys: &[Period],
    cells: &[Vec<Cell<'a>>],
) -> Result<Vec<Stretch<'a>>, NoMemory>
    ensures { IfOk result (λ v. row_stretches v.items
        ≡ all_merged (bare_from 0 keys.now) (cells_seen cells.now)) }
{
    let mut stretches = of_keys(alloc, keys)?;
    for column in cells {
        stretches = with_column(alloc, stretches, column)?;
    }
    Ok(stretches)
}
