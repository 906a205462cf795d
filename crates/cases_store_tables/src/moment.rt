//! The rows that scans show at a moment.

ghost use Rattle.std.specs.Prelude.{◌≡◌};
ghost use Rattle.relations_spec.specs.Spans.{covers};

use crate::tested_table::Scanned;
use history_store::Cell;
use prima_base::{NoMemory, Period, Val};
use std::alloc::Global;

// A row as far as it is known: the values of its first columns, and its id.
#[derive(Drop, PartialEq, Eq, PartialOrd, Ord)]
struct Shown<'a> {
    values: Vec<Val<'a>>,
    id: u64,
}

/// Whether the period has the moment.
pub(crate) fn has(period: Period, moment: u64) -> bool
    ensures { result ≡ covers period moment }
{
    period.start() <= moment && moment < period.end()
}

// The ids whose keys have the moment, with no value.
fn shown_ids<'a>(alloc: Global, keys: &[Period], moment: u64) -> Result<Vec<Shown<'a>>, NoMemory> {
    let mut rows = Vec::new(alloc);
    for (id, key) in keys.iter().enumerate() {
        if has(*key, moment) {
            rows.push(Shown {
                values: Vec::new(alloc),
                id: id as u64,
            })?;
        }
    }
    Ok(rows)
}

// Puts the value that each row has at the moment after the others of the row; a cell of another id
// stays away.
fn show_column<'a>(
    cells: &[Cell<'a>],
    moment: u64,
    rows: &mut Vec<Shown<'a>>,
) -> Result<(), NoMemory> {
    let mut place: usize = 0;
    for cell in cells {
        if has(cell.period, moment) {
            if let Some(row) = rows.get_mut(place) {
                if row.id == cell.id {
                    row.values.push(cell.value.copy()?)?;
                }
            }
            place = place.wrapping_add(1);
        }
    }
    Ok(())
}

// The rows that the scans show at the moment, ascending, with their ids.
fn shown_rows<'a>(
    alloc: Global,
    scanned: &Scanned<'a>,
    moment: u64,
) -> Result<Vec<Shown<'a>>, NoMemory> {
    let mut shown = shown_ids(alloc, &scanned.keys, moment)?;
    for cells in &scanned.columns {
        show_column(cells, moment, &mut shown)?;
    }
    shown.sort_unstable();
    Ok(shown)
}

/// The rows that the scans show at the moment, borrowed, ascending.
pub fn rows_shown<'a>(
    alloc: Global,
    scanned: &Scanned<'a>,
    moment: u64,
) -> Result<Vec<Vec<Val<'a>>>, NoMemory> {
    let mut rows = Vec::new(alloc);
    for row in shown_rows(alloc, scanned, moment)? {
        rows.push(row.values)?;
    }
    Ok(rows)
}

/// The ids of the rows that the scans show at the moment, in the order of the rows.
pub(crate) fn ids_shown(
    alloc: Global,
    scanned: &Scanned<'_>,
    moment: u64,
) -> Result<Vec<usize>, NoMemory> {
    let mut ids = Vec::new(alloc);
    for row in shown_rows(alloc, scanned, moment)? {
        ids.push(row.id as usize)?;
    }
    Ok(ids)
}
