//! What ids show, in order, and whether two of them show one row at one moment.

ghost use Rattle.std.specs.Prelude.{◌≡◌, ℕ, List, Option, is_some, map, ◌++◌, IfOk};
ghost use Rattle.std.specs.Prelude.{OnOk, IfSome};
ghost use Rattle.prima_base.specs.Columns.{Column};
ghost use Rattle.command_codec_spec.specs.Reading.{Parsed};
ghost use Rattle.store_image_spec.specs.ItemChecks.{are_apart};
ghost use Rattle.store_image_spec.specs.Reader as spec;
ghost use Rattle.store_image_rows.specs.Cells.{cell_seen, cells_seen};
ghost use Rattle.store_image_rows.specs.Stretches.{row_stretches};
ghost use Rattle.store_image_rows.specs.Showing.{stretch_at, number_alone, alone, as_row};
ghost use Rattle.store_image_rows.specs.Showing.{stretch_in};
ghost use Rattle.store_image_rows.specs.Showing.{clash, none_clash, goes_on, id_on, ids_on};
ghost use Rattle.store_image_rows.specs.Showing.{IsShowingChecked};
ghost use Rattle.store_image_rows.specs.Showing.{AreOrdered};

use crate::stretch::{Stretch, all_stretches};
use history_store::Cell;
use prima_base::{FOREVER, NoMemory, Period, Val};
use std::alloc::Global;
use std::cmp::Ordering;

// An id shows this from the start up to, and not at, the end. They are ordered by what is shown,
// then by the start.
#[derive(Drop, PartialEq, Eq, PartialOrd, Ord)]
struct Showing<T> {
    item: T,
    start: u64,
    end: u64,
    id: usize,
}

// Whether both show one thing and have a common moment.
fn clash<T: Ord>(a: &Showing<T>, b: &Showing<T>) -> bool
    ensures { result ≡ clash T.cmp a.now b.now }
{
    a.start < b.end && b.start < a.end && a.item.cmp(&b.item) == Ordering::Equal
}

// Whether none clashes with the next.
fn none_clash<T: Ord>(showing: &[Showing<T>]) -> bool
    ensures { result ≡ none_clash T.cmp showing.now }
{
    for i in 1..showing.len() {
        if clash(&showing[i - 1], &showing[i]) {
            return false;
        }
    }
    true
}

// Whether it goes on.
fn goes_on<T>(showing: &Showing<T>) -> bool
    ensures { result ≡ goes_on showing.now }
{
    showing.end == FOREVER
}

// Puts the id after the others, where it goes on.
fn put_on<T>(ids: &mut Vec<usize>, showing: &Showing<T>) -> Result<(), NoMemory>
    ensures { OnOk result (ids.new.items ≡ ids.old.items ++ id_on showing.now) }
{
    if goes_on(showing) {
        ids.push(showing.id)?;
    }
    Ok(())
}

// The ids of what goes on.
fn ids_on<T>(alloc: Global, showing: &[Showing<T>]) -> Result<Vec<usize>, NoMemory>
    ensures { IfOk result (λ ids. ids.items ≡ ids_on showing.now) }
{
    let mut ids = Vec::with_capacity(alloc, showing.len())?;
    for one in showing {
        put_on(&mut ids, one)?;
    }
    Ok(ids)
}

// The ids of what goes on, in order, where no two clash; none where two do. They are sorted, and
// each is looked at with the next.
fn check<T: Ord + Drop>(
    alloc: Global,
    showing: Vec<Showing<T>>,
) -> Result<Option<Vec<usize>>, NoMemory>
    ensures { IfOk result (IsShowingChecked T.cmp showing.items) }
{
    let mut sorted = showing;
    sorted.sort_unstable();
    if none_clash(&sorted) {
        return Ok(Some(ids_on(alloc, &sorted)?));
    }
    Ok(None)
}

// What each entry of a column shows, where all are INTs; none where one is a TEXT.
fn numbers_of(alloc: Global, cells: &[Cell<'_>]) -> Result<Option<Vec<Showing<i64>>>, NoMemory>
    ensures { IfOk result (λ numbers. IfSome numbers
        (λ v. map (stretch_at number_alone) v.items ≡ map stretch_in (map cell_seen cells.now))) }
{
    let mut showing = Vec::with_capacity(alloc, cells.len())?;
    for cell in cells {
        let Val::Int(number) = &cell.value else {
            return Ok(None);
        };
        showing.push(Showing {
            item: *number,
            start: cell.period.start(),
            end: cell.period.end(),
            id: cell.id as usize,
        })?;
    }
    Ok(Some(showing))
}

// What each entry of a column shows.
fn values_of<'a>(alloc: Global, cells: &[Cell<'a>]) -> Result<Vec<Showing<Val<'a>>>, NoMemory>
    ensures { IfOk result (λ v. map (stretch_at alone) v.items
        ≡ map stretch_in (map cell_seen cells.now)) }
{
    let mut showing = Vec::with_capacity(alloc, cells.len())?;
    for cell in cells {
        showing.push(Showing {
            item: cell.value.copy()?,
            start: cell.period.start(),
            end: cell.period.end(),
            id: cell.id as usize,
        })?;
    }
    Ok(showing)
}

// What each stretch shows.
fn rows_of<'a>(
    alloc: Global,
    stretches: Vec<Stretch<'a>>,
) -> Result<Vec<Showing<Vec<Val<'a>>>>, NoMemory>
    ensures { IfOk result (λ v. map (stretch_at as_row) v.items
        ≡ row_stretches stretches.entry.items) }
{
    let mut showing = Vec::with_capacity(alloc, stretches.len())?;
    for stretch in stretches {
        showing.push(Showing {
            start: stretch.period.start(),
            end: stretch.period.end(),
            id: stretch.id as usize,
            item: stretch.values,
        })?;
    }
    Ok(showing)
}

/// The ids of the rows that go on, in the order of their rows, where no two ids show one row at a
/// moment at which an entry begins; none where two do. It goes by keys and the entries that were
/// read for them. Mostly the first column tells its rows apart, and then its entries alone are
/// sorted; else the rows are. For n entries that takes in the order of n log n comparisons. The one
/// error is `NoMemory`, where memory runs out.
pub fn order_of(
    alloc: Global,
    keys: &[Period],
    cells: &[Vec<Cell<'_>>],
) -> Result<Option<Vec<usize>>, NoMemory>
    requires { (last : Option ℕ) × (columns : List Column) × (ts : List ℕ) × (rest : List ℕ)
        × (spec.columns last keys.now columns ts ≡ Parsed (cells_seen cells.now) rest) }
    ensures apart { IfOk result (λ order. is_some order
        ≡ are_apart keys.now (cells_seen cells.now)) }
    ensures order { IfOk result (λ order. IfSome order
        (λ ids. AreOrdered keys.now (cells_seen cells.now) ids.items)) }
{
    let Some(first) = cells.first() else {
        return Ok(Some(Vec::new(alloc)));
    };
    if let Some(numbers) = numbers_of(alloc, first)? {
        if let Some(order) = check(alloc, numbers)? {
            return Ok(Some(order));
        }
    } else if let Some(order) = check(alloc, values_of(alloc, first)?)? {
        return Ok(Some(order));
    }
    let stretches = all_stretches(alloc, keys, cells)?;
    check(alloc, rows_of(alloc, stretches)?)
}
