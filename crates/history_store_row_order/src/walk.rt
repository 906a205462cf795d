ghost use Rattle.std.specs.Prelude.{◌≡◌, List, [], slice_index, true, IfErr, ◌∷◌, ℕ, Option};
ghost use Rattle.std.specs.Prelude.{◌+◌, ◌^◌, ◌<◌, ◌≤◌, ◌++◌, take, drop, length, All};
ghost use Rattle.std.specs.Prelude.{slice_index_or, IfOk, OnOk};
ghost use Rattle.history_store_row_order.specs.Logs.{cells_of};
ghost use Rattle.history_store_columns.specs.Log.{Log};
ghost use Rattle.prima_base.specs.Order.{row_cmp};
ghost use Rattle.relations_spec.specs.Sets.{Ascends};
ghost use Rattle.history_store_row_order.specs.Rows.{row_now, rows_of};
ghost use Rattle.history_store_row_order.specs.Handing.{lost_ids, first_order, owners, no_owners};
ghost use Rattle.history_store_row_order.specs.Handing.{gained_rows};
ghost use Rattle.history_store_row_order.specs.Handing.{given_ids, id_by, lost_by, next_by};
ghost use Rattle.history_store_row_order.specs.Rows.{AllWidth};

use history_store_columns::Column;
use history_store_index::RowIndex;
use prima_base::{NoMemory, Row, Steps};
use prima_base_rows::GivenRow;
use std::alloc::Global;
use std::cmp::Ordering;
use std::sync::ledger::Ledger;

/// Compares what the newest row of the id begins with with these values.
pub fn compare_lead(columns: &[Column], id: usize, lead: &GivenRow<'_>) -> Ordering
    requires narrow { length lead.now ≤ length columns.now }
    requires known { All (λ c. id < c.ids) columns.now }
    ensures lead { result ≡ row_cmp (take (length lead.now) (row_now id (cells_of columns.now)))
        lead.now }
    ensures whole { length lead.now ≡ length columns.now
        → result ≡ row_cmp (row_now id (cells_of columns.now)) lead.now }
{
    for k in 0..lead.len() {
        let order = columns[k].newest(id).compare(&lead.value(k));
        if order != Ordering::Equal {
            return order;
        }
    }
    Ordering::Equal
}

/// Compares the newest row of the id with this one.
pub fn compare_now(columns: &[Column], id: usize, row: &GivenRow<'_>) -> Ordering
    requires width { length row.now ≡ length columns.now }
    requires known { All (λ c. id < c.ids) columns.now }
    ensures { result ≡ row_cmp (row_now id (cells_of columns.now)) row.now }
{
    compare_lead(columns, id, row)
}

// Compares the newest row of the id with the row at this place.
fn order_at(columns: &[Column], id: usize, rows: &[Row], j: usize) -> Ordering
    requires wide { AllWidth (length columns.now) (drop j rows.now) }
    requires known { All (λ c. id < c.ids) columns.now }
    requires within { j ≤ length rows.now }
    ensures order { result ≡ first_order (row_now id (cells_of columns.now)) (drop j rows.now) }
    ensures more { j ≡ length rows.now → result ≡ Ordering.Less }
{
    if j < rows.len() {
        compare_now(columns, id, &GivenRow::borrowed(rows[j].values()))
    } else {
        Ordering::Less
    }
}

/// How the next rows differ from the current ones: the ids whose rows are gone, the id of each row
/// that has one, and the rows that no id has, borrowed.
pub struct Difference<'a> {
    pub lost: Vec<usize>,
    pub owners: Vec<Option<usize>>,
    pub gained: Vec<GivenRow<'a>>,
}

// These rows have no id.
fn add_new<'a>(
    owners: &mut Vec<Option<usize>>,
    gained: &mut Vec<GivenRow<'a>>,
    rows: &'a [Row],
) -> Result<(), NoMemory>
    ensures owners { OnOk result (owners.new.items ≡ owners.old.items ++ no_owners rows.now) }
    ensures gained { OnOk result (gained.new.items ≡ gained.old.items ++ rows.now) }
{
    for row in rows {
        gained.push(GivenRow::borrowed(row.values()))?;
        owners.push(None)?;
    }
    Ok(())
}

/// The difference, by one walk along both.
pub fn find_difference<'a>(
    alloc: Global,
    columns: &[Column],
    live: &[usize],
    rows: &'a [Row],
) -> Result<Difference<'a>, NoMemory>
    requires wide { AllWidth (length columns.now) rows.now }
    requires known { (id : _) → (k : _) (d : Log) → id < length live.now → k < length columns.now
        → slice_index_or live.now id 0 < (slice_index_or columns.now k d).ids }
    requires live_rise { Ascends row_cmp (rows_of live.now (cells_of columns.now)) }
    requires rows_rise { Ascends row_cmp rows.now }
    ensures lost { IfOk result (λ d. d.lost.items
        ≡ lost_ids (cells_of columns.now) live.now rows.now) }
    ensures owners { IfOk result (λ d. d.owners.items
        ≡ owners (cells_of columns.now) live.now rows.now) }
    ensures gained { IfOk result (λ d. d.gained.items
        ≡ gained_rows (cells_of columns.now) live.now rows.now) }
{
    let mut lost = Vec::new(alloc);
    let mut owners = Vec::with_capacity(alloc, rows.len())?;
    let mut gained = Vec::new(alloc);
    let mut i = 0;
    let mut j = 0;
    'walk: while i < live.len() {
        match order_at(columns, live[i], rows, j) {
            Ordering::Less => {
                lost.push(live[i])?;
                i += 1;
            }
            Ordering::Equal => {
                owners.push(Some(live[i]))?;
                i += 1;
                j += 1;
            }
            Ordering::Greater => {
                gained.push(GivenRow::borrowed(rows[j].values()))?;
                owners.push(None)?;
                j += 1;
            }
        }
    }
    add_new(&mut owners, &mut gained, rows.split_at(j).1)?;
    Ok(Difference {
        lost,
        owners,
        gained,
    })
}

/// The next lost id, or a new one.
pub fn handed_id(lost: &[usize], k: &mut usize, fresh: &mut usize) -> usize
    requires few { fresh.old + 1 < 2 ^ 64 }
    ensures id { result ≡ id_by [] (drop k.old lost.now) fresh.old }
    ensures lost { drop k.new lost.now ≡ lost_by [] (drop k.old lost.now) }
    ensures fresh { fresh.new ≡ next_by [] (drop k.old lost.now) fresh.old }
    ensures few { fresh.new ≤ fresh.old + 1 }
{
    if *k < lost.len() {
        *k += 1;
        lost[*k - 1]
    } else {
        *fresh += 1;
        *fresh - 1
    }
}

// The id of a row: its own, or the next lost id, or a new one.
fn id_for(owner: Option<usize>, lost: &[usize], k: &mut usize, fresh: &mut usize) -> usize
    requires few { fresh.old + 1 < 2 ^ 64 }
    ensures ids { (rest : List (Option ℕ)) → given_ids (owner ∷ rest) (drop k.old lost.now)
        fresh.old
        ≡ result ∷ given_ids rest (drop k.new lost.now) fresh.new }
    ensures few { fresh.new ≤ fresh.old + 1 }
{
    match owner {
        Some(id) => id,
        None => handed_id(lost, k, fresh),
    }
}

/// The id of each row: its own, or that of the next lost row, or a new one.
pub fn next_ids(
    alloc: Global,
    owners: &[Option<usize>],
    lost: &[usize],
    next: usize,
) -> Result<Vec<usize>, NoMemory>
    requires { next + length owners.now < 2 ^ 64 }
    ensures { IfOk result (λ ids. ids.items ≡ given_ids owners.now lost.now next) }
{
    let mut ids = Vec::with_capacity(alloc, owners.len())?;
    let mut k = 0;
    let mut fresh = next;
    for owner in owners {
        ids.push(id_for(*owner, lost, &mut k, &mut fresh))?;
    }
    Ok(ids)
}

/// The newest row of the id.
fn copy_now(alloc: Global, columns: &[Column], id: usize) -> Result<Row, NoMemory>
    requires { All (λ c. id < c.ids) columns.now }
    ensures { IfOk result (λ row. row ≡ row_now id (cells_of columns.now)) }
{
    let mut values = Vec::with_capacity(alloc, columns.len())?;
    for column in columns {
        values.push(column.newest(id).into_value(alloc)?)?;
    }
    Ok(Row::new(alloc, values))
}

/// The newest rows of these ids. Each row is one step.
pub fn copy_rows<L: Ledger>(
    alloc: Global,
    columns: &[Column],
    live: &[usize],
    steps: &mut Steps<L>,
) -> Result<Vec<Row>, NoMemory>
    requires { (id : _) → (k : _) (d : Log) → id < length live.now → k < length columns.now
        → slice_index_or live.now id 0 < (slice_index_or columns.now k d).ids }
    ensures rows { IfOk result (λ rows. rows.items ≡ rows_of live.now (cells_of columns.now)) }
    ensures cost { IfOk result (λ rows. steps.new ≡ steps.old + length rows.items) }
{
    let mut rows = Vec::with_capacity(alloc, live.len())?;
    for id in live {
        steps.tick();
        rows.push(copy_now(alloc, columns, *id)?)?;
    }
    Ok(rows)
}

/// The place of the row among the live ids, or the place where it would stand.
pub fn place_of(columns: &[Column], live: &[usize], row: &GivenRow<'_>) -> Result<usize, usize>
    requires width { length row.now ≡ length columns.now }
    requires known { (id : _) → (k : _) (d : Log) → id < length live.now → k < length columns.now
        → slice_index_or live.now id 0 < (slice_index_or columns.now k d).ids }
    requires live_rise { Ascends row_cmp (rows_of live.now (cells_of columns.now)) }
    ensures found { IfOk result (λ at. (at < length live.now)
        × (row_cmp (row_now (slice_index live.now at) (cells_of columns.now)) row.now
        ≡ Ordering.Equal)) }
    ensures within { IfErr result (λ at. at ≤ length live.now) }
    ensures before { IfErr result (λ at. (k : _) → k < at
        → row_cmp (row_now (slice_index live.now k) (cells_of columns.now)) row.now
        ≡ Ordering.Less) }
    ensures after { IfErr result (λ at. (k : _) → at ≤ k → k < length live.now
        → row_cmp (row_now (slice_index live.now k) (cells_of columns.now)) row.now
        ≡ Ordering.Greater) }
{
    let mut low = 0;
    let mut high = live.len();
    'halves: while low < high {
        let middle = low + (high - low) / 2;
        match compare_now(columns, live[middle], row) {
            Ordering::Less => low = middle + 1,
            Ordering::Equal => return Ok(middle),
            Ordering::Greater => high = middle,
        }
    }
    Err(low)
}

// Whether the row belongs after all that the index has.
fn is_after(columns: &[Column], live: &RowIndex, row: &GivenRow<'_>) -> bool
    requires width { length row.now ≡ length columns.now }
    requires known { (id : _) → (k : _) (d : Log) → id < length live.now.ids
        → k < length columns.now
        → slice_index_or live.now.ids id 0 < (slice_index_or columns.now k d).ids }
    requires live_rise { Ascends row_cmp (rows_of live.now.ids (cells_of columns.now)) }
    ensures { result ≡ true → (k : ℕ) → k < length live.now.ids
        → row_cmp (row_now (slice_index live.now.ids k) (cells_of columns.now)) row.now
        ≡ Ordering.Less }
{
    let count = live.len();
    if count == 0 {
        return true;
    }
    compare_now(columns, live.id_at(count - 1), row).is_lt()
}

/// The same in the index. Rows often come in order, and after the last one nothing is searched.
pub fn place_in(columns: &[Column], live: &RowIndex, row: &GivenRow<'_>) -> Result<usize, usize>
    requires width { length row.now ≡ length columns.now }
    requires known { (id : _) → (k : _) (d : Log) → id < length live.now.ids
        → k < length columns.now
        → slice_index_or live.now.ids id 0 < (slice_index_or columns.now k d).ids }
    requires live_rise { Ascends row_cmp (rows_of live.now.ids (cells_of columns.now)) }
    ensures found { IfOk result (λ at. (at < length live.now.ids)
        × (row_cmp (row_now (slice_index live.now.ids at) (cells_of columns.now)) row.now
        ≡ Ordering.Equal)) }
    ensures within { IfErr result (λ at. at ≤ length live.now.ids) }
    ensures before { IfErr result (λ at. (k : _) → k < at
        → row_cmp (row_now (slice_index live.now.ids k) (cells_of columns.now)) row.now
        ≡ Ordering.Less) }
    ensures after { IfErr result (λ at. (k : _) → at ≤ k → k < length live.now.ids
        → row_cmp (row_now (slice_index live.now.ids k) (cells_of columns.now)) row.now
        ≡ Ordering.Greater) }
{
    if is_after(columns, live, row) {
        return Err(live.len());
    }
    let mut low = 0;
    let mut high = live.len();
    'halves: while low < high {
        let middle = low + (high - low) / 2;
        match compare_now(columns, live.id_at(middle), row) {
            Ordering::Less => low = middle + 1,
            Ordering::Equal => return Ok(middle),
            Ordering::Greater => high = middle,
        }
    }
    Err(low)
}
