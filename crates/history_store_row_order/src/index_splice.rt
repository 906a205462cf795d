//! The ids of lost rows taken out of the index, and the ids of gained rows put into it. Each row is
//! found by binary search; the rest is moved without a look at its rows. Where few rows come and
//! go, their places alone are kept, and nothing is moved before the change is carried out.

ghost use Rattle.std.specs.Prelude.{◌≡◌, [], ◌+◌, ◌^◌, ◌<◌, ◌≤◌, IfOk, List, ℕ, length};
ghost use Rattle.std.specs.Prelude.{slice_index, slice_index_or};
ghost use Rattle.std.specs.declared.cmp.Ordering.TheVariants.{Less, Greater};
ghost use Rattle.relations_spec.specs.Sets.{Ascends, In};
ghost use Rattle.prima_base.specs.Order.{row_cmp};
ghost use Rattle.prima_base.specs.declared.value.Value.{Value as OneValue};
ghost use Rattle.history_store_columns.specs.Log.{Log};
ghost use Rattle.history_store_row_order.specs.Logs.{cells_of, few_changed_rows, few_of};
ghost use Rattle.history_store_row_order.specs.Rows.{row_now, rows_of};
ghost use Rattle.history_store_row_order.specs.Handing.{handed, only_in};
ghost use Rattle.history_store_row_order.specs.Rows.{AllWidth};
ghost use Rattle.history_store_row_order.specs.Splices.{IsSplit, IsJoined, IsSpliced};
ghost use Rattle.history_store_row_order.specs.Indexes.{without, with_each, place_without};
ghost use Rattle.history_store_row_order.specs.Indexes.{AreAmong, AreAlong};
ghost use Rattle.history_store_row_order.specs.Indexes.{index_of, later_ids, more_ids, IsPlaced};
ghost use Rattle.history_store_row_order.specs.Indexes.{IsMoved};

use crate::walk::{handed_id, place_in, place_of};
use history_store_columns::Column;
use history_store_index::RowIndex;
use prima_base::NoMemory;
use prima_base_rows::GivenRow;
use std::alloc::Global;

/// How many rows a change may lose, and how many gain, for their places alone to be kept.
pub const FEW_CHANGED_ROWS: usize = 64;

/// How many rows are few in a table of so many: for a change of no more it costs less to keep an
/// index of a column than to sort it anew.
pub fn few_of(rows: usize) -> usize
    ensures { result ≡ few_of rows }
{
    FEW_CHANGED_ROWS.max(rows / FEW_CHANGED_ROWS)
}

/// The index after a change.
#[derive(Drop)]
pub enum After {
    /// All its ids.
    Whole(RowIndex),
    /// The ids of the index before the change: first those at these places go, each a place among
    /// the ids that are left by then, and then each id comes to the place beside it, the last one
    /// first.
    Moved(Vec<usize>, Vec<(usize, usize)>),
}

// The place of the id whose row this is: of one of them it is, as `there` says, so that the search
// finds it.
fn found_place(columns: &[Column], ids: &[usize], row: &GivenRow<'_>) -> usize
    requires width { length row.now ≡ length columns.now }
    requires known { (id : ℕ) → In id ids.now → (k : ℕ) (d : Log) → k < length columns.now
        → id < (slice_index_or columns.now k d).ids }
    requires rise { Ascends row_cmp (rows_of ids.now (cells_of columns.now)) }
    requires there { In row.now (rows_of ids.now (cells_of columns.now)) }
    ensures within { result < length ids.now }
    ensures row { row_now (slice_index ids.now result) (cells_of columns.now) ≡ row.now }
{
    match place_of(columns, ids, row) {
        Ok(at) | Err(at) => at,
    }
}

// The place where the row would stand: of none of the ids it is, as `fresh` says, so that the
// search ends at that place.
fn free_place(columns: &[Column], ids: &[usize], row: &GivenRow<'_>) -> usize
    requires width { length row.now ≡ length columns.now }
    requires known { (id : ℕ) → In id ids.now → (k : ℕ) (d : Log) → k < length columns.now
        → id < (slice_index_or columns.now k d).ids }
    requires rise { Ascends row_cmp (rows_of ids.now (cells_of columns.now)) }
    requires fresh { In row.now (rows_of ids.now (cells_of columns.now)) → ⊥ }
    ensures within { result ≤ length ids.now }
    ensures before { (k : ℕ) → k < result → row_cmp
        (row_now (slice_index ids.now k) (cells_of columns.now)) row.now ≡ Less }
    ensures after { (k : ℕ) → result ≤ k → k < length ids.now
        → row_cmp (row_now (slice_index ids.now k) (cells_of columns.now)) row.now ≡ Greater }
{
    match place_of(columns, ids, row) {
        Ok(at) | Err(at) => at,
    }
}

// The same in the index.
fn found_in(columns: &[Column], index: &RowIndex, row: &GivenRow<'_>) -> usize
    requires width { length row.now ≡ length columns.now }
    requires known { (id : ℕ) → In id index.now.ids → (k : ℕ) (d : Log) → k < length columns.now
        → id < (slice_index_or columns.now k d).ids }
    requires rise { Ascends row_cmp (rows_of index.now.ids (cells_of columns.now)) }
    requires there { In row.now (rows_of index.now.ids (cells_of columns.now)) }
    ensures within { result < length index.now.ids }
    ensures row { row_now (slice_index index.now.ids result) (cells_of columns.now) ≡ row.now }
{
    match place_in(columns, index, row) {
        Ok(at) | Err(at) => at,
    }
}

// The same in the index.
fn free_in(columns: &[Column], index: &RowIndex, row: &GivenRow<'_>) -> usize
    requires width { length row.now ≡ length columns.now }
    requires known { (id : ℕ) → In id index.now.ids → (k : ℕ) (d : Log) → k < length columns.now
        → id < (slice_index_or columns.now k d).ids }
    requires rise { Ascends row_cmp (rows_of index.now.ids (cells_of columns.now)) }
    requires fresh { In row.now (rows_of index.now.ids (cells_of columns.now)) → ⊥ }
    ensures within { result ≤ length index.now.ids }
    ensures before { (k : ℕ) → k < result → row_cmp
        (row_now (slice_index index.now.ids k) (cells_of columns.now)) row.now ≡ Less }
    ensures after { (k : ℕ) → result ≤ k → k < length index.now.ids
        → row_cmp (row_now (slice_index index.now.ids k) (cells_of columns.now)) row.now ≡ Greater }
{
    match place_in(columns, index, row) {
        Ok(at) | Err(at) => at,
    }
}

/// The ids of these rows, and the other ids of the index.
pub fn take_out(
    alloc: Global,
    columns: &[Column],
    live: &[usize],
    lost: &[GivenRow<'_>],
) -> Result<(Vec<usize>, Vec<usize>), NoMemory>
    requires wide { AllWidth (length columns.now) lost.now }
    requires known { (id : ℕ) → In id live.now → (k : ℕ) (d : Log) → k < length columns.now
        → id < (slice_index_or columns.now k d).ids }
    requires live_rise { Ascends row_cmp (rows_of live.now (cells_of columns.now)) }
    requires lost_rise { Ascends row_cmp lost.now }
    requires there { (row : List OneValue) → In row lost.now
        → In row (rows_of live.now (cells_of columns.now)) }
    ensures { IfOk result (λ (found, kept). IsSplit (cells_of columns.now) live.now found.items
        kept.items lost.now) }
{
    let mut found = Vec::with_capacity(alloc, lost.len())?;
    let mut kept = Vec::with_capacity(alloc, live.len())?;
    let mut rest = live;
    for row in lost {
        let at = found_place(columns, rest, row);
        kept.extend_from_slice(rest.split_at(at).0)?;
        found.push(rest[at])?;
        rest = rest.split_at(at + 1).1;
    }
    kept.extend_from_slice(rest)?;
    Ok((found, kept))
}

/// The index of these ids and of those of the gained rows, which are the lost ids in turn and then
/// new ones.
pub fn put_in(
    alloc: Global,
    columns: &[Column],
    kept: &[usize],
    lost: &[usize],
    next: usize,
    gained: &[GivenRow<'_>],
) -> Result<Vec<usize>, NoMemory>
    requires wide { AllWidth (length columns.now) gained.now }
    requires known { (id : ℕ) → In id kept.now → (k : ℕ) (d : Log) → k < length columns.now
        → id < (slice_index_or columns.now k d).ids }
    requires kept_rise { Ascends row_cmp (rows_of kept.now (cells_of columns.now)) }
    requires gained_rise { Ascends row_cmp gained.now }
    requires fresh { (row : List OneValue) → In row gained.now
        → In row (rows_of kept.now (cells_of columns.now)) → ⊥ }
    requires few { next + length gained.now < 2 ^ 64 }
    ensures { IfOk result (λ after. IsJoined (cells_of columns.now) kept.now
        (handed lost.now next gained.now) after.items gained.now) }
{
    let mut after = Vec::with_capacity(alloc, kept.len())?;
    let mut rest = kept;
    let mut k = 0;
    let mut fresh = next;
    for row in gained {
        let (prefix, back) = rest.split_at(free_place(columns, rest, row));
        after.extend_from_slice(prefix)?;
        after.push(handed_id(lost, &mut k, &mut fresh))?;
        rest = back;
    }
    after.extend_from_slice(rest)?;
    Ok(after)
}

// The ids of these rows, and their places, each among the ids that are left where those before it
// are out.
fn lost_places(
    alloc: Global,
    columns: &[Column],
    live: &RowIndex,
    lost: &[GivenRow<'_>],
) -> Result<(Vec<usize>, Vec<usize>), NoMemory>
    requires wide { AllWidth (length columns.now) lost.now }
    requires known { (id : ℕ) → In id live.now.ids → (k : ℕ) (d : Log) → k < length columns.now
        → id < (slice_index_or columns.now k d).ids }
    requires live_rise { Ascends row_cmp (rows_of live.now.ids (cells_of columns.now)) }
    requires lost_rise { Ascends row_cmp lost.now }
    requires there { (row : List OneValue) → In row lost.now
        → In row (rows_of live.now.ids (cells_of columns.now)) }
    ensures split { IfOk result (λ (found, from).
        IsSplit (cells_of columns.now) live.now.ids found.items (without from.items live.now.ids)
        lost.now) }
    ensures placed { IfOk result (λ (_found, from). AreAmong from.items live.now.ids) }
{
    let mut found = Vec::with_capacity(alloc, lost.len())?;
    let mut from = Vec::with_capacity(alloc, lost.len())?;
    for row in lost {
        let at = found_in(columns, live, row);
        let gone = from.len();
        from.push(at - gone)?;
        found.push(live.id_at(at))?;
    }
    Ok((found, from))
}

// Where the place comes to when the ids at these places are out.
fn place_without(from: &[usize], free: usize) -> usize
    ensures { result ≡ place_without from.now free }
{
    let mut place = free;
    for at in from {
        if *at < place {
            place -= 1;
        }
    }
    place
}

// The places of the gained rows among the ids that are left, each with its id: the lost ids in
// turn, and then new ones.
fn gained_places(
    alloc: Global,
    columns: &[Column],
    live: &RowIndex,
    from: &[usize],
    lost: &[usize],
    next: usize,
    gained: &[GivenRow<'_>],
) -> Result<Vec<(usize, usize)>, NoMemory>
    requires wide { AllWidth (length columns.now) gained.now }
    requires known { (id : ℕ) → In id live.now.ids → (k : ℕ) (d : Log) → k < length columns.now
        → id < (slice_index_or columns.now k d).ids }
    requires live_rise { Ascends row_cmp (rows_of live.now.ids (cells_of columns.now)) }
    requires kept_rise { Ascends row_cmp (rows_of (without from.now live.now.ids)
        (cells_of columns.now)) }
    requires gained_rise { Ascends row_cmp gained.now }
    requires fresh { (row : List OneValue) → In row gained.now
        → In row (rows_of live.now.ids (cells_of columns.now)) → ⊥ }
    requires placed { AreAmong from.now live.now.ids }
    requires few { next + length gained.now < 2 ^ 64 }
    ensures joined { IfOk result (λ to. IsJoined (cells_of columns.now)
        (without from.now live.now.ids) (handed lost.now next gained.now)
        (with_each to.items (without from.now live.now.ids)) gained.now) }
    ensures placed { IfOk result (λ to. AreAlong to.items
        (length (without from.now live.now.ids))) }
    ensures count { IfOk result (λ to. length to.items ≡ length gained.now) }
{
    let mut to = Vec::with_capacity(alloc, gained.len())?;
    let mut k = 0;
    let mut fresh = next;
    for row in gained {
        let free = free_in(columns, live, row);
        let id = handed_id(lost, &mut k, &mut fresh);
        to.push((place_without(from, free), id))?;
    }
    Ok(to)
}

// The ids of the lost rows, and the places of a change of few rows.
fn splice_few(
    alloc: Global,
    columns: &[Column],
    live: &RowIndex,
    lost: &[GivenRow<'_>],
    next: usize,
    gained: &[GivenRow<'_>],
) -> Result<(Vec<usize>, After), NoMemory>
    requires lost_wide { AllWidth (length columns.now) lost.now }
    requires gained_wide { AllWidth (length columns.now) gained.now }
    requires known { (id : ℕ) → In id live.now.ids → (k : ℕ) (d : Log) → k < length columns.now
        → id < (slice_index_or columns.now k d).ids }
    requires live_rise { Ascends row_cmp (rows_of live.now.ids (cells_of columns.now)) }
    requires lost_rise { Ascends row_cmp lost.now }
    requires gained_rise { Ascends row_cmp gained.now }
    requires there { (row : List OneValue) → In row lost.now
        → In row (rows_of live.now.ids (cells_of columns.now)) }
    requires fresh { (row : List OneValue) → In row gained.now
        → In row (rows_of live.now.ids (cells_of columns.now)) → ⊥ }
    requires few { next + length gained.now < 2 ^ 64 }
    requires few_gained { length gained.now ≤ few_changed_rows }
    ensures spliced { IfOk result (λ (found, after).
        IsSpliced (cells_of columns.now) live.now.ids lost.now next gained.now found.items
        (later_ids (index_of after) live.now.ids)) }
    ensures placed { IfOk result (λ (_found, after). IsPlaced (index_of after) live.now.ids) }
    ensures more { IfOk result (λ (_found, after). more_ids (index_of after) ≤ length gained.now) }
    ensures moved { IfOk result (λ (_found, after). IsMoved (index_of after)) }
{
    let (found, from) = lost_places(alloc, columns, live, lost)?;
    let to = gained_places(alloc, columns, live, &from, &found, next, gained)?;
    Ok((found, After::Moved(from, to)))
}

/// The ids of the lost rows, and the index after the change. Where few rows are lost and few gained
/// that is their places, and no index is copied.
pub fn splice(
    alloc: Global,
    columns: &[Column],
    live: &RowIndex,
    lost: &[GivenRow<'_>],
    next: usize,
    gained: &[GivenRow<'_>],
) -> Result<(Vec<usize>, After), NoMemory>
    requires lost_wide { AllWidth (length columns.now) lost.now }
    requires gained_wide { AllWidth (length columns.now) gained.now }
    requires known { (id : ℕ) → In id live.now.ids → (k : ℕ) (d : Log) → k < length columns.now
        → id < (slice_index_or columns.now k d).ids }
    requires live_rise { Ascends row_cmp (rows_of live.now.ids (cells_of columns.now)) }
    requires lost_rise { Ascends row_cmp lost.now }
    requires gained_rise { Ascends row_cmp gained.now }
    requires there { (row : List OneValue) → In row lost.now
        → In row (rows_of live.now.ids (cells_of columns.now)) }
    requires fresh { (row : List OneValue) → In row gained.now
        → In row (rows_of live.now.ids (cells_of columns.now)) → ⊥ }
    requires few { next + length gained.now < 2 ^ 64 }
    ensures spliced { IfOk result (λ (found, after).
        IsSpliced (cells_of columns.now) live.now.ids lost.now next gained.now found.items
        (later_ids (index_of after) live.now.ids)) }
    ensures placed { IfOk result (λ (_found, after). IsPlaced (index_of after) live.now.ids) }
    ensures more { IfOk result (λ (_found, after). more_ids (index_of after) ≤ length gained.now) }
    ensures moved { length lost.now ≤ few_changed_rows → length gained.now ≤ few_changed_rows
        → IfOk result (λ (_found, after). IsMoved (index_of after)) }
{
    if lost.len() <= FEW_CHANGED_ROWS && gained.len() <= FEW_CHANGED_ROWS {
        return splice_few(alloc, columns, live, lost, next, gained);
    }
    let (found, kept) = take_out(alloc, columns, &live.copy()?, lost)?;
    let ids = put_in(alloc, columns, &kept, &found, next, gained)?;
    Ok((found, After::Whole(RowIndex::of(alloc, &ids)?)))
}

// Those of the rows that the index does not have, in their order, each with its place in it and the
// next of the new ids.
fn fresh_places<'a>(
    alloc: Global,
    columns: &[Column],
    live: &RowIndex,
    next: usize,
    rows: Vec<GivenRow<'a>>,
) -> Result<(Vec<GivenRow<'a>>, Vec<(usize, usize)>), NoMemory>
    requires wide { AllWidth (length columns.now) rows.items }
    requires known { (id : ℕ) → In id live.now.ids → (k : ℕ) (d : Log) → k < length columns.now
        → id < (slice_index_or columns.now k d).ids }
    requires live_rise { Ascends row_cmp (rows_of live.now.ids (cells_of columns.now)) }
    requires rows_rise { Ascends row_cmp rows.items }
    requires few { next + length rows.items < 2 ^ 64 }
    ensures gained { IfOk result (λ (gained, _to).
        gained.items ≡ only_in rows.entry.items (rows_of live.now.ids (cells_of columns.now))) }
    ensures joined { IfOk result (λ (gained, to).
        IsJoined (cells_of columns.now) live.now.ids (handed [] next gained.items)
        (with_each to.items live.now.ids) gained.items) }
    ensures placed { IfOk result (λ (_gained, to). AreAlong to.items (length live.now.ids)) }
    ensures count { IfOk result (λ (gained, to). length to.items ≡ length gained.items) }
{
    let mut gained = Vec::new(alloc);
    let mut to = Vec::new(alloc);
    for row in rows {
        match place_in(columns, live, &row) {
            Ok(_) => {}
            Err(at) => {
                to.push((at, next + gained.len()))?;
                gained.push(row)?;
            }
        }
    }
    Ok((gained, to))
}

// The index with each id at its place.
fn index_with(alloc: Global, live: &RowIndex, to: &[(usize, usize)]) -> Result<RowIndex, NoMemory>
    requires { AreAlong to.now (length live.now.ids) }
    ensures { IfOk result (λ index. index.ids ≡ with_each to.now live.now.ids) }
{
    let mut index = RowIndex::of(alloc, &live.copy()?)?;
    index.reserve(to.len())?;
    put_each(&mut index, to);
    Ok(index)
}

/// Those of the rows that the index does not have, and the index after their coming, with new ids
/// for them. Each row is searched once.
pub fn splice_fresh<'a>(
    alloc: Global,
    columns: &[Column],
    live: &RowIndex,
    next: usize,
    rows: Vec<GivenRow<'a>>,
) -> Result<(Vec<GivenRow<'a>>, After), NoMemory>
    requires wide { AllWidth (length columns.now) rows.items }
    requires known { (id : ℕ) → In id live.now.ids → (k : ℕ) (d : Log) → k < length columns.now
        → id < (slice_index_or columns.now k d).ids }
    requires live_rise { Ascends row_cmp (rows_of live.now.ids (cells_of columns.now)) }
    requires rows_rise { Ascends row_cmp rows.items }
    requires few { next + length rows.items < 2 ^ 64 }
    ensures gained { IfOk result (λ (gained, _after).
        gained.items ≡ only_in rows.entry.items (rows_of live.now.ids (cells_of columns.now))) }
    ensures spliced { IfOk result (λ (gained, after).
        IsSpliced (cells_of columns.now) live.now.ids [] next gained.items []
        (later_ids (index_of after) live.now.ids)) }
    ensures placed { IfOk result (λ (_gained, after). IsPlaced (index_of after) live.now.ids) }
    ensures more { IfOk result (λ (gained, after). more_ids (index_of after)
        ≤ length gained.items) }
    ensures moved { IfOk result (λ (gained, after). length gained.items ≤ few_changed_rows
        → IsMoved (index_of after)) }
{
    let (gained, to) = fresh_places(alloc, columns, live, next, rows)?;
    if to.len() <= FEW_CHANGED_ROWS {
        return Ok((gained, After::Moved(Vec::new(alloc), to)));
    }
    let index = index_with(alloc, live, &to)?;
    Ok((gained, After::Whole(index)))
}

// Takes out the ids at these places, one after the other.
fn take_each(live: &mut RowIndex, from: &[usize])
    requires { AreAmong from.now live.old.ids }
    ensures ids { live.new.ids ≡ without from.now live.old.ids }
    ensures room { live.old.room ≤ live.new.room }
{
    for at in from {
        live.remove(*at);
    }
}

// The place and the id that stand here.
fn place_and_id(to: &[(usize, usize)], k: usize) -> (usize, usize)
    requires { k < length to.now }
    ensures { result ≡ slice_index_or to.now k result }
{
    to[k]
}

// Puts each id at its place, the last one first. It takes no memory.
fn put_each(live: &mut RowIndex, to: &[(usize, usize)])
    requires placed { AreAlong to.now (length live.old.ids) }
    requires room { length to.now ≤ live.old.room }
    ensures { live.new.ids ≡ with_each to.now live.old.ids }
{
    let mut k = to.len();
    'put: while k > 0 {
        k -= 1;
        let (at, id) = place_and_id(to, k);
        live.insert(at, id);
    }
}

/// Makes the index the one after the change. It takes no memory, and looks at no row.
pub fn change_index(live: &mut RowIndex, after: After)
    requires placed { IsPlaced (index_of after) live.old.ids }
    requires room { more_ids (index_of after) ≤ live.old.room }
    ensures { live.new.ids ≡ later_ids (index_of after) live.old.ids }
{
    match after {
        After::Whole(index) => *live = index,
        After::Moved(from, to) => {
            take_each(live, &from);
            put_each(live, &to);
        }
    }
}
