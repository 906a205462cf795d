//! Whether two tables show the same rows from a moment on.

ghost use Rattle.std.specs.Prelude.{◌≡◌, ◌<◌, ◌≤◌, ◌⊎◌, ℕ, List, All, true, length};
ghost use Rattle.std.specs.Prelude.{slice_index_or};
ghost use Rattle.relations_spec.specs.Sets.{In};
ghost use Rattle.relations_spec.specs.Spans.{forever};
ghost use Rattle.history_store_columns.specs.Keys.{no_span};
ghost use Rattle.history_store_columns.specs.Log.{Log};
ghost use Rattle.history_store_change_spec.specs.Table.{AllColumns, IsStored};
ghost use Rattle.history_store_row_order.specs.Logs.{cells_of};
ghost use Rattle.history_store_row_order.specs.Rows.{row_now, rows_of};

use history_store_columns::Column;
use history_store_index::RowIndex;
use prima_base::{FOREVER, Period};

// Whether the key begins by the moment, and ends by it or never.
fn key_is_settled(key: Period, moment: u64) -> bool
    ensures { result ≡ true → (key.start ≤ moment) × ((key.end ≤ moment) ⊎ (key.end ≡ forever)) }
{
    key.start() <= moment && (key.end() <= moment || key.end() == FOREVER)
}

// Whether each key begins by the moment, and ends by it or never.
fn keys_are_settled(keys: &[Period], moment: u64) -> bool
    ensures { result ≡ true → (id : ℕ) → id < length keys.now
        → ((slice_index_or keys.now id no_span).start ≤ moment)
        × (((slice_index_or keys.now id no_span).end ≤ moment)
        ⊎ ((slice_index_or keys.now id no_span).end ≡ forever)) }
{
    for id in 0..keys.len() {
        if !key_is_settled(keys[id], moment) {
            return false;
        }
    }
    true
}

// Whether no write of the columns is from later than the moment.
fn columns_are_settled(columns: &[Column], moment: u64) -> bool
    ensures { result ≡ true → AllColumns moment (cells_of columns.now) }
{
    match columns {
        [] => true,
        [column, rest @ ..] => column.starts_by(moment) && columns_are_settled(rest, moment),
    }
}

/// Whether a table of these keys and columns stays as it is from the moment on: no stamp in it is
/// later. Each key and write is looked at.
pub(crate) fn is_settled(keys: &[Period], columns: &[Column], moment: u64) -> bool
    ensures { result ≡ true → (live : List ℕ)
        → IsStored keys.now (cells_of columns.now) live forever
        → IsStored keys.now (cells_of columns.now) live moment }
{
    keys_are_settled(keys, moment) && columns_are_settled(columns, moment)
}

// Whether the newest rows of two ids are the same.
fn same_row(columns: &[Column], id: usize, others: &[Column], other: usize) -> bool
    requires width { length columns.now ≡ length others.now }
    requires known { All (λ c. id < c.ids) columns.now }
    requires others { All (λ c. other < c.ids) others.now }
    ensures { result ≡ true → row_now id (cells_of columns.now)
        ≡ row_now other (cells_of others.now) }
{
    for k in 0..columns.len() {
        if columns[k]
            .newest(id)
            .compare(&others[k].newest(other))
            .is_ne()
        {
            return false;
        }
    }
    true
}

/// Whether the newest rows of the ids in one order are, one by one, those of the ids in another.
pub(crate) fn same_rows(
    columns: &[Column],
    index: &RowIndex,
    others: &[Column],
    other_index: &RowIndex,
) -> bool
    requires width { length columns.now ≡ length others.now }
    requires known { (id : ℕ) → In id index.now.ids → (k : ℕ) (d : Log) → k < length columns.now
        → id < (slice_index_or columns.now k d).ids }
    requires others { (id : ℕ) → In id other_index.now.ids → (k : ℕ) (d : Log)
        → k < length others.now → id < (slice_index_or others.now k d).ids }
    ensures { result ≡ true → rows_of index.now.ids (cells_of columns.now)
        ≡ rows_of other_index.now.ids (cells_of others.now) }
{
    if index.len() != other_index.len() {
        return false;
    }
    let mut near = 0;
    let mut other_near = 0;
    for at in 0..index.len() {
        let id = index.id_near(at, &mut near);
        let other = other_index.id_near(at, &mut other_near);
        if !same_row(columns, id, others, other) {
            return false;
        }
    }
    true
}
