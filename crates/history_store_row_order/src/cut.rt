//! Rows of a table between two cuts in their order, borrowed.

ghost use Rattle.std.specs.Prelude.{◌≡◌, ◌+◌, ◌<◌, ◌≤◌, ℕ, All, OnOk, true, false, length};
ghost use Rattle.std.specs.Prelude.{map, slice_index, slice_index_or};
ghost use Rattle.relations_spec.specs.Sets.{Ascends, In};
ghost use Rattle.prima_base.specs.Order.{row_cmp, shown, IsBorrowed};
ghost use Rattle.prima_base.specs.Columns.{IsValid};
ghost use Rattle.history_store_row_order.specs.Cuts.{is_before};
ghost use Rattle.history_store_columns.specs.Log.{Log};
ghost use Rattle.history_store_row_order.specs.Logs.{cells_of};
ghost use Rattle.history_store_row_order.specs.Rows.{row_now, rows_of};

use crate::walk::compare_lead;
use history_store_columns::Column;
use history_store_index::RowIndex;
use prima_base::{NoMemory, Steps, Val, Value};
use prima_base_rows::{GivenRow, compare_prefix};
use std::cmp::Ordering;
use std::marker::Model;
use std::sync::ledger::Ledger;

/// A cut in the order of rows: before all rows that begin with its values, or after all of them.
#[derive(Drop)]
pub struct Cut {
    values: Vec<Value>,
    after: bool,
}

impl Model for Cut {
    ghost use Rattle.history_store_row_order.specs.Cuts.{Cut as PlainCut};

    ghost Value = { PlainCut };

    ghost view = { λ c. record { values = c.values.items; after = c.after } };
}

impl Cut {
    ghost use Rattle.std.specs.Prelude.{◌≡◌, true, false, if◌then◌else◌};
    ghost use Rattle.std.specs.Ordering.{is_le, is_lt};
    ghost use Rattle.history_store_row_order.specs.Cuts.{is_before};

    /// The cut before all rows that begin with these values. It takes no memory.
    pub fn before(values: Vec<Value>) -> Cut
        ensures { result ≡ record { values = values.items; after = false } }
    {
        Cut {
            values,
            after: false,
        }
    }

    /// The values that the rows at the cut begin with. It takes no memory.
    pub fn values(&self) -> &[Value]
        ensures { result.now ≡ self.now.values }
    {
        &self.values
    }

    // Whether what compares so with the values is before the cut.
    fn is_past(&self, order: Ordering) -> bool
        ensures { result ≡ (if self.now.after then is_le order else is_lt order) }
    {
        if self.after {
            order != Ordering::Greater
        } else {
            order == Ordering::Less
        }
    }

    /// Whether the row is before the cut. It takes no memory.
    pub fn has_before(&self, row: &GivenRow<'_>) -> bool
        ensures { result ≡ is_before self.now row.now }
    {
        self.is_past(compare_prefix(row, &self.values))
    }

    /// The cut after all rows that begin with these values. It takes no memory.
    pub fn after(values: Vec<Value>) -> Cut
        ensures { result ≡ record { values = values.items; after = true } }
    {
        Cut {
            values,
            after: true,
        }
    }
}

// Whether the newest row of the id is before the cut.
fn is_before(columns: &[Column], id: usize, cut: &Cut) -> bool
    requires narrow { length cut.now.values ≤ length columns.now }
    requires known { All (λ c. id < c.ids) columns.now }
    ensures { result ≡ is_before cut.now (row_now id (cells_of columns.now)) }
{
    cut.is_past(compare_lead(columns, id, &GivenRow::borrowed(&cut.values)))
}

/// How many of the live ids have rows before the cut: these stand first. It is found by binary
/// search.
pub fn count_before(columns: &[Column], live: &RowIndex, cut: &Cut) -> usize
    requires narrow { length cut.now.values ≤ length columns.now }
    requires known { (id : ℕ) → In id live.now.ids → (k : ℕ) (d : Log) → k < length columns.now
        → id < (slice_index_or columns.now k d).ids }
    requires live_rise { Ascends row_cmp (rows_of live.now.ids (cells_of columns.now)) }
    ensures within { result ≤ length live.now.ids }
    ensures before { (k : ℕ) → k < result → is_before cut.now
        (row_now (slice_index live.now.ids k) (cells_of columns.now)) ≡ true }
    ensures after { (k : ℕ) → result ≤ k → k < length live.now.ids
        → is_before cut.now (row_now (slice_index live.now.ids k) (cells_of columns.now)) ≡ false }
{
    let mut low = 0;
    let mut high = live.len();
    'halves: while low < high {
        let middle = low + (high - low) / 2;
        if is_before(columns, live.id_at(middle), cut) {
            low = middle + 1;
        } else {
            high = middle;
        }
    }
    low
}

// Puts the values of the newest row of the id into `row`, borrowed, in place of what it had. Each
// value is one step, also where memory runs out on the way.
fn lend_now<'a, L: Ledger>(
    columns: &'a [Column],
    id: usize,
    row: &mut Vec<Val<'a>>,
    steps: &mut Steps<L>,
) -> Result<(), NoMemory>
    requires { All (λ c. id < c.ids) columns.now }
    ensures values { OnOk result (map shown row.new.items ≡ row_now id (cells_of columns.now)) }
    ensures valid { OnOk result (All (λ v. IsValid (shown v)) row.new.items) }
    ensures borrowed { OnOk result (All IsBorrowed row.new.items) }
    ensures cost { OnOk result (steps.new ≡ steps.old + length row.new.items) }
    ensures handed { steps.old + length row.new.items ≤ steps.new }
    ensures most { steps.new ≤ steps.old + length columns.now }
{
    row.clear();
    for column in columns {
        steps.tick();
        row.push(column.newest(id))?;
    }
    Ok(())
}

/// Current rows of a table, ascending. Each can be looked at where it is; each value that is handed
/// out is one step, as an entry of a scan is.
#[derive(Drop)]
pub struct BorrowedRows<'a> {
    columns: &'a [Column],
    index: &'a RowIndex,
    start: usize,
    end: usize,
    near: usize,
}

impl<'a> Model for BorrowedRows<'a> {
    ghost use Rattle.std.specs.Prelude.{List};
    ghost use Rattle.prima_base.specs.declared.value.Value.{Value as OneValue};

    ghost Value = { List (List OneValue) };

    ghost use Rattle.history_store_row_order.specs.Cuts.{borrowed_rows, AreBorrowed};

    ghost view = { borrowed_rows };

    ghost invariant = { AreBorrowed };
}

impl<'a> BorrowedRows<'a> {
    ghost use Rattle.std.specs.Prelude.{◌≡◌, ◌-◌, ◌<◌, ◌≤◌, ℕ, [], take, drop, map, option_map};
    ghost use Rattle.std.specs.Prelude.{◌+◌, length, All, IfSome, OnOk, slice_get, slice_index_or};
    ghost use Rattle.std.specs.Prelude.{option_to_list};
    ghost use Rattle.relations_spec.specs.Sets.{In};
    ghost use Rattle.prima_base.specs.Order.{shown, IsBorrowed};
    ghost use Rattle.prima_base.specs.Columns.{IsValid};
    ghost use Rattle.history_store_columns.specs.Log.{Log};
    ghost use Rattle.history_store_row_order.specs.Logs.{cells_of};
    ghost use Rattle.history_store_row_order.specs.Rows.{row_now, rows_of};

    /// The newest rows of the ids from the one place to the other.
    pub fn over(
        columns: &'a [Column],
        index: &'a RowIndex,
        start: usize,
        end: usize,
    ) -> BorrowedRows<'a>
        requires order { start ≤ end }
        requires within { end ≤ length index.now.ids }
        requires known { (id : ℕ) → In id index.now.ids → (k : ℕ) (d : Log) → k < length columns.now
            → id < (slice_index_or columns.now k d).ids }
        requires whole { (id : ℕ) → In id index.now.ids
            → length (row_now id (cells_of columns.now)) ≡ length columns.now }
        ensures { result ≡ rows_of (take (end - start) (drop start index.now.ids))
            (cells_of columns.now) }
    {
        BorrowedRows {
            columns,
            index,
            start,
            end,
            near: 0,
        }
    }

    /// How many rows there are.
    pub fn len(&self) -> usize
        ensures { result ≡ length self.now }
    {
        self.end - self.start
    }

    /// Puts the values of the row at this place into `row`, borrowed, in place of what it had; a
    /// text among them has at most 4,096 bytes and no control byte. Rows that are looked at one
    /// after the other are found at once. Each value is one step. Where `row` has the room it takes
    /// no memory. The one error is `NoMemory`, where memory runs out: `row` may then have some of
    /// the values, and each of these was a step too.
    pub fn lend<L: Ledger>(
        &mut self,
        at: usize,
        row: &mut Vec<Val<'a>>,
        steps: &mut Steps<L>,
    ) -> Result<(), NoMemory>
        requires within { at < length self.old }
        ensures same { self.new ≡ self.old }
        ensures values { OnOk result (map shown row.new.items ≡ slice_index_or self.old at []) }
        ensures valid { OnOk result (All (λ v. IsValid (shown v)) row.new.items) }
        ensures borrowed { OnOk result (All IsBorrowed row.new.items) }
        ensures cost { OnOk result (steps.new ≡ steps.old + length row.new.items) }
        ensures handed { steps.old + length row.new.items ≤ steps.new }
        ensures most { steps.new ≤ steps.old + length (slice_index_or self.old at []) }
    {
        let id = self.index.id_near(self.start + at, &mut self.near);
        lend_now(self.columns, id, row, steps)
    }

    /// The value in this column of the row at this place, borrowed as `lend` gives it: `None`
    /// exactly where the row has no such column. A value is one step. It takes no memory.
    pub fn value<L: Ledger>(
        &mut self,
        at: usize,
        column: usize,
        steps: &mut Steps<L>,
    ) -> Option<Val<'a>>
        requires within { at < length self.old }
        ensures same { self.new ≡ self.old }
        ensures value { option_map shown result ≡ slice_get (slice_index_or self.old at []) column }
        ensures valid { IfSome result (λ v. IsValid (shown v)) }
        ensures borrowed { IfSome result IsBorrowed }
        ensures cost { steps.new ≡ steps.old + length (option_to_list result) }
    {
        let columns = self.columns;
        if column >= columns.len() {
            return None;
        }
        steps.tick();
        let id = self.index.id_near(self.start + at, &mut self.near);
        Some(columns[column].newest(id))
    }
}
