//! The rows by which a table differs from what is stored, while the changes of a command are
//! applied.

ghost use Rattle.std.specs.Prelude.{◌≡◌, ◌⊎◌, ◌<◌, ◌++◌, ◌&&◌, ℕ, List, Option, Some, [], ◌∷◌, All};
ghost use Rattle.std.specs.Prelude.{length, map, drop, cond, IfOk, OnOk, slice_index_or, vec_len};
ghost use Rattle.std.specs.Prelude.{if◌then◌else◌};
ghost use Rattle.std.specs.Map.{lookup, keys_of};
ghost use Rattle.std.specs.BTreeMap.{is_at};
ghost use Rattle.std.specs.List.Sorted.{IsStrictlySortedBy};
ghost use Rattle.std.specs.Ordering.{is_eq};
ghost use Rattle.prima_base.specs.Order.{row_cmp};
ghost use Rattle.prima_base.specs.declared.value.Value.{Value as OneValue};
ghost use Rattle.cond_expr.specs.Seen.{test};
ghost use Rattle.smo_ops_spec.specs.OneRow.{meets};
ghost use Rattle.version_groups_changes.specs.PendingChanges.{pending_hits, range_hits, led_of};
ghost use Rattle.version_groups_changes.specs.PendingChanges.{Led};
ghost use Rattle.version_groups_changes.specs.PendingChanges.{IsToldLed};
ghost use Rattle.version_groups_changes.specs.PendingChanges.{IsToldToo, IsPinnedRange};

use crate::row_value::{copy_values, lend_values, put_values};
use cond_expr::{CmpOp, Cond, pinned};
use history_store::{Cut, GivenRow};
use prima_base::{NoMemory, Row, Value};
use std::alloc::Global;
use std::collections::BTreeMap;
use std::marker::Model;
use std::mem;
use version_groups_candidates::{OwnColumns, row_meets};

// A row of these values.
fn row_of<'a>(alloc: Global, values: &[Value]) -> Result<GivenRow<'a>, NoMemory>
    ensures { IfOk result (λ row. row ≡ values.now) }
{
    let mut copies = Vec::with_capacity(alloc, values.len())?;
    for value in values {
        copies.push(value.copy()?)?;
    }
    Ok(GivenRow::owned(Row::new(alloc, copies)))
}

// The row after its value in the column.
fn row_after<'a>(alloc: Global, column: usize, row: &GivenRow<'a>) -> Result<GivenRow<'a>, NoMemory>
    requires { column < length row.now }
    ensures { IfOk result (λ led. Some led ≡ led_of column row.now) }
{
    let mut values = Vec::with_capacity(alloc, row.len())?;
    values.push(row.copy_value(column)?)?;
    put_values(row, 0, &mut values)?;
    Ok(GivenRow::of(values))
}

// The same, where the row has a value in the column.
fn led_row<'a>(
    alloc: Global,
    column: usize,
    row: &GivenRow<'a>,
) -> Result<Option<GivenRow<'a>>, NoMemory>
    ensures { IfOk result (λ o. o ≡ led_of column row.now) }
{
    if column >= row.len() {
        return Ok(None);
    }
    Ok(Some(row_after(alloc, column, row)?))
}

// What is known of the row from now on, or nothing.
fn tell<'a>(
    rows: &mut BTreeMap<GivenRow<'a>, bool>,
    row: GivenRow<'a>,
    told: Option<bool>,
) -> Result<(), NoMemory>
    ensures { OnOk result ((q : List OneValue)
        → lookup (is_at (row_cmp q)) rows.new.entries
        ≡ cond (is_eq (row_cmp row.entry q)) told (lookup (is_at (row_cmp q)) rows.old.entries)) }
{
    match told {
        Some(there) => {
            rows.insert(row, there)?;
        }
        None => {
            rows.remove(&row);
        }
    }
    Ok(())
}

// The same of the row after its value, if there is one.
fn tell_led<'a>(
    led: &mut BTreeMap<GivenRow<'a>, bool>,
    row: Option<GivenRow<'a>>,
    told: Option<bool>,
) -> Result<(), NoMemory>
    ensures { OnOk result (IsToldLed row.entry told led.old.entries led.new.entries) }
{
    match row {
        Some(row) => tell(led, row, told),
        None => Ok(()),
    }
}

// Puts the row without its first values after the hits where the table has it now and it meets the
// condition.
fn put_pending<'a>(
    alloc: Global,
    own: &OwnColumns<'_>,
    cond: &Cond,
    row: &GivenRow<'a>,
    skip: usize,
    there: bool,
    hits: &mut Vec<GivenRow<'a>>,
) -> Result<(), NoMemory>
    ensures { OnOk result (hits.new.items ≡ hits.old.items
        ++ (if there && meets own.now (test cond.now) (drop skip row.now)
        then drop skip row.now ∷ [] else [])) }
{
    if !there {
        return Ok(());
    }
    let values = lend_values(alloc, row, skip)?;
    if !row_meets(alloc, own, cond, &values)? {
        return Ok(());
    }
    let values = copy_values(alloc, row, skip)?;
    hits.push(GivenRow::of(values))?;
    Ok(())
}

// Puts the rows in the map, from the first cut on and before the other and without their first
// values, after the hits where the table has them now and they meet the condition.
fn put_all_pending<'a>(
    alloc: Global,
    rows: &BTreeMap<GivenRow<'a>, bool>,
    skip: usize,
    own: &OwnColumns<'_>,
    cond: &Cond,
    from: &Cut,
    to: &Cut,
    hits: &mut Vec<GivenRow<'a>>,
) -> Result<(), NoMemory>
    ensures { OnOk result (hits.new.items ≡ hits.old.items
        ++ map (drop skip) (pending_hits from.now to.now
        (λ row. meets own.now (test cond.now) (drop skip row)) rows.now.entries)) }
{
    let first = row_of(alloc, from.values())?;
    for (row, there) in rows.range(first..) {
        if !to.has_before(row) {
            return Ok(());
        }
        put_pending(alloc, own, cond, row, skip, *there, hits)?;
    }
    Ok(())
}

// This value.
fn one_value(alloc: Global, value: &Value) -> Result<Vec<Value>, NoMemory>
    ensures { IfOk result (λ v. v.items ≡ value.now ∷ []) }
{
    let mut values = Vec::with_capacity(alloc, 1)?;
    values.push(value.copy()?)?;
    Ok(values)
}

/// Rows after their values in one column, each with whether the table has it now.
#[derive(Drop)]
struct LedRows<'a> {
    column: usize,
    rows: BTreeMap<GivenRow<'a>, bool>,
}

impl<'a> Model for LedRows<'a> {
    ghost use Rattle.version_groups_changes.specs.PendingChanges.{Led};

    ghost Value = { Led };

    ghost view = { λ l. record { column = l.column; rows = l.rows.entries } };
}

/// Rows of a map, each after so many other values, from the one cut on and before the other.
#[derive(Drop)]
struct PendingRange<'m, 'a> {
    rows: &'m BTreeMap<GivenRow<'a>, bool>,
    skip: usize,
    from: Cut,
    to: Cut,
}

impl<'m, 'a> Model for PendingRange<'m, 'a> {
    ghost use Rattle.version_groups_changes.specs.PendingChanges.{PendingRange as PlainRange};

    ghost Value = { PlainRange };

    ghost view = { λ r. record {
      rows = r.rows.now.entries;
      skip = r.skip;
      from = r.from;
      to =
          r.to;
    } };
}

impl<'a> LedRows<'a> {
    ghost use Rattle.std.specs.Prelude.{OnOk, IfOk, IfSome, Option, ◌≡◌};
    ghost use Rattle.std.specs.Map.{keys_of};
    ghost use Rattle.std.specs.List.Sorted.{IsStrictlySortedBy};
    ghost use Rattle.prima_base.specs.Order.{row_cmp};
    ghost use Rattle.cond_expr.specs.Seen.{test};
    ghost use Rattle.version_groups_changes.specs.PendingChanges.{IsToldToo, IsPinnedRange};

    // What is known of the row from now on, or nothing.
    fn tell(
        &mut self,
        alloc: Global,
        row: &GivenRow<'a>,
        told: Option<bool>,
    ) -> Result<(), NoMemory>
        ensures { OnOk result (IsToldToo row.now told self.old self.new) }
    {
        let row = led_row(alloc, self.column, row)?;
        tell_led(&mut self.rows, row, told)
    }

    // The rows with the constant to which the condition pins the column, where it does.
    fn pinned_range(
        &self,
        alloc: Global,
        own: &OwnColumns<'_>,
        cond: &Cond,
    ) -> Result<Option<PendingRange<'_, 'a>>, NoMemory>
        ensures range { IfOk result (λ o. IfSome o
            (λ r. IsPinnedRange own.now (test cond.now) self.now r)) }
        ensures ordered { IsStrictlySortedBy row_cmp (keys_of self.now.rows) }
    {
        let _count = self.rows.len();
        let columns = own.atoms();
        if self.column >= columns.len() {
            return Ok(None);
        }
        let Some(value) = pinned(cond, CmpOp::Eq, &columns[self.column]) else {
            return Ok(None);
        };
        Ok(Some(PendingRange {
            rows: &self.rows,
            skip: 1,
            from: Cut::before(one_value(alloc, value)?),
            to: Cut::after(one_value(alloc, value)?),
        }))
    }
}

// Whether the one range ends no later than the other, where both are gone along side by side.
fn is_shorter(
    alloc: Global,
    one: &PendingRange<'_, '_>,
    other: &PendingRange<'_, '_>,
) -> Result<bool, NoMemory> {
    let first = row_of(alloc, one.from.values())?;
    let mut others = other.rows.range(row_of(alloc, other.from.values())?..);
    for (row, _) in one.rows.range(first..) {
        if !one.to.has_before(row) {
            return Ok(true);
        }
        let Some((row, _)) = others.next() else {
            return Ok(false);
        };
        if !other.to.has_before(row) {
            return Ok(false);
        }
    }
    Ok(true)
}

// The rows with the constant to which the condition pins the column, where it does and they are
// fewer than those of the range; else these.
fn shorter<'m, 'a>(
    alloc: Global,
    led: &'m LedRows<'a>,
    own: &OwnColumns<'_>,
    cond: &Cond,
    range: PendingRange<'m, 'a>,
) -> Result<PendingRange<'m, 'a>, NoMemory>
    ensures range { IfOk result (λ r. (r ≡ range.entry)
        ⊎ IsPinnedRange own.now (test cond.now) led.now r) }
    ensures ordered { IsStrictlySortedBy row_cmp (keys_of led.now.rows) }
{
    let Some(other) = led.pinned_range(alloc, own, cond)? else {
        return Ok(range);
    };
    if is_shorter(alloc, &other, &range)? {
        return Ok(other);
    }
    Ok(range)
}

// No rows are known yet after their values in these columns.
fn none_led<'a>(alloc: Global, columns: &[usize]) -> Result<Vec<LedRows<'a>>, NoMemory>
    ensures { IfOk result (λ v. All (λ led. led.rows ≡ []) v.items) }
{
    let mut led = Vec::with_capacity(alloc, columns.len())?;
    for column in columns {
        led.push(LedRows {
            column: *column,
            rows: BTreeMap::new(alloc),
        })?;
    }
    Ok(led)
}

// What is known of the row from now on, or nothing, after its values in each column.
fn tell_each<'a>(
    alloc: Global,
    led: &mut Vec<LedRows<'a>>,
    row: &GivenRow<'a>,
    told: Option<bool>,
) -> Result<(), NoMemory>
    ensures len { vec_len led.new ≡ vec_len led.old }
    ensures each { OnOk result ((k : ℕ) (d : Led) → k < vec_len led.old
        → IsToldToo row.now told (slice_index_or led.old.items k d)
        (slice_index_or led.new.items k d)) }
{
    for k in 0..led.len() {
        led[k].tell(alloc, row, told)?;
    }
    Ok(())
}

/// Each row by which a table differs from what is stored, with whether the table has it now; and
/// the same rows after their values in each column that is asked for. The texts that an INSERT
/// gives stay where they stand in the command.
#[derive(Drop)]
pub(crate) struct PendingRows<'a> {
    alloc: Global,
    rows: BTreeMap<GivenRow<'a>, bool>,
    led: Vec<LedRows<'a>>,
}

impl<'a> Model for PendingRows<'a> {
    ghost use Rattle.version_groups_changes.specs.PendingChanges.{Pending};

    ghost Value = { Pending };

    ghost use Rattle.version_groups_changes.specs.PendingFields.{IsKnown};

    ghost view = { λ k. k.rows.entries };

    ghost invariant = { IsKnown };
}

impl<'a> PendingRows<'a> {
    ghost use Rattle.std.specs.Prelude.{◌≡◌, ◌++◌, List, Option, cond, IfOk, OnOk, []};
    ghost use Rattle.std.specs.Map.{lookup, keys_of};
    ghost use Rattle.std.specs.BTreeMap.{is_at};
    ghost use Rattle.std.specs.List.Sorted.{IsStrictlySortedBy};
    ghost use Rattle.std.specs.Ordering.{is_eq};
    ghost use Rattle.prima_base.specs.Order.{row_cmp};
    ghost use Rattle.prima_base.specs.declared.value.Value.{Value as OneValue};
    ghost use Rattle.cond_expr.specs.Seen.{test};
    ghost use Rattle.smo_ops_spec.specs.OneRow.{meets};
    ghost use Rattle.version_groups_changes.specs.PendingChanges.{is_kept, HavePendingHits};
    ghost use Rattle.version_groups_changes.specs.PendingChanges.{CanBeHits};

    /// Nothing is known yet. Rows with one value in one of the columns at these places are found at
    /// once.
    pub(crate) fn new(alloc: Global, columns: &[usize]) -> Result<PendingRows<'a>, NoMemory>
        ensures { IfOk result (λ known. known ≡ []) }
    {
        Ok(PendingRows {
            alloc,
            rows: BTreeMap::new(alloc),
            led: none_led(alloc, columns)?,
        })
    }

    /// Whether no change has lost the row.
    pub(crate) fn is_kept(&self, row: &GivenRow<'a>) -> bool
        ensures { result ≡ is_kept self.now row.now }
    {
        match self.rows.get(row) {
            Some(there) => *there,
            None => true,
        }
    }

    /// The table has the row now, or has it no more; or it is again as it is stored, and nothing is
    /// known of it.
    pub(crate) fn set(&mut self, row: GivenRow<'a>, told: Option<bool>) -> Result<(), NoMemory>
        ensures { OnOk result ((q : List OneValue)
            → lookup (is_at (row_cmp q)) self.new
            ≡ cond (is_eq (row_cmp row.entry q)) told (lookup (is_at (row_cmp q)) self.old)) }
    {
        let mut led = mem::replace(&mut self.led, Vec::new(self.alloc));
        tell_each(self.alloc, &mut led, &row, told)?;
        tell(&mut self.rows, row, told)?;
        self.led = led;
        Ok(())
    }

    // A range of known rows in which all are that meet the condition: those between the cuts, or
    // those with the constant to which the condition pins a column, whichever are fewest.
    fn range(
        &self,
        own: &OwnColumns<'_>,
        cond: &Cond,
        from: Cut,
        to: Cut,
    ) -> Result<PendingRange<'_, 'a>, NoMemory>
        ensures { CanBeHits own.now (test cond.now) from to self.now
            → IfOk result (λ r. HavePendingHits (meets own.now (test cond.now)) self.now
            (range_hits (meets own.now (test cond.now)) r)) }
    {
        let _known = self.rows.len();
        let mut range = PendingRange {
            rows: &self.rows,
            skip: 0,
            from,
            to,
        };
        for led in &self.led {
            range = shorter(self.alloc, led, own, cond, range)?;
        }
        Ok(range)
    }

    /// The rows that the table has now by what is known, and that meet the condition, in any order:
    /// each text that stands in the command stays there.
    pub(crate) fn hits(
        &self,
        alloc: Global,
        own: &OwnColumns<'_>,
        cond: &Cond,
        from: Cut,
        to: Cut,
    ) -> Result<Vec<GivenRow<'a>>, NoMemory>
        ensures hits { CanBeHits own.now (test cond.now) from to self.now
            → IfOk result (λ v. HavePendingHits (meets own.now (test cond.now)) self.now v.items) }
        ensures ordered { IsStrictlySortedBy row_cmp (keys_of self.now) }
    {
        let _known = self.rows.len();
        let range = self.range(own, cond, from, to)?;
        let mut hits = Vec::new(alloc);
        put_all_pending(
            alloc,
            range.rows,
            range.skip,
            own,
            cond,
            &range.from,
            &range.to,
            &mut hits,
        )?;
        Ok(hits)
    }

    /// The rows, each with whether the table has it now.
    pub(crate) fn into_rows(self) -> BTreeMap<GivenRow<'a>, bool>
        ensures { result.entries ≡ self.entry }
    {
        let PendingRows { rows, .. } = self;
        rows
    }
}
