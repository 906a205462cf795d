//! Rows that are given to a table.

ghost use Rattle.std.specs.Prelude.{◌≡◌, ◌<◌, All, IfOk, length, map, slice_index_or, take};
ghost use Rattle.prima_base.specs.Order.{row_cmp, shown, IsBorrowed};
ghost use Rattle.prima_base.specs.Columns.{IsValid};
ghost use Rattle.prima_base_rows.specs.GivenRows.{values_of, AreValid, LieElsewhere};

use prima_base::{NoMemory, Row, Val, Value};
use std::cmp::Ordering;
use std::marker::Model;

// The values of a row: where they stand in a list, or the row's own, or each the one or the other.
#[derive(Drop)]
enum RowValues<'a> {
    Borrowed(&'a [Value]),
    Owned(Vec<Value>),
    Each(Vec<Val<'a>>),
}

// The value at this place, borrowed.
fn lend_at(values: &[Value], at: usize) -> Val<'_>
    requires { at < length values.now }
    ensures value { shown result ≡ slice_index_or values.now at (shown result) }
    ensures valid { IsValid (shown result) }
    ensures borrowed { IsBorrowed result }
{
    values[at].lend()
}

// The value at this place. A text is copied.
fn copy_at<'a>(values: &[Value], at: usize) -> Result<Val<'a>, NoMemory>
    requires { at < length values.now }
    ensures value { IfOk result (λ v. shown v ≡ slice_index_or values.now at (shown v)) }
    ensures valid { IfOk result (λ v. IsValid (shown v)) }
{
    let value = values[at].to_val()?;
    Ok(value)
}

// The value at this place. A borrowed text stays borrowed, where it was.
fn copy_val_at<'a>(values: &[Val<'a>], at: usize) -> Result<Val<'a>, NoMemory>
    requires within { at < length values.now }
    requires valid { All (λ v. IsValid (shown v)) values.now }
    ensures value { IfOk result (λ v. shown v
        ≡ slice_index_or (map shown values.now) at (shown v)) }
    ensures valid { IfOk result (λ v. IsValid (shown v)) }
    ensures borrowed { All IsBorrowed values.now → IfOk result IsBorrowed }
{
    let value = values[at].copy()?;
    Ok(value)
}

impl<'a> RowValues<'a> {
    // The value at this place, to keep. A text that stands elsewhere stays there.
    fn copy_value(&self, at: usize) -> Result<Val<'a>, NoMemory>
        requires valid { AreValid self.now }
        requires within { at < length (values_of self.now) }
        ensures value { IfOk result (λ v. shown v
            ≡ slice_index_or (values_of self.now) at (shown v)) }
        ensures valid { IfOk result (λ v. IsValid (shown v)) }
        ensures borrowed { LieElsewhere self.now → IfOk result IsBorrowed }
    {
        match self {
            RowValues::Borrowed(values) => return Ok(lend_at(values, at)),
            RowValues::Owned(values) => return copy_at(values, at),
            RowValues::Each(values) => return copy_val_at(values, at),
        }
    }
}

impl RowValues<'_> {
    // How many values there are.
    fn len(&self) -> usize
        ensures { result ≡ length (values_of self.now) }
    {
        match self {
            RowValues::Borrowed(values) => values.len(),
            RowValues::Owned(values) => values.len(),
            RowValues::Each(values) => values.len(),
        }
    }

    // The value at this place, borrowed.
    fn value(&self, at: usize) -> Val<'_>
        requires valid { AreValid self.now }
        requires within { at < length (values_of self.now) }
        ensures value { shown result ≡ slice_index_or (values_of self.now) at (shown result) }
        ensures valid { IsValid (shown result) }
        ensures borrowed { IsBorrowed result }
    {
        match self {
            RowValues::Borrowed(values) => lend_at(values, at),
            RowValues::Owned(values) => lend_at(values, at),
            RowValues::Each(values) => values[at].lend(),
        }
    }
}

/// A row that is given to a table. Its texts are its own, or stand elsewhere until the table copies
/// them into its buffers. Rows are ordered value by value. A contract sees the list of the values.
#[derive(Drop)]
pub struct GivenRow<'a> {
    values: RowValues<'a>,
}

impl<'a> Model for GivenRow<'a> {
    ghost use Rattle.std.specs.Prelude.{List};
    ghost use Rattle.prima_base.specs.declared.value.Value.{Value as OneValue};

    ghost Value = { List OneValue };

    ghost use Rattle.prima_base_rows.specs.GivenRows.{row_values, IsValidRow};

    ghost view = { row_values };

    ghost invariant = { IsValidRow };
}

impl<'a> GivenRow<'a> {
    ghost use Rattle.std.specs.Prelude.{◌≡◌, ◌<◌, All, IfOk, length, map, slice_index_or};
    ghost use Rattle.prima_base.specs.Order.{shown};
    ghost use Rattle.prima_base.specs.Columns.{IsValid};

    /// The row of these values, where they stand. It takes no memory.
    pub fn borrowed(values: &'a [Value]) -> GivenRow<'a>
        ensures { result ≡ values.now }
    {
        GivenRow {
            values: RowValues::Borrowed(values),
        }
    }

    /// This row. It takes no memory.
    pub fn owned(row: Row) -> GivenRow<'a>
        ensures { result ≡ row }
    {
        GivenRow {
            values: RowValues::Owned(row.into_values()),
        }
    }

    /// The row of these values, of which a text has at most 4,096 bytes and no control byte. It
    /// takes no memory.
    pub fn of(values: Vec<Val<'a>>) -> GivenRow<'a>
        requires { All (λ v. IsValid (shown v)) values.items }
        ensures { result ≡ map shown values.entry.items }
    {
        GivenRow {
            values: RowValues::Each(values),
        }
    }

    /// The value at this place, to keep: a text that stands elsewhere stays there, the row's own is
    /// copied. It has at most 4,096 bytes and no control byte. The one error is `NoMemory`, where
    /// memory runs out.
    pub fn copy_value(&self, at: usize) -> Result<Val<'a>, NoMemory>
        requires { at < length self.now }
        ensures value { IfOk result (λ v. shown v ≡ slice_index_or self.now at (shown v)) }
        ensures valid { IfOk result (λ v. IsValid (shown v)) }
    {
        self.values.copy_value(at)
    }
}

impl GivenRow<'_> {
    ghost use Rattle.std.specs.Prelude.{◌≡◌, ◌<◌, length, slice_index_or};
    ghost use Rattle.prima_base.specs.Order.{shown, IsBorrowed};
    ghost use Rattle.prima_base.specs.Columns.{IsValid};

    /// How many values the row has. It takes no memory.
    pub fn len(&self) -> usize
        ensures { result ≡ length self.now }
    {
        self.values.len()
    }

    /// The value at this place, borrowed; a text has at most 4,096 bytes and no control byte. It
    /// takes no memory.
    pub fn value(&self, at: usize) -> Val<'_>
        requires { at < length self.now }
        ensures value { shown result ≡ slice_index_or self.now at (shown result) }
        ensures valid { IsValid (shown result) }
        ensures borrowed { IsBorrowed result }
    {
        self.values.value(at)
    }
}

/// Compares what the row begins with with these values. It takes no memory.
pub fn compare_prefix(row: &GivenRow<'_>, values: &[Value]) -> Ordering
    ensures { result ≡ row_cmp (take (length values.now) row.now) values.now }
{
    let width = row.len().min(values.len());
    for k in 0..width {
        let order = row.value(k).compare(&values[k].lend());
        if order != Ordering::Equal {
            return order;
        }
    }
    width.cmp(&values.len())
}

// The order of two rows, value by value.
fn compare_rows(row: &GivenRow<'_>, other: &GivenRow<'_>) -> Ordering
    ensures { result ≡ row_cmp row.now other.now }
{
    let width = row.len().min(other.len());
    for k in 0..width {
        let order = row.value(k).compare(&other.value(k));
        if order != Ordering::Equal {
            return order;
        }
    }
    row.len().cmp(&other.len())
}

impl PartialEq for GivenRow<'_> {
    ghost use Rattle.std.specs.Ordering.{eq_by_cmp};
    ghost use Rattle.prima_base.specs.Order.{row_cmp};
    ghost use Rattle.prima_base.specs.OrderLaws.{row_eq_per};

    ghost eq = { eq_by_cmp (row_cmp) };

    ghost laws = { row_eq_per };

    fn eq(&self, other: &GivenRow<'_>) -> bool {
        self.cmp(other) == Ordering::Equal
    }
}

impl Eq for GivenRow<'_> {
    ghost use Rattle.prima_base.specs.OrderLaws.{row_eq_equiv};

    ghost laws = { row_eq_equiv };
}

impl PartialOrd for GivenRow<'_> {
    ghost use Rattle.std.specs.Prelude.{Some};
    ghost use Rattle.prima_base.specs.Order.{row_cmp};
    ghost use Rattle.prima_base.specs.OrderLaws.{row_po};

    ghost partial_cmp = { λ x y. Some (row_cmp x y) };

    ghost laws = { row_po };

    fn partial_cmp(&self, other: &GivenRow<'_>) -> Option<Ordering> {
        Some(self.cmp(other))
    }
}

impl Ord for GivenRow<'_> {
    ghost use Rattle.std.specs.Prelude.{refl};
    ghost use Rattle.prima_base.specs.Order.{row_cmp};
    ghost use Rattle.prima_base.specs.OrderLaws.{row_total};

    ghost cmp = { row_cmp };

    ghost total = { row_total };

    ghost matches_partial_cmp = { λ x y. refl };

    ghost matches_eq = { λ x y. refl };

    fn cmp(&self, other: &GivenRow<'_>) -> Ordering {
        compare_rows(self, other)
    }
}
