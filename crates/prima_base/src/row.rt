ghost use Rattle.std.specs.Prelude.{◌≡◌, IfOk};
ghost use Rattle.relations_spec.specs.Sets.{IsExact};
ghost use Rattle.prima_base.specs.Order.{row_cmp};

use crate::{NoMemory, Value};
use std::alloc::Global;
use std::cmp::Ordering;
use std::marker::Model;

/// A row: a list of values. Rows are ordered value by value. A contract sees the list.
pub struct Row {
    alloc: Global,
    values: Vec<Value>,
}

// Written out, not derived: each crate above would prove a derived one again.
impl Drop for Row {
    fn drop(self) {
        let Row {
            alloc: _alloc,
            values: _values,
        } = self;
    }
}

impl Model for Row {
    ghost use Rattle.std.specs.Prelude.{List};
    ghost use Rattle.prima_base.specs.declared.value.Value.{Value as OneValue};

    ghost Value = { List OneValue };

    ghost view = { λ r. r.values.items };
}

impl Row {
    ghost use Rattle.std.specs.Prelude.{◌≡◌, IfOk};

    /// The row of these values. It takes no memory.
    pub fn new(alloc: Global, values: Vec<Value>) -> Row
        ensures { result ≡ values.items }
    {
        Row { alloc, values }
    }

    /// The values, taken out of the row.
    pub fn into_values(self) -> Vec<Value>
        ensures { result.items ≡ self }
    {
        let Row { alloc: _, values } = self;
        values
    }

    /// The values. It takes no memory.
    pub fn values(&self) -> &[Value]
        ensures { result.now ≡ self.now }
    {
        &self.values
    }

    /// An equal row.
    pub fn copy(&self) -> Result<Row, NoMemory>
        ensures { IfOk result (λ r. r ≡ self.now) }
    {
        Ok(Row {
            alloc: self.alloc,
            values: copy_values(self.alloc, &self.values)?,
        })
    }
}

// An equal list.
fn copy_values(alloc: Global, values: &[Value]) -> Result<Vec<Value>, NoMemory>
    ensures { IfOk result (λ v. v.items ≡ values.now) }
{
    let mut copies = Vec::with_capacity(alloc, values.len())?;
    for value in values {
        copies.push(value.copy()?)?;
    }
    Ok(copies)
}

impl PartialEq for Row {
    ghost use Rattle.std.specs.Ordering.{eq_by_cmp};
    ghost use Rattle.prima_base.specs.Order.{row_cmp};
    ghost use Rattle.prima_base.specs.OrderLaws.{row_eq_per};

    ghost eq = { eq_by_cmp (row_cmp) };

    ghost laws = { row_eq_per };

    fn eq(&self, other: &Row) -> bool {
        self.cmp(other) == Ordering::Equal
    }
}

impl Eq for Row {
    ghost use Rattle.prima_base.specs.OrderLaws.{row_eq_equiv};

    ghost laws = { row_eq_equiv };
}

impl PartialOrd for Row {
    ghost use Rattle.std.specs.Prelude.{Some};
    ghost use Rattle.prima_base.specs.Order.{row_cmp};
    ghost use Rattle.prima_base.specs.OrderLaws.{row_po};

    ghost partial_cmp = { λ x y. Some (row_cmp x y) };

    ghost laws = { row_po };

    fn partial_cmp(&self, other: &Row) -> Option<Ordering> {
        Some(self.cmp(other))
    }
}

impl Ord for Row {
    ghost use Rattle.std.specs.Prelude.{refl};
    ghost use Rattle.prima_base.specs.Order.{row_cmp};
    ghost use Rattle.prima_base.specs.OrderLaws.{row_total};

    ghost cmp = { row_cmp };

    ghost total = { row_total };

    ghost matches_partial_cmp = { λ x y. refl };

    ghost matches_eq = { λ x y. refl };

    fn cmp(&self, other: &Row) -> Ordering {
        self.values.as_slice().cmp(other.values.as_slice())
    }
}

/// The order of rows is a strict one, and two rows that it does not part are equal: so a relation,
/// as the ascending list of its rows, is determined by them.
pub fn rows_are_told_apart()
    ensures { IsExact row_cmp }
{}
