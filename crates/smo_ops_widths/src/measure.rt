//! The measures of widths.

ghost use Rattle.std.specs.Prelude.{◌≡◌, ◌≤◌};
ghost use Rattle.std.specs.FinMap.{entries, get};
ghost use Rattle.smo_ops_widths.specs.Widths.{Widths, measure, measure_of};
ghost use Rattle.smo_ops_widths.specs.Widths.{sum_of_sizes, greatest};
ghost use Rattle.smo_ops_widths.specs.Counted.{stopped, size_in};
ghost use Rattle.smo_ops_widths.specs.Shown.{width_of, Show};
ghost use Rattle.smo_ops_widths.specs.AtHand.{all_widths};

use crate::size::size_of;
use crate::width::TableWidth;
use crate::widths::TableWidths;
use prima_base::{ColType, Name};
use schema_catalog::{Schema, Table};

// The sizes of these columns together.
fn sum_of_sizes(columns: &[(Name, ColType)], sizes: &[(Name, u64)]) -> u64
    ensures { result ≡ stopped (sum_of_sizes columns.now (size_in sizes.now)) }
{
    let mut sum: u64 = 0;
    for (name, _) in columns {
        sum = sum.saturating_add(size_of(sizes, name));
    }
    sum
}

// The measure of a table with these columns.
fn measure(columns: &[(Name, ColType)], width: &TableWidth) -> u64
    ensures { result ≡ stopped (measure columns.now (width_of width.now)) }
{
    let largest = width.atoms.saturating_add(width.cond);
    let sum = largest.saturating_add(sum_of_sizes(columns, &width.sizes));
    width.pieces.saturating_mul(sum)
}

// The measure of the table, and 0 where it has no width.
fn measure_of(table: &Table, widths: &TableWidths) -> u64
    ensures measure { (shown : Widths) → Show (all_widths widths.now) shown
        → result ≡ stopped (measure_of table.now.1 (get shown table.now.0)) }
    ensures within { result ≤ u64.MAX }
{
    match widths.get(table.name()) {
        None => 0,
        Some(width) => measure(table.columns(), width),
    }
}

/// The greatest measure of the tables.
pub(crate) fn greatest(schema: &Schema, widths: &TableWidths) -> u64
    ensures { (shown : Widths) → Show (all_widths widths.now) shown
        → result ≡ stopped (greatest (entries schema.now) shown) }
{
    let mut most: u64 = 0;
    let mut place = 0;
    while place < schema.len() {
        most = most.max(measure_of(schema.at(place), widths));
        place += 1;
    }
    most
}
