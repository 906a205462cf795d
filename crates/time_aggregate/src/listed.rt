//! The rows of a group that are listed so far.

ghost use Rattle.std.specs.Prelude.{◌≡◌, ◌↔◌, ◌^◌, ◌<◌, true, map, length, OnOk, IfOk};
ghost use Rattle.prima_base.specs.Order.{shown};
ghost use Rattle.prima_base.specs.Groups.{amount, groups_shown};
ghost use Rattle.time_aggregate.specs.Listed.{IsPut, EndsSo};

use crate::agg_value::are_same;
use prima_base::{AggRow, AggValue, NoMemory, Period, Val, copy_vals};
use std::alloc::Global;

// Whether the last of the rows has the same values up to the moment.
fn goes_on(listed: &[AggRow<'_>], values: &[AggValue<'_>], moment: u64) -> bool
    ensures { (result ≡ true) ↔ EndsSo (groups_shown listed.now) (map amount values.now) moment }
{
    match listed.last() {
        None => false,
        Some(row) => row.period.end() == moment && are_same(&row.values, values),
    }
}

/// Lists what a group has in the period: the last of its rows goes on, where it has the same up to
/// the period; else there is one more.
pub(crate) fn put_values<'a>(
    alloc: Global,
    listed: &mut Vec<AggRow<'a>>,
    group: &[Val<'a>],
    values: Vec<AggValue<'a>>,
    period: Period,
) -> Result<(), NoMemory>
    ensures { OnOk result (IsPut (groups_shown listed.old.items) (record {
      item =
          record { key = map shown group.now; amounts = map amount values.entry.items };
      period = period;
    }) (groups_shown listed.new.items)) }
{
    if goes_on(listed, &values, period.start()) {
        let last = listed.len() - 1;
        listed[last].period = listed[last].period.until(period.end());
        return Ok(());
    }
    listed.push(AggRow {
        group: copy_vals(alloc, group, 0)?,
        values,
        period,
    })?;
    Ok(())
}
