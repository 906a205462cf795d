//! The one list of what rows hold, and what groups of it have.

ghost use Rattle.std.specs.Prelude.{◌≤◌};
ghost use Rattle.relations_spec.specs.Spans.{forever};

use coalesce::coalesce_in_place;
use prima_base::{AggRow, NoMemory, Period};
use prima_base_rows::TimedRows;
use std::alloc::Global;
use temporal_lang_types::AggItem;
use time_aggregate::aggregate;

// A period ends by the end of time: its end is a number of the code.
fn ends_in_time(slice: Period)
    ensures { slice.end ≤ forever }
{
    let _end = slice.end();
}

/// What the aggregates have of the groups of what the rows hold in the slice.
pub(crate) fn aggregate_listing<'a>(
    alloc: Global,
    rows: &mut TimedRows<'a>,
    slice: Period,
    group: u32,
    items: &[AggItem],
) -> Result<Vec<AggRow<'a>>, NoMemory> {
    ends_in_time(slice);
    coalesce_in_place(rows, slice);
    aggregate(alloc, rows, group, items)
}
