ghost use Rattle.std.specs.Prelude.{◌≡◌, ◌≤◌, length, slice_range, IfOk};
ghost use Rattle.std.specs.List.Sorted.{IsPermutation, IsSorted};
ghost use Rattle.time_aggregate.specs.Turns.{turn_cmp, turns_from};

use prima_base::NoMemory;
use prima_base_rows::TimedRows;
use std::alloc::Global;

/// A row begins to hold, or ends, at a moment.
#[derive(Clone, Copy)]
pub(crate) struct Turn {
    pub(crate) moment: u64,
    pub(crate) opens: bool,
    pub(crate) place: usize,
}

// The turns of the rows from the one place up to, and not at, the other.
fn unsorted_turns(
    alloc: Global,
    rows: &TimedRows<'_>,
    start: usize,
    end: usize,
) -> Result<Vec<Turn>, NoMemory>
    requires order { start ≤ end }
    requires within { end ≤ length rows.now.items }
    ensures { IfOk result (λ v. v.items
        ≡ turns_from start (slice_range rows.now.items start end)) }
{
    let mut turns = Vec::new(alloc);
    for place in start..end {
        let period = rows.period(place);
        turns.push(Turn {
            moment: period.start(),
            opens: true,
            place,
        })?;
        turns.push(Turn {
            moment: period.end(),
            opens: false,
            place,
        })?;
    }
    Ok(turns)
}

// The turns in the order of their moments.
fn in_turn(mut turns: Vec<Turn>) -> Vec<Turn>
    ensures same { IsPermutation turns.items result.items }
    ensures order { IsSorted turn_cmp result.items }
{
    turns.sort_unstable_by_key(|turn| turn.moment);
    turns
}

/// The turns of the rows from the one place up to, and not at, the other, in the order of their
/// moments.
pub(crate) fn turns_of(
    alloc: Global,
    rows: &TimedRows<'_>,
    start: usize,
    end: usize,
) -> Result<Vec<Turn>, NoMemory>
    requires order { start ≤ end }
    requires within { end ≤ length rows.now.items }
    ensures same { IfOk result (λ v. IsPermutation
        (turns_from start (slice_range rows.now.items start end)) v.items) }
    ensures order { IfOk result (λ v. IsSorted turn_cmp v.items) }
{
    let turns = unsorted_turns(alloc, rows, start, end)?;
    Ok(in_turn(turns))
}
