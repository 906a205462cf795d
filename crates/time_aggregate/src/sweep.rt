//! The turns of a group, gone over in the order of their moments.

ghost use Rattle.std.specs.Prelude.{◌≡◌, ◌<◌, ◌≤◌, ◌^◌, ◌++◌, ◌∷◌, [], ℕ, List, All, map, take};
ghost use Rattle.std.specs.Prelude.{length, slice_range, IfOk, OnOk};
ghost use Rattle.relations_spec.specs.Sets.{In};
ghost use Rattle.relations_spec.specs.Spans.{always};
ghost use Rattle.relations_spec.specs.Timed.{held_at};
ghost use Rattle.relations_spec.specs.Listing.{IsListing};
ghost use Rattle.prima_base.specs.declared.timed_row.TimedRow.{TimedRow as OneRow};
ghost use Rattle.prima_base.specs.Order.{shown};
ghost use Rattle.prima_base.specs.Timed.{entries_of};
ghost use Rattle.time_aggregate.specs.Aggregates.{Row, amount_of, amounts_of, group_cmp, groups};
ghost use Rattle.prima_base.specs.Groups.{amount, groups_shown};
ghost use Rattle.time_aggregate.specs.Parts.{AreOf};
ghost use Rattle.time_aggregate.specs.Turns.{rows_shown, row_at};
ghost use Rattle.time_aggregate.specs.Tallies.{IsTally, TellsOf, HasRoom, AreTurned};

use crate::cell::first_values;
use crate::listed::put_values;
use crate::tally::{Tally, turned};
use crate::turn::{Turn, turns_of};
use prima_base::{AggRow, AggValue, NoMemory, Period, Val};
use prima_base_rows::TimedRows;
use std::alloc::Global;
use temporal_lang_types::AggItem;

/// What is kept of the rows of a group that hold: how many they are, and a tally for each
/// aggregate.
#[derive(Drop)]
pub(crate) struct Held<'a> {
    count: i128,
    tallies: Vec<Tally<'a>>,
}

// What the aggregate has of the rows that hold, of which there are so many.
fn value_of<'a>(tally: &Tally<'a>, count: u64) -> Result<AggValue<'a>, NoMemory>
    ensures { (rows : List Row) → TellsOf rows tally.now → count ≡ length rows → 0 < length rows
        → IfOk result (λ v. amount v ≡ amount_of tally.now.item rows) }
{
    match tally.item {
        AggItem::Count => Ok(AggValue::Count(count)),
        AggItem::Sum(_) => Ok(AggValue::Sum(tally.sum)),
        AggItem::Min(_) => match tally.counts.first_key_value() {
            None => Ok(AggValue::Of(Val::Int(0))),
            Some((key, _)) => Ok(AggValue::Of(key.copied()?)),
        },
        AggItem::Max(_) => match tally.counts.last_key_value() {
            None => Ok(AggValue::Of(Val::Int(0))),
            Some((key, _)) => Ok(AggValue::Of(key.copied()?)),
        },
    }
}

// What all aggregates have of them.
fn values_of<'a>(
    alloc: Global,
    tallies: &[Tally<'a>],
    count: u64,
) -> Result<Vec<AggValue<'a>>, NoMemory>
    ensures { (rows : List Row) → All (TellsOf rows) tallies.now → count ≡ length rows
        → 0 < length rows → IfOk result (λ v. map amount v.items
        ≡ amounts_of (map (λ t. t.item) tallies.now) rows) }
{
    let mut values = Vec::with_capacity(alloc, tallies.len())?;
    for tally in tallies {
        values.push(value_of(tally, count)?)?;
    }
    Ok(values)
}

// A row of these values begins to hold, or ends, for each tally.
fn turn_all<'a>(tallies: &mut [Tally<'a>], values: &[Val<'a>], opens: bool) -> Result<(), NoMemory>
    requires { All HasRoom tallies.old }
    ensures { OnOk result (AreTurned (map shown values.now) opens tallies.old tallies.new) }
{
    for i in 0..tallies.len() {
        tallies[i].turn(values, opens)?;
    }
    Ok(())
}

// A tally for each aggregate.
fn new_tallies<'a>(alloc: Global, items: &[AggItem]) -> Result<Vec<Tally<'a>>, NoMemory>
    ensures items { IfOk result (λ v. map (λ t. t.item) v.items ≡ items.now) }
    ensures each { (rows : List Row) → IfOk result (λ v. All (IsTally rows []) v.items) }
{
    let mut tallies = Vec::with_capacity(alloc, items.len())?;
    for item in items {
        tallies.push(Tally::new(alloc, *item))?;
    }
    Ok(tallies)
}

impl<'a> Held<'a> {
    ghost use Rattle.std.specs.Prelude.{◌≡◌, ◌<◌, ◌≤◌, ◌^◌, ◌++◌, ◌∷◌, [], List, All, map, length};
    ghost use Rattle.std.specs.Prelude.{IfOk, OnOk};
    ghost use Rattle.prima_base.specs.Order.{shown};
    ghost use Rattle.temporal_lang_types.specs.declared.agg_item.AggItem.{AggItem as OneItem};
    ghost use Rattle.time_aggregate.specs.declared.turn.Turn.{Turn as OneTurn};
    ghost use Rattle.time_aggregate.specs.Aggregates.{Row};
    ghost use Rattle.prima_base.specs.Groups.{groups_shown};
    ghost use Rattle.time_aggregate.specs.Listed.{IsTold};
    ghost use Rattle.time_aggregate.specs.Turns.{rows_shown};
    ghost use Rattle.time_aggregate.specs.Tallies.{IsHeld, AllTellOf, HasRoom, IsWithin};

    /// No row holds yet.
    fn new(alloc: Global, items: &[AggItem]) -> Result<Held<'a>, NoMemory>
        ensures { (rows : List Row) → IfOk result (λ h. IsHeld items.now rows [] h) }
    {
        Ok(Held {
            count: 0,
            tallies: new_tallies(alloc, items)?,
        })
    }

    // A row begins to hold, or ends.
    fn turn(&mut self, rows: &TimedRows<'a>, turn: Turn) -> Result<(), NoMemory>
        requires within { turn.place < length rows.now.items }
        requires few { IsWithin (2 ^ 63) self.old.count }
        requires room { All HasRoom self.old.tallies.items }
        ensures { (items : List OneItem) → (done : List OneTurn)
            → IsHeld items (rows_shown rows.now.items) done self.old
            → OnOk result (IsHeld items (rows_shown rows.now.items) (done ++ turn ∷ []) self.new) }
    {
        self.count = turned(self.count, turn.opens);
        turn_all(&mut self.tallies, rows.values(turn.place), turn.opens)?;
        Ok(())
    }

    // Lists what the group has from the one moment up to, and not at, the other, where any of its
    // rows hold then.
    fn tell(
        &self,
        alloc: Global,
        listed: &mut Vec<AggRow<'a>>,
        group: &[Val<'a>],
        from: u64,
        to: u64,
    ) -> Result<(), NoMemory>
        ensures few { to < 2 ^ 64 }
        ensures same { to ≤ from → OnOk result (listed.new.items ≡ listed.old.items) }
        ensures told { from < to → (items : List OneItem) → (rows : List Row)
            → AllTellOf items rows self.now → length rows < 2 ^ 64
            → OnOk result (IsTold (groups_shown listed.old.items) (map shown group.now) items rows
            from to (groups_shown listed.new.items)) }
    {
        let Some(period) = Period::new(from, to) else {
            return Ok(());
        };
        match u64::try_from(self.count) {
            Err(_) | Ok(0) => Ok(()),
            Ok(count) => {
                let values = values_of(alloc, &self.tallies, count)?;
                put_values(alloc, listed, group, values, period)
            }
        }
    }
}

/// What the group of the rows from the one place up to, and not at, the other has over time. They
/// begin with the same `group` values.
pub(crate) fn told_of<'a>(
    alloc: Global,
    rows: &TimedRows<'a>,
    start: usize,
    end: usize,
    items: &[AggItem],
    group: usize,
) -> Result<Vec<AggRow<'a>>, NoMemory>
    requires order { start < end }
    requires within { end ≤ length rows.now.items }
    requires lasting { (row : OneRow) → In row (slice_range rows.now.items start end)
        → row.period.start < row.period.end }
    requires one { AreOf group (take group (row_at (rows_shown rows.now.items) start))
        (rows_shown (slice_range rows.now.items start end)) }
    ensures { IfOk result (λ v. IsListing group_cmp (λ m. groups group items.now
        (held_at (entries_of (slice_range rows.now.items start end)) m)) always
        (groups_shown v.items)) }
{
    let turns = turns_of(alloc, rows, start, end)?;
    let first = first_values(rows.values(start), group);
    let mut listed = Vec::new(alloc);
    let mut held = Held::new(alloc, items)?;
    let mut since = 0;
    for i in 0..turns.len() {
        let turn = turns[i];
        held.tell(alloc, &mut listed, first, since, turn.moment)?;
        held.turn(rows, turn)?;
        since = turn.moment;
    }
    Ok(listed)
}
