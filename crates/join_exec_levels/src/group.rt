//! Rows in groups by their keys, and those of a group that a period may meet.

ghost use Rattle.std.specs.Prelude.{◌≡◌, ◌-◌, ◌<◌, ◌≤◌, true, [], ◌∷◌, ◌++◌, length, get_or, IfOk};
ghost use Rattle.std.specs.Prelude.{OnOk, if◌then◌else◌, List};
ghost use Rattle.std.specs.List.{filter};
ghost use Rattle.std.specs.List.Sorted.{IsPermutation, IsSorted};
ghost use Rattle.std.specs.Ordering.{is_eq};
ghost use Rattle.std.specs.BTreeMap as tree;
ghost use Rattle.prima_base.specs.declared.value.Value.{Value as OneValue};
ghost use Rattle.prima_base.specs.declared.timed_row.TimedRow.{TimedRow as OneRow};
ghost use Rattle.prima_base.specs.Order.{row_cmp};
ghost use Rattle.prima_base.specs.Timed.{entry_of};
ghost use Rattle.join_exec_spec.specs.Keeping.{values_at, in_group};
ghost use Rattle.join_exec_levels.specs.Grouping.{rows_of_runs, magnitude, turn_cmp, is_of_run};

use crate::key::{Key, values_at};
use prima_base::{NoMemory, Period, TimedRow};
use std::alloc::Global;
use std::collections::BTreeMap;
use std::marker::Model;

/// Rows of one key one after the other, of periods of one magnitude. A contract sees the rows, in
/// the order in which they came.
#[derive(Drop)]
pub(crate) struct Run<'a> {
    rows: Vec<TimedRow<'a>>,
    // of each row the latest end of it and of those before it
    ends: Vec<u64>,
    // whether no row starts earlier than one before it
    in_turn: bool,
}

impl<'a> Model for Run<'a> {
    ghost use Rattle.std.specs.Prelude.{List};
    ghost use Rattle.prima_base.specs.declared.timed_row.TimedRow.{TimedRow as OneRow};
    ghost use Rattle.join_exec_levels.specs.Grouping.{IsRun};

    ghost Value = { List OneRow };

    ghost view = { λ g. g.rows.items };

    ghost invariant = { IsRun };
}

/// Rows of one key, in runs. A contract sees the rows, in the order in which they came.
#[derive(Drop)]
pub(crate) struct Group<'a> {
    runs: Vec<Run<'a>>,
}

impl<'a> Model for Group<'a> {
    ghost use Rattle.std.specs.Prelude.{List};
    ghost use Rattle.prima_base.specs.declared.timed_row.TimedRow.{TimedRow as OneRow};
    ghost use Rattle.join_exec_levels.specs.Grouping.{rows_of_runs};

    ghost Value = { List OneRow };

    ghost view = { λ g. rows_of_runs g.runs.items };
}

// How long the period is: no period of a magnitude is twice as long as another one of it, but for
// those that still go on.
fn magnitude(period: Period) -> u32
    ensures { result ≡ magnitude period }
{
    (period.end() - period.start()).leading_zeros()
}

/// The rows by the magnitudes of their periods, and those of one magnitude in the order of their
/// starts: so few runs keep them, and each of these is gone over only as far as a period reaches.
pub fn in_turn(mut rows: Vec<TimedRow<'_>>) -> Vec<TimedRow<'_>>
    ensures same { IsPermutation rows.entry.items result.items }
    ensures order { IsSorted turn_cmp result.items }
{
    rows.sort_unstable_by_key(|row| (magnitude(row.period), row.period.start()));
    rows
}

// How many rows have ended at the moment, and all before them, by their latest ends.
fn count_ended(ends: &[u64], moment: u64) -> usize
    ensures within { result ≤ length ends.now }
    ensures ended { 0 < result → get_or ends.now (result - 1) 0 ≤ moment }
{
    let mut low = 0;
    let mut high = ends.len();
    'half: while low < high {
        let middle = low + (high - low) / 2;
        if ends[middle] <= moment {
            low = middle + 1;
        } else {
            high = middle;
        }
    }
    low
}

// How many rows come before the first that starts at the moment or later.
fn count_earlier(rows: &[TimedRow<'_>], moment: u64) -> usize
    ensures within { result ≤ length rows.now }
    ensures later { (d : OneRow) → result < length rows.now
        → moment ≤ (get_or rows.now result d).period.start }
{
    for (i, row) in rows.iter().enumerate() {
        if row.period.start() >= moment {
            return i;
        }
    }
    rows.len()
}

// The last of the ends.
fn last_end(ends: &[u64]) -> u64
    ensures { 0 < length ends.now → result ≡ get_or ends.now (length ends.now - 1) 0 }
{
    match ends.last() {
        None => 0,
        Some(end) => *end,
    }
}

// Whether the last of the rows starts at the moment or before it.
fn is_next(rows: &[TimedRow<'_>], moment: u64) -> bool
    ensures { (d : OneRow) → result ≡ true → 0 < length rows.now
        → (get_or rows.now (length rows.now - 1) d).period.start ≤ moment }
{
    match rows.last() {
        None => true,
        Some(row) => row.period.start() <= moment,
    }
}

// Whether the period is of the magnitude of the rows, which all are of one: the first tells it.
fn is_of_run(rows: &[TimedRow<'_>], period: Period) -> bool
    ensures { result ≡ is_of_run period rows.now }
{
    match rows {
        [] => true,
        [first, ..] => magnitude(first.period) == magnitude(period),
    }
}

impl<'a> Run<'a> {
    ghost use Rattle.std.specs.Prelude.{◌≡◌, [], ◌∷◌, ◌++◌, OnOk};
    ghost use Rattle.join_exec_levels.specs.Grouping.{IsNear, is_of_run};

    fn new(alloc: Global) -> Run<'a>
        ensures { result ≡ [] }
    {
        Run {
            rows: Vec::new(alloc),
            ends: Vec::new(alloc),
            in_turn: true,
        }
    }

    // Whether the period is of the run's magnitude.
    fn takes(&self, period: Period) -> bool
        ensures { result ≡ is_of_run period self.now }
    {
        is_of_run(&self.rows, period)
    }

    // Puts the row after the others.
    fn push(&mut self, row: TimedRow<'a>) -> Result<(), NoMemory>
        ensures { OnOk result (self.new ≡ self.old ++ row.entry ∷ []) }
    {
        self.rows.reserve(1)?;
        self.ends.reserve(1)?;
        let period = row.period;
        let end = last_end(&self.ends).max(period.end());
        self.in_turn = self.in_turn && is_next(&self.rows, period.start());
        self.ends.push_reserved(end);
        self.rows.push_reserved(row);
        Ok(())
    }

    /// The rows that have a moment of the period, in a piece of the run: those before it have ended
    /// when the period starts, and those after it start when it has ended.
    pub(crate) fn near(&self, period: Period) -> &[TimedRow<'a>]
        ensures { IsNear period self.now result.now }
    {
        let ended = count_ended(&self.ends, period.start());
        let live = &self.rows[ended..];
        if !self.in_turn {
            return live;
        }
        let earlier = count_earlier(live, period.end());
        &live[..earlier]
    }
}

// A run of one row.
fn run_of<'a>(alloc: Global, row: TimedRow<'a>) -> Result<Run<'a>, NoMemory>
    ensures { IfOk result (λ run. run ≡ row.entry ∷ []) }
{
    let mut run = Run::new(alloc);
    run.push(row)?;
    Ok(run)
}

// Puts the row after those of the last run, or into a run of its own after it.
fn put_in_run<'a>(alloc: Global, runs: &mut Vec<Run<'a>>, row: TimedRow<'a>) -> Result<(), NoMemory>
    ensures { OnOk result (rows_of_runs runs.new.items ≡ rows_of_runs runs.old.items ++ row.entry
        ∷ []) }
{
    let count = runs.len();
    if count > 0 && runs[count - 1].takes(row.period) {
        return runs[count - 1].push(row);
    }
    runs.push(run_of(alloc, row)?)?;
    Ok(())
}

impl<'a> Group<'a> {
    ghost use Rattle.std.specs.Prelude.{◌≡◌, [], ◌∷◌, ◌++◌, OnOk};
    ghost use Rattle.join_exec_levels.specs.Grouping.{rows_of_runs};

    fn new(alloc: Global) -> Group<'a>
        ensures { result ≡ [] }
    {
        Group {
            runs: Vec::new(alloc),
        }
    }

    // Puts the row after the others.
    fn push(&mut self, alloc: Global, row: TimedRow<'a>) -> Result<(), NoMemory>
        ensures { OnOk result (self.new ≡ self.old ++ row.entry ∷ []) }
    {
        put_in_run(alloc, &mut self.runs, row)
    }

    /// The runs, in their order.
    pub(crate) fn runs(&self) -> &[Run<'a>]
        ensures { rows_of_runs result.now ≡ self.now }
    {
        &self.runs
    }
}

// Puts the row after the others of its key.
fn put_row<'a>(
    alloc: Global,
    groups: &mut BTreeMap<Key<'a>, Group<'a>>,
    key: Key<'a>,
    row: TimedRow<'a>,
) -> Result<(), NoMemory>
    ensures { (other : List OneValue) → OnOk result (in_group (tree.get row_cmp groups.new other)
        ≡ in_group (tree.get row_cmp groups.old other)
        ++ (if is_eq (row_cmp key.entry other) then row.entry ∷ [] else [])) }
{
    match groups.remove(&key) {
        Some(mut group) => {
            group.push(alloc, row)?;
            groups.insert(key, group)?;
            Ok(())
        }
        None => {
            let mut group = Group::new(alloc);
            group.push(alloc, row)?;
            groups.insert(key, group)?;
            Ok(())
        }
    }
}

/// The rows in groups by what they have at the places.
pub(crate) fn grouped<'a>(
    alloc: Global,
    places: &[usize],
    rows: Vec<TimedRow<'a>>,
) -> Result<BTreeMap<Key<'a>, Group<'a>>, NoMemory>
    ensures { IfOk result (λ m. (key : List OneValue) → in_group (tree.get row_cmp m key)
        ≡ filter (λ (t : OneRow). is_eq (row_cmp (values_at places.now (entry_of t).item) key))
        rows.entry.items) }
{
    let mut groups = BTreeMap::new(alloc);
    for row in rows {
        let values = values_at(alloc, places, &row.values)?;
        let key = Key::of(values);
        put_row(alloc, &mut groups, key, row)?;
    }
    Ok(groups)
}
