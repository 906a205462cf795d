use crate::column::StoredWrite;
use crate::stored_value::StoredValues;
use prima_base::{Period, Steps, Val};
use std::marker::Model;
use std::sync::ledger::Ledger;

/// A value of a row: the row with this id has it in this period. The value is borrowed by the
/// table.
#[derive(Drop)]
pub struct CellEntry<'a> {
    pub id: u64,
    pub value: Val<'a>,
    pub period: Period,
}

/// The entries of a column that are left, by id and start.
#[derive(Drop)]
pub struct CellScan<'a> {
    keys: &'a [Period],
    writes: &'a [StoredWrite],
    values: &'a StoredValues,
    first: &'a [u32],
    id: usize,
    at: usize,
}

impl<'a> Model for CellScan<'a> {
    ghost use Rattle.std.specs.Prelude.{List};
    ghost use Rattle.history_store_spec.specs.Store.{Cell};

    ghost Value = { List Cell };

    ghost use Rattle.history_store_columns.specs.ScanFields.{cells_left, IsCellScan};

    ghost view = { cells_left };

    ghost invariant = { IsCellScan };
}

// The period from the start up to the end.
fn period_of(start: u64, end: u64) -> Period
    requires { start < end }
    ensures { result ≡ record { start = start; end = end } }
{
    Period::between(start, end)
}

ghost use Rattle.std.specs.Prelude.{◌≡◌, ◌<◌, length, slice_index_or, [], ◌∷◌, IfSome, option_map};
ghost use Rattle.std.specs.Prelude.{Option, MatchBool, ◌≢◌};

// The place that stands for this id, and 0 where there is none.
fn first_of(first: &[u32], id: usize) -> usize
    ensures { result ≡ slice_index_or first.now id 0 }
{
    match first.get(id) {
        Some(at) => *at as usize,
        None => 0,
    }
}

impl<'a> CellScan<'a> {
    ghost use Rattle.std.specs.Prelude.{◌≡◌, ◌+◌, ◌++◌, [], ◌∷◌, length, IfNone, IfSome};
    ghost use Rattle.std.specs.Prelude.{option_to_list, option_map};
    ghost use Rattle.prima_base.specs.Order.{shown, IsBorrowed};
    ghost use Rattle.prima_base.specs.Columns.{IsValid};
    ghost use Rattle.history_store_columns.specs.Chains.{IsChain};
    ghost use Rattle.history_store_columns.specs.Entries.{entries_from, IsHistory};
    ghost use Rattle.history_store_columns.specs.StoredValues.{values_in};
    ghost use Rattle.history_store_columns.specs.StoredWrites.{writes_in, nexts_of};
    ghost use Rattle.history_store_columns.specs.Scans.{seen_cell};

    /// A scan of these writes, whose values stand at the same places and which are those of the
    /// keys, from the first id on.
    pub(crate) fn over(
        keys: &'a [Period],
        writes: &'a [StoredWrite],
        values: &'a StoredValues,
        first: &'a [u32],
    ) -> CellScan<'a>
        requires ids { length first.now ≡ length keys.now }
        requires each { length (values_in values.now) ≡ length writes.now }
        requires history { IsHistory keys.now (writes_in (values_in values.now) writes.now) }
        requires chain { IsChain first.now (nexts_of writes.now)
            (writes_in (values_in values.now) writes.now) }
        ensures { result ≡ entries_from 0 keys.now (writes_in (values_in values.now) writes.now) }
    {
        CellScan {
            keys,
            writes,
            values,
            first,
            id: 0,
            at: first_of(first, 0),
        }
    }

    /// The next entry; a text of it has at most 4,096 bytes and no control byte. Each one that is
    /// handed out is one step. It takes no memory.
    pub fn next_cell<L: Ledger>(&mut self, steps: &mut Steps<L>) -> Option<CellEntry<'a>>
        ensures entries { self.old ≡ option_to_list (option_map seen_cell result) ++ self.new }
        ensures valid { IfSome result (λ e. IsValid (shown e.value)) }
        ensures borrowed { IfSome result (λ e. IsBorrowed e.value) }
        ensures all { IfNone result (self.old ≡ []) }
        ensures cost { steps.new ≡ steps.old + length (option_to_list result) }
    {
        if self.id == self.keys.len() {
            return None;
        }
        steps.tick();
        let write = &self.writes[self.at];
        let id = write.id as u64;
        let value = self.values.lend(self.at);
        let next = write.next as usize;
        if next != 0 {
            self.at = next;
            let period = period_of(write.start, self.writes[next].start);
            return Some(CellEntry { id, value, period });
        }
        let period = period_of(write.start, self.keys[self.id].end());
        self.id += 1;
        self.at = first_of(self.first, self.id);
        Some(CellEntry { id, value, period })
    }
}
