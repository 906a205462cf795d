use crate::scan::CellScan;
use crate::stored_value::StoredValues;
use prima_base::{ColType, NoMemory, Period, Val};
use std::alloc::Global;
use std::cmp::Ordering;
use std::marker::Model;

/// The most ids, and the most writes, that a column has: each is named by a number of 32 bits.
const MOST_WRITES: usize = u32::MAX as usize;

/// A write of a column without its value: the row with this id has the value from the start on.
/// `next` is the place of the next write of the same id, or 0.
#[derive(Drop)]
pub(crate) struct StoredWrite {
    pub(crate) id: u32,
    pub(crate) next: u32,
    pub(crate) start: u64,
}

/// The writes of a column, in the order in which they were made, and their values at the same
/// places. Of a write only `next` ever changes. For each id `first` and `last` have the places of
/// its first and its last one.
pub struct Column {
    writes: Vec<StoredWrite>,
    values: StoredValues,
    first: Vec<u32>,
    last: Vec<u32>,
}

// Written out, not derived: each crate above would prove a derived one again.
impl Drop for Column {
    fn drop(self) {
        let Column {
            writes: _writes,
            values: _values,
            first: _first,
            last: _last,
        } = self;
    }
}

ghost use Rattle.std.specs.Prelude.{◌≡◌, nat_le};
ghost use Rattle.std.specs.List.{list_all};
ghost use Rattle.history_store_columns.specs.declared.column.StoredWrite.{StoredWrite as OneWrite};

// Whether none of the writes is from later than the moment.
fn start_by(writes: &[StoredWrite], moment: u64) -> bool
    ensures { result ≡ list_all (λ (w : OneWrite). nat_le w.start moment) writes.now }
{
    writes.iter().all(|write| write.start <= moment)
}

impl Model for Column {
    ghost use Rattle.history_store_columns.specs.Log.{Log};

    ghost Value = { Log };

    ghost use Rattle.history_store_columns.specs.ColumnFields.{column_log, IsColumn};

    ghost view = { column_log };

    ghost invariant = { IsColumn };
}

impl Column {
    ghost use Rattle.std.specs.Prelude.{◌≡◌, ◌+◌, ◌<◌, ◌≤◌, true, [], ◌∷◌, ◌++◌, OnOk, length};
    ghost use Rattle.std.specs.Prelude.{min};
    ghost use Rattle.prima_base.specs.Order.{bytes_of, shown, IsBorrowed};
    ghost use Rattle.prima_base.specs.Columns.{has_type, IsValid};
    ghost use Rattle.history_store_columns.specs.Log.{newest};
    ghost use Rattle.history_store_columns.specs.StoredValues.{text_room};
    ghost use Rattle.history_store_columns.specs.Entries.{entries_from, IsHistory, AllCells};

    /// A column of this type without rows.
    pub fn new(alloc: Global, kind: ColType) -> Column
        ensures kind { result.kind ≡ kind }
        ensures ids { result.ids ≡ 0 }
        ensures cells { result.cells ≡ [] }
    {
        Column {
            writes: Vec::new(alloc),
            values: StoredValues::new(alloc, kind),
            first: Vec::new(alloc),
            last: Vec::new(alloc),
        }
    }

    /// Room for this many writes more, with as many units of text.
    pub fn reserve(&mut self, more: usize) -> Result<(), NoMemory>
        ensures kind { self.new.kind ≡ self.old.kind }
        ensures ids { self.new.ids ≡ self.old.ids }
        ensures cells { self.new.cells ≡ self.old.cells }
        ensures spare { self.old.spare ≤ self.new.spare }
        ensures room { OnOk result (more ≤ self.new.spare) }
    {
        // A column has fewer than 2^32 cells: more are refused as out of memory.
        if more > MOST_WRITES.saturating_sub(self.writes.len()) {
            return Err(NoMemory);
        }
        self.writes.reserve(more)?;
        self.first.reserve(more)?;
        self.last.reserve(more)?;
        self.values.reserve(more as u32)
    }

    /// Room for so many writes more, of so many ids that are new, and for this many bytes of their
    /// texts.
    pub fn reserve_writes(
        &mut self,
        writes: usize,
        ids: usize,
        bytes: usize,
    ) -> Result<(), NoMemory>
        ensures kind { self.new.kind ≡ self.old.kind }
        ensures ids { self.new.ids ≡ self.old.ids }
        ensures cells { self.new.cells ≡ self.old.cells }
        ensures spare { self.old.spare ≤ self.new.spare }
        ensures room { OnOk result (min writes ids ≤ self.new.places) }
    {
        // A column has fewer than 2^32 cells: more are refused as out of memory.
        if writes > MOST_WRITES.saturating_sub(self.writes.len()) {
            return Err(NoMemory);
        }
        self.writes.reserve(writes)?;
        self.first.reserve(ids)?;
        self.last.reserve(ids)?;
        self.values.reserve_texts(writes, bytes)
    }

    // Room for one write of this value: one place, and the bytes of its text.
    fn reserve_write(&mut self, value: &Val<'_>) -> Result<(), NoMemory>
        requires typed { has_type self.old.kind (shown value.now) ≡ true }
        ensures kind { self.new.kind ≡ self.old.kind }
        ensures ids { self.new.ids ≡ self.old.ids }
        ensures cells { self.new.cells ≡ self.old.cells }
        ensures place { OnOk result (1 ≤ self.new.places) }
        ensures room { OnOk result (length (bytes_of (shown value.now)) ≤ self.new.bytes) }
    {
        // A column has fewer than 2^32 cells: more are refused as out of memory.
        if self.writes.len() >= MOST_WRITES {
            return Err(NoMemory);
        }
        self.writes.reserve(1)?;
        self.first.reserve(1)?;
        self.last.reserve(1)?;
        self.values.reserve_value(value)
    }

    // Where there is room for the value in units, there are a place for it and room for its text.
    // So nothing is done here.
    fn has_room(&self, value: &Val<'_>)
        requires typed { has_type self.now.kind (shown value.now) ≡ true }
        requires room { text_room (shown value.now) < self.now.spare }
        ensures place { 1 ≤ self.now.places }
        ensures room { length (bytes_of (shown value.now)) ≤ self.now.bytes }
    {
        let _writes = self.writes.len();
    }

    // The next id, with its first value. It takes no memory.
    fn grow(&mut self, value: &Val<'_>, start: u64)
        requires valid { IsValid (shown value.now) }
        requires typed { has_type self.old.kind (shown value.now) ≡ true }
        requires place { 1 ≤ self.old.places }
        requires room { length (bytes_of (shown value.now)) ≤ self.old.bytes }
        ensures kind { self.new.kind ≡ self.old.kind }
        ensures ids { self.new.ids ≡ self.old.ids + 1 }
        ensures cells { self.new.cells ≡ self.old.cells
            ++ record { id = self.old.ids; value = shown value.now; start = start } ∷ [] }
        ensures spare { self.old.spare ≤ self.new.spare + text_room (shown value.now) + 1 }
        ensures fresh { newest self.old.ids self.old.cells ≡ [] }
    {
        let id = self.last.len() as u32;
        let at = self.writes.len() as u32;
        self.last.push_reserved(at);
        self.first.push_reserved(at);
        self.values.push(value);
        self.writes
            .push_reserved(StoredWrite { id, next: 0, start });
    }

    // A new value of the row with this id. It takes no memory.
    fn change(&mut self, id: usize, value: &Val<'_>, start: u64)
        requires known { id < self.old.ids }
        requires valid { IsValid (shown value.now) }
        requires typed { has_type self.old.kind (shown value.now) ≡ true }
        requires place { 1 ≤ self.old.places }
        requires room { length (bytes_of (shown value.now)) ≤ self.old.bytes }
        ensures kind { self.new.kind ≡ self.old.kind }
        ensures ids { self.new.ids ≡ self.old.ids }
        ensures cells { self.new.cells ≡ self.old.cells
            ++ record { id = id; value = shown value.now; start = start } ∷ [] }
        ensures spare { self.old.spare ≤ self.new.spare + text_room (shown value.now) + 1 }
    {
        let at = self.writes.len() as u32;
        let before = self.last[id] as usize;
        self.writes[before].next = at;
        self.last[id] = at;
        self.values.push(value);
        self.writes.push_reserved(StoredWrite {
            id: id as u32,
            next: 0,
            start,
        });
    }

    /// The newest value of the row with this id, borrowed.
    pub fn newest(&self, id: usize) -> Val<'_>
        requires { id < self.now.ids }
        ensures value { newest id self.now.cells ≡ shown result ∷ [] }
        ensures valid { IsValid (shown result) }
        ensures borrowed { IsBorrowed result }
    {
        self.values.lend(self.last[id] as usize)
    }

    /// How many ids the column has.
    pub fn ids(&self) -> usize
        ensures { result ≡ self.now.ids }
    {
        self.last.len()
    }

    /// How many writes the column has.
    pub fn count(&self) -> usize
        ensures { result ≡ length self.now.cells }
    {
        self.writes.len()
    }

    /// Whether no write is from later than the moment. It takes no memory.
    pub fn starts_by(&self, moment: u64) -> bool
        ensures { result ≡ true → AllCells moment self.now.cells }
    {
        start_by(&self.writes, moment)
    }

    /// A scan of the entries, by id and start. It takes no memory.
    pub fn scan<'a>(&'a self, keys: &'a [Period]) -> CellScan<'a>
        requires ids { self.now.ids ≡ length keys.now }
        requires history { IsHistory keys.now self.now.cells }
        ensures { result ≡ entries_from 0 keys.now self.now.cells }
    {
        CellScan::over(keys, &self.writes, &self.values, &self.first)
    }
}

impl Column {
    ghost use Rattle.std.specs.Prelude.{◌≡◌, ◌+◌, ◌<◌, ◌≤◌, true, ◌++◌, ◌∷◌, [], OnOk, max};
    ghost use Rattle.prima_base.specs.Order.{shown};
    ghost use Rattle.prima_base.specs.Columns.{has_type, IsValid};
    ghost use Rattle.history_store_columns.specs.Puts.{put};
    ghost use Rattle.history_store_columns.specs.StoredValues.{text_room};

    /// From the moment on, the row with this id has this value: a write is made even where it had
    /// it before.
    pub fn add(&mut self, id: usize, value: &Val<'_>, moment: u64) -> Result<(), NoMemory>
        requires known { id ≤ self.old.ids }
        requires valid { IsValid (shown value.now) }
        requires typed { has_type self.old.kind (shown value.now) ≡ true }
        ensures kind { self.new.kind ≡ self.old.kind }
        ensures ids { OnOk result (self.new.ids ≡ max self.old.ids (id + 1)) }
        ensures cells { OnOk result (self.new.cells ≡ self.old.cells
            ++ record { id = id; value = shown value.now; start = moment } ∷ []) }
    {
        self.reserve_write(value)?;
        if id == self.ids() {
            self.grow(value, moment);
        } else {
            self.change(id, value, moment);
        }
        Ok(())
    }

    /// From the moment on, the row with this id has this value. It takes no memory.
    pub fn put(&mut self, id: usize, value: &Val<'_>, start: u64)
        requires known { id ≤ self.old.ids }
        requires valid { IsValid (shown value.now) }
        requires typed { has_type self.old.kind (shown value.now) ≡ true }
        requires room { text_room (shown value.now) < self.old.spare }
        ensures kind { self.new.kind ≡ self.old.kind }
        ensures ids { self.new.ids ≡ max self.old.ids (id + 1) }
        ensures cells { self.new.cells ≡ put id (shown value.now) start self.old.cells }
        ensures spare { self.old.spare ≤ self.new.spare + text_room (shown value.now) + 1 }
    {
        self.has_room(value);
        if id == self.ids() {
            self.grow(value, start);
        } else if self.newest(id).compare(value) != Ordering::Equal {
            self.change(id, value, start);
        }
    }
}
