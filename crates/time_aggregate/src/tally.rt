//! What is kept of the rows of a group that hold.

ghost use Rattle.std.specs.Prelude.{◌≡◌, ◌^◌, ◌+ℤ◌, pos, OnOk};
ghost use Rattle.prima_base.specs.declared.value.Value.{Value as OneValue};
ghost use Rattle.time_aggregate.specs.Turns.{signed};
ghost use Rattle.time_aggregate.specs.Tallies.{is_value, counted};
ghost use Rattle.time_aggregate.specs.Tallies.{NoneIsZero, IsWithin};

use crate::cell::{number_at, value_at};
use prima_base::{NoMemory, Val};
use std::alloc::Global;
use std::cmp::Ordering;
use std::collections::BTreeMap;
use std::marker::Model;
use temporal_lang_types::AggItem;

/// A value by which is counted. A contract sees the value that it shows.
#[derive(Drop)]
pub(crate) struct Key<'a> {
    value: Val<'a>,
}

impl<'a> Model for Key<'a> {
    ghost use Rattle.prima_base.specs.declared.value.Value.{Value as OneValue};
    ghost use Rattle.prima_base.specs.Order.{shown};

    ghost Value = { OneValue };

    ghost view = { λ k. shown k.value };
}

impl<'a> Key<'a> {
    ghost use Rattle.std.specs.Prelude.{◌≡◌, IfOk};
    ghost use Rattle.prima_base.specs.Order.{shown};

    /// The value. A borrowed text stays borrowed.
    pub(crate) fn copied(&self) -> Result<Val<'a>, NoMemory>
        ensures { IfOk result (λ v. shown v ≡ self.now) }
    {
        self.value.copy()
    }
}

impl PartialEq for Key<'_> {
    ghost use Rattle.prima_base.specs.Order.{value_eq};
    ghost use Rattle.time_aggregate.specs.KeyLaws.{value_eq_per};

    ghost eq = { value_eq };

    ghost laws = { value_eq_per };

    fn eq(&self, other: &Key<'_>) -> bool {
        self.value.compare(&other.value) == Ordering::Equal
    }
}

impl Eq for Key<'_> {
    ghost use Rattle.time_aggregate.specs.KeyLaws.{value_eq_equiv};

    ghost laws = { value_eq_equiv };
}

impl PartialOrd for Key<'_> {
    ghost use Rattle.std.specs.Prelude.{Some};
    ghost use Rattle.prima_base.specs.Order.{value_cmp};
    ghost use Rattle.time_aggregate.specs.KeyLaws.{value_po};

    ghost partial_cmp = { λ x y. Some (value_cmp x y) };

    ghost laws = { value_po };

    fn partial_cmp(&self, other: &Key<'_>) -> Option<Ordering> {
        Some(self.cmp(other))
    }
}

impl Ord for Key<'_> {
    ghost use Rattle.std.specs.Prelude.{refl};
    ghost use Rattle.prima_base.specs.Order.{value_cmp};
    ghost use Rattle.prima_base.specs.OrderLaws.{value_total};

    ghost cmp = { value_cmp };

    ghost total = { value_total };

    ghost matches_partial_cmp = { λ x y. refl };

    ghost matches_eq = { λ x y. refl };

    fn cmp(&self, other: &Key<'_>) -> Ordering {
        self.value.compare(&other.value)
    }
}

/// What is kept for one aggregate of the rows that hold: what they add up to, or how many have
/// each value.
#[derive(Drop)]
pub(crate) struct Tally<'a> {
    pub(crate) item: AggItem,
    pub(crate) sum: i128,
    pub(crate) counts: BTreeMap<Key<'a>, i128>,
}

// How often the value is counted.
fn count_of<'a>(counts: &BTreeMap<Key<'a>, i128>, key: &Key<'a>) -> i128
    ensures { result ≡ counted counts.now key.now }
{
    match counts.get(key) {
        None => 0,
        Some(count) => *count,
    }
}

/// The count once more, or once less.
pub(crate) fn turned(count: i128, opens: bool) -> i128
    requires { IsWithin (2 ^ 63) count }
    ensures { result ≡ count +ℤ signed opens (pos 1) }
{
    if opens { count + 1 } else { count - 1 }
}

// Counts the value once more, or once less.
fn count_value<'a>(
    counts: &mut BTreeMap<Key<'a>, i128>,
    key: Key<'a>,
    opens: bool,
) -> Result<(), NoMemory>
    requires { (v : OneValue) → IsWithin (2 ^ 63) (counted counts.old v) }
    ensures counts { OnOk result ((v : OneValue) → counted counts.new v
        ≡ counted counts.old v +ℤ signed opens (is_value v key.entry)) }
    ensures zero { OnOk result (NoneIsZero counts.old → NoneIsZero counts.new) }
{
    let count = turned(count_of(counts, &key), opens);
    if count == 0 {
        counts.remove(&key);
    } else {
        counts.insert(key, count)?;
    }
    Ok(())
}

impl<'a> Tally<'a> {
    ghost use Rattle.std.specs.Prelude.{◌≡◌, ◌+◌, ◌^◌, ◌+ℤ◌, pos, ℕ, map, OnOk};
    ghost use Rattle.prima_base.specs.declared.value.Value.{Value as OneValue};
    ghost use Rattle.prima_base.specs.Order.{shown};
    ghost use Rattle.time_aggregate.specs.Turns.{signed};
    ghost use Rattle.time_aggregate.specs.Tallies.{weight, has_value, counted, HasRoom, Turned};
    ghost use Rattle.time_aggregate.specs.Tallies.{NoneIsZero, IsWithin};

    /// No row holds yet.
    pub(crate) fn new(alloc: Global, item: AggItem) -> Tally<'a>
        ensures item { result.item ≡ item }
        ensures sum { result.sum ≡ pos 0 }
        ensures counts { (v : OneValue) → counted result.counts v ≡ pos 0 }
        ensures zero { NoneIsZero result.counts }
    {
        Tally {
            item,
            sum: 0,
            counts: BTreeMap::new(alloc),
        }
    }

    /// A row of these values begins to hold, or ends.
    pub(crate) fn turn(&mut self, values: &[Val<'a>], opens: bool) -> Result<(), NoMemory>
        requires { HasRoom self.old }
        ensures { OnOk result (Turned (map shown values.now) opens self.old self.new) }
    {
        self.take_turn(values, opens)?;
        Ok(())
    }

    // Adds what the row adds to the sum, and counts its value.
    fn take_turn(&mut self, values: &[Val<'a>], opens: bool) -> Result<(), NoMemory>
        requires sum { IsWithin (2 ^ 63) self.old.sum }
        requires counts { (v : OneValue) → IsWithin (2 ^ 63) (counted self.old.counts v) }
        ensures item { OnOk result (self.new.item ≡ self.old.item) }
        ensures sum { OnOk result (self.new.sum
            ≡ self.old.sum +ℤ signed opens (weight self.old.item (map shown values.now))) }
        ensures within { OnOk result ((k : ℕ) → IsWithin k self.old.sum
            → IsWithin (k + 1) self.new.sum) }
        ensures counts { OnOk result ((v : OneValue) → counted self.new.counts v
            ≡ counted self.old.counts v
            +ℤ signed opens (has_value self.old.item v (map shown values.now))) }
        ensures zero { OnOk result (NoneIsZero self.old.counts → NoneIsZero self.new.counts) }
    {
        match self.item {
            AggItem::Count => self.add(1, opens),
            AggItem::Sum(place) => self.add(number_at(values, place), opens),
            AggItem::Min(place) | AggItem::Max(place) => {
                let value = value_at(values, place)?;
                count_value(&mut self.counts, Key { value }, opens)?;
            }
        }
        Ok(())
    }

    // Adds the number to the sum, or takes it away.
    fn add(&mut self, number: i64, opens: bool)
        requires { IsWithin (2 ^ 63) self.old.sum }
        ensures item { self.new.item ≡ self.old.item }
        ensures counts { self.new.counts ≡ self.old.counts }
        ensures sum { self.new.sum ≡ self.old.sum +ℤ signed opens number }
        ensures within { (k : ℕ) → IsWithin k self.old.sum → IsWithin (k + 1) self.new.sum }
    {
        let number = i128::from(number);
        if opens {
            self.sum += number;
        } else {
            self.sum -= number;
        }
    }
}
