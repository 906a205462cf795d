//! The widths of a version's tables, by their names; none of a table that is lost.

ghost use Rattle.std.specs.Prelude.{◌≡◌, ℕ, List, Option, Some, None, cond, IfOk, OnOk};
ghost use Rattle.std.specs.Option.{option_map, option_copied};
ghost use Rattle.std.specs.FinMap.{get, remove};
ghost use Rattle.std.specs.BTreeMap.{is_at};
ghost use Rattle.prima_base.specs.Order.{bytes_cmp};
ghost use Rattle.smo_ops_spec.specs.Touching.{these_names};
ghost use Rattle.smo_ops_widths.specs.Widths.{Width, Widths, no_width, put_width};
ghost use Rattle.smo_ops_widths.specs.Widths.{own_widths};
ghost use Rattle.smo_ops_widths.specs.Counted.{MayBeAlike};
ghost use Rattle.smo_ops_widths.specs.Shown.{width_of, Show};
ghost use Rattle.smo_ops_widths.specs.AtHand.{all_widths, width_at};

use crate::width::{TableWidth, own};
use prima_base::{Name, NoMemory};
use schema_catalog::Schema;
use smo_ops_operators::Made;
use std::alloc::Global;
use std::collections::BTreeMap;

/// Widths of tables, by their names. That of the table that was put last is at hand, so that where
/// operators go on from one table, none is looked up among the others.
#[derive(Drop)]
pub(crate) struct TableWidths {
    at_hand: Option<(Name, TableWidth)>,
    others: BTreeMap<Name, TableWidth>,
}

// Takes the width of this name out of these.
fn take_other(others: &mut BTreeMap<Name, TableWidth>, name: &Name) -> Option<TableWidth>
    ensures found { result ≡ width_at name.now others.old.entries }
    ensures gone { (q : List ℕ) → width_at q others.new.entries
        ≡ cond (is_at (bytes_cmp name.now) q) None (width_at q others.old.entries) }
{
    if others.is_empty() {
        return None;
    }
    others.remove(name)
}

impl TableWidths {
    /// The width of the table, if it has one.
    pub(crate) fn get(&self, name: &Name) -> Option<&TableWidth>
        ensures { option_copied result ≡ width_at name.now (all_widths self.now) }
    {
        if let Some((named, width)) = &self.at_hand {
            if name == named {
                return Some(width);
            }
        }
        self.others.get(name)
    }

    /// The table's width, if it has one: then it has none.
    pub(crate) fn take(&mut self, name: &Name) -> Option<TableWidth>
        ensures found { result ≡ width_at name.now (all_widths self.old) }
        ensures gone { (q : List ℕ) → width_at q (all_widths self.new)
            ≡ cond (is_at (bytes_cmp name.now) q) None (width_at q (all_widths self.old)) }
    {
        let other = take_other(&mut self.others, name);
        match self.at_hand.take() {
            None => other,
            Some((named, width)) => {
                if name == &named {
                    return Some(width);
                }
                self.at_hand = Some((named, width));
                other
            }
        }
    }

    /// The table has no width.
    pub(crate) fn forget(&mut self, name: &Name)
        ensures { (shown : Widths) → Show (all_widths self.old) shown
            → Show (all_widths self.new) (remove shown name.now) }
    {
        let _width = self.take(name);
    }

    // The table has this width, which is at hand.
    fn put_at_hand(&mut self, name: &Name, width: TableWidth) -> Result<(), NoMemory>
        ensures { OnOk result ((q : List ℕ) → width_at q (all_widths self.new)
            ≡ cond (is_at (bytes_cmp name.now) q) (Some width) (width_at q (all_widths self.old))) }
    {
        match self.at_hand.take() {
            None => self.at_hand = Some((name.copy()?, width)),
            Some((named, old)) => {
                if name == &named {
                    self.at_hand = Some((named, width));
                } else {
                    self.others.insert(named, old)?;
                    self.at_hand = Some((name.copy()?, width));
                }
            }
        }
        Ok(())
    }

    /// The table has this width, or none.
    pub(crate) fn put(&mut self, name: &Name, width: Option<TableWidth>) -> Result<(), NoMemory>
        ensures { OnOk result ((shown : Widths) → (w : Option Width)
            → MayBeAlike (option_map width_of width) w → Show (all_widths self.old) shown
            → Show (all_widths self.new) (put_width name.now w shown)) }
    {
        match width {
            None => {
                self.forget(name);
                Ok(())
            }
            Some(width) => self.put_at_hand(name, width),
        }
    }

    /// These tables have no width.
    pub(crate) fn forget_all(&mut self, names: Made<'_>)
        ensures { (shown : Widths) → Show (all_widths self.old) shown
            → Show (all_widths self.new) (no_width (these_names (option_copied names.entry.first)
            (option_copied names.entry.second)) shown) }
    {
        if let Some(first) = names.first {
            self.forget(first);
            if let Some(second) = names.second {
                self.forget(second);
            }
        }
    }

    /// The same as a map.
    pub(crate) fn into_map(self) -> Result<BTreeMap<Name, TableWidth>, NoMemory>
        ensures { IfOk result (λ m. (q : List ℕ) → width_at q m.entries
            ≡ width_at q (all_widths self)) }
    {
        let TableWidths {
            at_hand,
            mut others,
        } = self;
        match at_hand {
            None => Ok(others),
            Some((name, width)) => {
                others.insert(name, width)?;
                Ok(others)
            }
        }
    }
}

// Those of tables that are read from their own version.
fn own_widths(alloc: Global, schema: &Schema) -> Result<BTreeMap<Name, TableWidth>, NoMemory>
    ensures { IfOk result (λ m. Show m.entries (own_widths schema.now)) }
{
    let mut widths = BTreeMap::new(alloc);
    let mut place = 0;
    while place < schema.len() {
        widths.insert(schema.at(place).name().copy()?, own(alloc))?;
        place += 1;
    }
    Ok(widths)
}

/// Those of tables that are read from their own version, none at hand.
pub(crate) fn stored_widths(alloc: Global, schema: &Schema) -> Result<TableWidths, NoMemory>
    ensures { IfOk result (λ m. Show (all_widths m) (own_widths schema.now)) }
{
    Ok(TableWidths {
        at_hand: None,
        others: own_widths(alloc, schema)?,
    })
}
