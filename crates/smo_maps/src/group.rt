//! Rows in groups by their values in some columns.

ghost use Rattle.std.specs.Prelude.{◌≡◌, [], ◌∷◌, ◌++◌, IfOk, OnOk, map, if◌then◌else◌};
ghost use Rattle.std.specs.Option.{unwrap_or};
ghost use Rattle.std.specs.Ordering.{is_eq};
ghost use Rattle.std.specs.BTreeMap as tree;
ghost use Rattle.prima_base.specs.Order.{row_cmp};
ghost use Rattle.smo_ops_spec.specs.OneRow.{Row as OneRow};
ghost use Rattle.smo_maps.specs.Keys.{of_key};

use crate::source::{Source, picked_row};
use prima_base::{NoMemory, Row};
use std::alloc::Global;
use std::collections::BTreeMap;
use std::marker::Model;

/// The rows of one group. A contract sees the list of the rows.
#[derive(Drop)]
pub(crate) struct Group<'a> {
    rows: Vec<&'a Row>,
}

impl<'a> Model for Group<'a> {
    ghost use Rattle.std.specs.Prelude.{map};
    ghost use Rattle.smo_ops_spec.specs.OneRow.{Relation};

    ghost Value = { Relation };

    ghost view = { λ g. map (λ r. r.now) g.rows.items };
}

impl<'a> Group<'a> {
    // A group of one row.
    fn of_one(alloc: Global, row: &'a Row) -> Result<Group<'a>, NoMemory>
        ensures { IfOk result (λ g. g ≡ row.now ∷ []) }
    {
        let mut rows = Vec::new(alloc);
        rows.push(row)?;
        Ok(Group { rows })
    }

    // Puts a row after the others.
    fn push(&mut self, row: &'a Row) -> Result<(), NoMemory>
        ensures { OnOk result (self.new ≡ self.old ++ row.now ∷ []) }
    {
        self.rows.push(row)?;
        Ok(())
    }

    /// The rows.
    pub(crate) fn rows(&self) -> &[&'a Row]
        ensures { map (λ r. r.now) result.now ≡ self.now }
    {
        &self.rows
    }
}

// Puts the row after the others of its key.
fn put_row<'a>(
    alloc: Global,
    groups: &mut BTreeMap<Row, Group<'a>>,
    key: Row,
    row: &'a Row,
) -> Result<(), NoMemory>
    ensures { (other : OneRow) → OnOk result (unwrap_or (tree.get row_cmp groups.new other) []
        ≡ unwrap_or (tree.get row_cmp groups.old other) []
        ++ (if is_eq (row_cmp key other) then row.now ∷ [] else [])) }
{
    match groups.remove(&key) {
        Some(mut group) => {
            group.push(row)?;
            groups.insert(key, group)?;
            Ok(())
        }
        None => {
            groups.insert(key, Group::of_one(alloc, row)?)?;
            Ok(())
        }
    }
}

/// The rows in groups by what stands at the sources.
pub(crate) fn grouped<'a>(
    alloc: Global,
    keys: &[Source],
    rows: &'a [Row],
) -> Result<BTreeMap<Row, Group<'a>>, NoMemory>
    ensures { IfOk result (λ m. (key : OneRow)
        → unwrap_or (tree.get row_cmp m key) [] ≡ of_key keys.now key rows.now) }
{
    let mut groups = BTreeMap::new(alloc);
    for row in rows {
        let key = picked_row(alloc, keys, row.values(), &[])?;
        put_row(alloc, &mut groups, key, row)?;
    }
    Ok(groups)
}
