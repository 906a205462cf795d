//! The rows of the table that JOIN TABLE makes: those of two tables joined. The second table's rows
//! are grouped by their values in the common columns, and each row of the first meets those of its
//! own group alone; with no common column there is one group.

ghost use Rattle.std.specs.Prelude.{◌≡◌, [], ◌∷◌, ◌++◌, IfOk, OnOk, map, if◌then◌else◌};
ghost use Rattle.std.specs.Option.{unwrap_or};
ghost use Rattle.std.specs.List.{filter, flat_map};
ghost use Rattle.std.specs.BTreeMap as tree;
ghost use Rattle.prima_base.specs.Order.{row_cmp};
ghost use Rattle.prima_base.specs.Columns.{names_of};
ghost use Rattle.cond_expr.specs.Seen.{test};
ghost use Rattle.smo_ops_spec.specs.OneRow.{Row as OneRow, Relation, meets};
ghost use Rattle.smo_ops_spec.specs.Making.{join_rows};
ghost use Rattle.smo_maps.specs.Picking.{picked_row};
ghost use Rattle.smo_maps.specs.Keys.{common, of_key};

use crate::group::{Group, grouped};
use crate::name::names_of;
use crate::one_row::is_met;
use crate::source::{Source, picked_row, sources_of};
use cond_expr::Cond;
use prima_base::{ColType, Name, NoMemory, Row};
use smo_ops::{OwnColumns, make_set};
use smo_ops_columns::{columns_named, joined_columns};
use std::alloc::Global;
use std::collections::BTreeMap;

// Puts the row after the others where it meets the condition.
fn push_where(met: bool, row: Row, made: &mut Vec<Row>) -> Result<(), NoMemory>
    ensures { OnOk result (made.new.items ≡ made.old.items ++ (if met then row ∷ [] else [])) }
{
    if met {
        made.push(row)?;
    }
    Ok(())
}

// Puts what one row of the first table makes with these of the second, and that meets the
// condition, after the others.
fn append_joined(
    alloc: Global,
    own: &OwnColumns<'_>,
    sources: &[Source],
    cond: &Cond,
    row: &Row,
    partners: &[&Row],
    made: &mut Vec<Row>,
) -> Result<(), NoMemory>
    ensures { OnOk result (made.new.items ≡ made.old.items
        ++ filter (meets own.now (test cond.now))
        (map (picked_row sources.now row.now) (map (λ b. b.now) partners.now))) }
{
    for partner in partners {
        let joined = picked_row(alloc, sources, row.values(), partner.values())?;
        let met = is_met(alloc, own, cond, &joined)?;
        push_where(met, joined, made)?;
    }
    Ok(())
}

// The same for the rows of its own group.
fn append_partners(
    alloc: Global,
    own: &OwnColumns<'_>,
    sources: &[Source],
    cond: &Cond,
    keys: &[Source],
    row: &Row,
    groups: &BTreeMap<Row, Group<'_>>,
    made: &mut Vec<Row>,
) -> Result<(), NoMemory>
    ensures { OnOk result (made.new.items ≡ made.old.items ++ filter (meets own.now (test cond.now))
        (map (picked_row sources.now row.now)
        (unwrap_or (tree.get row_cmp groups.now (picked_row keys.now row.now [])) []))) }
{
    let key = picked_row(alloc, keys, row.values(), &[])?;
    match groups.get(&key) {
        Some(group) => append_joined(alloc, own, sources, cond, row, group.rows(), made),
        None => Ok(()),
    }
}

// What the rows of the first table make with those of their groups, and that meets the condition.
fn joined_pairs(
    alloc: Global,
    own: &OwnColumns<'_>,
    sources: &[Source],
    cond: &Cond,
    keys: &[Source],
    first: &[Row],
    groups: &BTreeMap<Row, Group<'_>>,
) -> Result<Vec<Row>, NoMemory>
    ensures { IfOk result (λ v. v.items ≡ filter (meets own.now (test cond.now))
        (flat_map (λ (a : OneRow).
        map (picked_row sources.now a) (unwrap_or
        (tree.get row_cmp groups.now (picked_row keys.now a [])) [])) first.now)) }
{
    let mut made = Vec::new(alloc);
    for row in first {
        append_partners(alloc, own, sources, cond, keys, row, groups, &mut made)?;
    }
    Ok(made)
}

// The names of the columns that another table has too.
fn common_names(
    alloc: Global,
    columns: &[(Name, ColType)],
    others: &[(Name, ColType)],
) -> Result<Vec<Name>, NoMemory>
    ensures { IfOk result (λ v. v.items ≡ names_of (common columns.now others.now)) }
{
    let names = names_of(alloc, others)?;
    let common = columns_named(alloc, columns, &names)?;
    names_of(alloc, &common)
}

/// The rows of two tables joined: each pair that agrees on all common columns, joined, that meets
/// the condition.
pub(crate) fn joined(
    alloc: Global,
    columns: &[(Name, ColType)],
    others: &[(Name, ColType)],
    cond: &Cond,
    first: &[Row],
    second: &[Row],
) -> Result<Vec<Row>, NoMemory>
    ensures { IfOk result (λ v. v.items ≡ join_rows columns.now others.now (test cond.now) first.now
        second.now) }
{
    let common = common_names(alloc, columns, others)?;
    let keys = sources_of(alloc, columns, &[], &common)?;
    let other_keys = sources_of(alloc, others, &[], &common)?;
    let groups = grouped(alloc, &other_keys, second)?;
    let all = joined_columns(alloc, columns, others)?;
    let names = names_of(alloc, &all)?;
    let sources = sources_of(alloc, columns, others, &names)?;
    let own = OwnColumns::new(alloc, &all)?;
    let mut made = joined_pairs(alloc, &own, &sources, cond, &keys, first, &groups)?;
    make_set(&mut made);
    Ok(made)
}
