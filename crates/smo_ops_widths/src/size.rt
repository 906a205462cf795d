//! The sizes of what stands for columns, by their names, and the nodes of trees in which each
//! reference counts as the size of its column. Numbers stop at the greatest that there is.

ghost use Rattle.std.specs.Prelude.{◌≡◌, ◌++◌, ℕ, List, map, max, min, position, IfOk, OnOk};
ghost use Rattle.prima_base.specs.Columns.{Column as OneColumn};
ghost use Rattle.cond_expr.specs.Seen.{tree, test, trees_of, tests_of};
ghost use Rattle.smo_ops_spec.specs.OneRow.{same};
ghost use Rattle.smo_ops_widths.specs.Widths.{sized, trees_sized, test_sized, tests_sized};
ghost use Rattle.smo_ops_widths.specs.Widths.{sized_as};
ghost use Rattle.smo_ops_widths.specs.Counted.{size_in};

use cond_expr::{Cond, Expr};
use prima_base::{ColType, Name, NoMemory};
use smo_ops_columns::has_name;
use std::alloc::Global;

/// The size that stands beside the name, and 1 where the name is not there.
pub fn size_of(sizes: &[(Name, u64)], name: &Name) -> u64
    ensures { result ≡ size_in sizes.now name.now }
{
    for (column, size) in sizes {
        if name == column {
            return *size;
        }
    }
    1
}

/// The nodes of an expression.
#[cycle(nodes)]
pub(crate) fn expr_nodes(sizes: &[(Name, u64)], expr: &Expr) -> u64
    ensures { result ≡ min (sized (size_in sizes.now) (tree expr.now)) u64.MAX }
{
    match expr {
        Expr::Col(reference) => size_of(sizes, &reference.name),
        Expr::Const(_) => 1,
        Expr::Length(part) => expr_nodes(sizes, part).saturating_add(1),
        Expr::Concat(parts) => exprs_nodes(sizes, parts).saturating_add(1),
        Expr::Case(cond, first, second) => {
            let cases = expr_nodes(sizes, first).saturating_add(expr_nodes(sizes, second));
            cond_nodes(sizes, cond)
                .saturating_add(cases)
                .saturating_add(1)
        }
    }
}

#[cycle(nodes)]
fn exprs_nodes(sizes: &[(Name, u64)], list: &[Expr]) -> u64
    ensures { result ≡ min (trees_sized (size_in sizes.now) (trees_of (map tree list.now))) u64.MAX }
{
    let mut nodes: u64 = 0;
    for part in list {
        nodes = nodes.saturating_add(expr_nodes(sizes, part));
    }
    nodes
}

/// The nodes of a condition.
#[cycle(nodes)]
pub(crate) fn cond_nodes(sizes: &[(Name, u64)], cond: &Cond) -> u64
    ensures { result ≡ min (test_sized (size_in sizes.now) (test cond.now)) u64.MAX }
{
    match cond {
        Cond::False | Cond::True => 1,
        Cond::Cmp(_, left, right) => {
            let sides = expr_nodes(sizes, left).saturating_add(expr_nodes(sizes, right));
            sides.saturating_add(1)
        }
        Cond::And(parts) => conds_nodes(sizes, parts).saturating_add(1),
        Cond::Or(parts) => conds_nodes(sizes, parts).saturating_add(1),
        Cond::Not(part) => cond_nodes(sizes, part).saturating_add(1),
    }
}

#[cycle(nodes)]
fn conds_nodes(sizes: &[(Name, u64)], list: &[Cond]) -> u64
    ensures { result ≡ min (tests_sized (size_in sizes.now) (tests_of (map test list.now))) u64.MAX }
{
    let mut nodes: u64 = 0;
    for part in list {
        nodes = nodes.saturating_add(cond_nodes(sizes, part));
    }
    nodes
}

/// Puts the sizes of these columns after what is there.
pub(crate) fn push_sized(
    into: &mut Vec<(Name, u64)>,
    columns: &[(Name, ColType)],
    sizes: &[(Name, u64)],
) -> Result<(), NoMemory>
    ensures { OnOk result (into.new.items ≡ into.old.items
        ++ map (λ (c : OneColumn). (c.0, size_in sizes.now c.0)) columns.now) }
{
    for (name, _) in columns {
        into.push((name.copy()?, size_of(sizes, name)))?;
    }
    Ok(())
}

/// Puts each of these sizes, or the other one of its name where that is greater, after what is
/// there.
pub(crate) fn push_greater(
    into: &mut Vec<(Name, u64)>,
    sizes: &[(Name, u64)],
    others: &[(Name, u64)],
) -> Result<(), NoMemory>
    ensures { OnOk result (into.new.items ≡ into.old.items
        ++ map (λ (e : List ℕ × ℕ). (e.0, max e.1 (size_in others.now e.0))) sizes.now) }
{
    for (name, size) in sizes {
        into.push((name.copy()?, (*size).max(size_of(others, name))))?;
    }
    Ok(())
}

/// Puts these sizes, but for names that are there already, after what is there.
pub(crate) fn push_others(
    into: &mut Vec<(Name, u64)>,
    others: &[(Name, u64)],
) -> Result<(), NoMemory>
    ensures { OnOk result ((n : List ℕ) → size_in into.new.items n
        ≡ size_in (into.old.items ++ others.now) n) }
{
    for (name, size) in others {
        if !has_name(into, name) {
            into.push((name.copy()?, *size))?;
        }
    }
    Ok(())
}

/// The same sizes.
pub(crate) fn copy_sizes(alloc: Global, sizes: &[(Name, u64)]) -> Result<Vec<(Name, u64)>, NoMemory>
    ensures { IfOk result (λ v. v.items ≡ sizes.now) }
{
    let mut copied = Vec::with_capacity(alloc, sizes.len())?;
    for (name, size) in sizes {
        copied.push((name.copy()?, *size))?;
    }
    Ok(copied)
}

// The place of the size that stands beside the name, if it is there.
fn place_of(sizes: &[(Name, u64)], name: &Name) -> Option<usize>
    ensures { result ≡ position (λ (e : List ℕ × ℕ). same name.now e.0) sizes.now }
{
    sizes.iter().position(|entry| name == &entry.0)
}

/// This is the size that stands beside the name: 1 need not be said where the name is not there.
pub(crate) fn put_size(sizes: &mut Vec<(Name, u64)>, name: &Name, size: u64) -> Result<(), NoMemory>
    ensures { OnOk result ((n : List ℕ) → size_in sizes.new.items n
        ≡ sized_as name.now size (size_in sizes.old.items) n) }
{
    match place_of(sizes, name) {
        Some(place) => sizes[place].1 = size,
        None => {
            if size != 1 {
                sizes.push((name.copy()?, size))?;
            }
        }
    }
    Ok(())
}
