//! The width of a table, and of what the operators make of one or two.

ghost use Rattle.std.specs.Prelude.{◌≡◌, ◌+◌, IfOk};
ghost use Rattle.cond_expr.specs.Seen.{tree, test};
ghost use Rattle.smo_ops_widths.specs.Widths.{own_width, a_width, merged_width, part_width};
ghost use Rattle.smo_ops_widths.specs.Widths.{joined_width, with_size, sized_as, sized};
ghost use Rattle.smo_ops_widths.specs.Widths.{equalities};
ghost use Rattle.smo_ops_widths.specs.Counted.{AreAlike, size_in, stopped};
ghost use Rattle.smo_ops_widths.specs.Shown.{width_of};

use crate::size::{
    cond_nodes, copy_sizes, expr_nodes, push_greater, push_others, push_sized, put_size, size_of,
};
use cond_expr::{Cond, Expr};
use prima_base::{ColType, Name, NoMemory};
use smo_ops_columns::has_name;
use std::alloc::Global;

/// How wide a table is: how many pieces it is read by, the greatest number of atoms of one of them,
/// the greatest size of a condition, and for each column the greatest size of what stands for it, by
/// its name: 1 where a name is not there. Each number stands for itself, and stops at the greatest
/// that there is.
#[derive(Drop)]
pub struct TableWidth {
    pub pieces: u64,
    pub atoms: u64,
    pub cond: u64,
    pub sizes: Vec<(Name, u64)>,
}

/// That of a table that is read from its own version.
pub(crate) fn own(alloc: Global) -> TableWidth
    ensures { AreAlike (width_of result) own_width }
{
    TableWidth {
        pieces: 1,
        atoms: 1,
        cond: 1,
        sizes: Vec::new(alloc),
    }
}

/// That of a table that is made on the way.
pub(crate) fn created(alloc: Global) -> TableWidth
    ensures { AreAlike (width_of result) (a_width 0 0 0 (λ n. 1)) }
{
    TableWidth {
        pieces: 0,
        atoms: 0,
        cond: 0,
        sizes: Vec::new(alloc),
    }
}

/// The same width.
pub(crate) fn copy(alloc: Global, width: &TableWidth) -> Result<TableWidth, NoMemory>
    ensures { IfOk result (λ w. AreAlike (width_of w) (width_of width.now)) }
{
    Ok(TableWidth {
        pieces: width.pieces,
        atoms: width.atoms,
        cond: width.cond,
        sizes: copy_sizes(alloc, &width.sizes)?,
    })
}

/// That of two tables that are merged.
pub(crate) fn merged(
    alloc: Global,
    left: &TableWidth,
    right: &TableWidth,
) -> Result<TableWidth, NoMemory>
    ensures { IfOk result (λ w. AreAlike (width_of w)
        (merged_width (width_of left.now) (width_of right.now))) }
{
    let mut sizes = Vec::with_capacity(alloc, left.sizes.len())?;
    push_greater(&mut sizes, &left.sizes, &right.sizes)?;
    let mut others = Vec::with_capacity(alloc, right.sizes.len())?;
    push_greater(&mut others, &right.sizes, &left.sizes)?;
    push_others(&mut sizes, &others)?;
    Ok(TableWidth {
        pieces: left.pieces.saturating_add(right.pieces),
        atoms: left.atoms.max(right.atoms),
        cond: left.cond.max(right.cond),
        sizes,
    })
}

/// That of a part of a table, whose condition has so many nodes more than the two conditions.
pub(crate) fn part(
    alloc: Global,
    more: u64,
    cond: &Cond,
    width: &TableWidth,
) -> Result<TableWidth, NoMemory>
    ensures { IfOk result (λ w. AreAlike (width_of w)
        (part_width more (test cond.now) (width_of width.now))) }
{
    let nodes = cond_nodes(&width.sizes, cond);
    Ok(TableWidth {
        pieces: width.pieces,
        atoms: width.atoms,
        cond: width.cond.saturating_add(more).saturating_add(nodes),
        sizes: copy_sizes(alloc, &width.sizes)?,
    })
}

// For each column of the one table that the other has too one, and its two sizes.
fn equality_nodes(
    columns: &[(Name, ColType)],
    others: &[(Name, ColType)],
    left: &[(Name, u64)],
    right: &[(Name, u64)],
) -> u64
    ensures { result ≡ stopped (equalities columns.now others.now (size_in left.now)
        (size_in right.now)) }
{
    let mut nodes: u64 = 0;
    for (name, _) in columns {
        if has_name(others, name) {
            let sides = size_of(left, name).saturating_add(size_of(right, name));
            nodes = nodes.saturating_add(1).saturating_add(sides);
        }
    }
    nodes
}

/// That of two tables, with these columns, that are joined on a condition.
pub(crate) fn joined(
    alloc: Global,
    columns: (&[(Name, ColType)], &[(Name, ColType)]),
    cond: &Cond,
    left: &TableWidth,
    right: &TableWidth,
) -> Result<TableWidth, NoMemory>
    ensures { IfOk result (λ w. AreAlike (width_of w)
        (joined_width columns.entry.0.now columns.entry.1.now (test cond.now)
        (width_of left.now) (width_of right.now))) }
{
    let mut sizes = Vec::new(alloc);
    push_sized(&mut sizes, columns.0, &left.sizes)?;
    push_others(&mut sizes, &right.sizes)?;
    let both = left.cond.saturating_add(right.cond).saturating_add(1);
    let equal = equality_nodes(columns.0, columns.1, &left.sizes, &right.sizes);
    let nodes = cond_nodes(&sizes, cond);
    Ok(TableWidth {
        pieces: left.pieces.saturating_mul(right.pieces),
        atoms: left.atoms.saturating_add(right.atoms),
        cond: both.saturating_add(equal).saturating_add(nodes),
        sizes,
    })
}

/// The same width, but for the size of what stands for this column.
pub(crate) fn resized(column: &Name, size: u64, width: TableWidth) -> Result<TableWidth, NoMemory>
    ensures { IfOk result (λ w. AreAlike (width_of w)
        (with_size (sized_as column.now size (size_in width.sizes.items)) (width_of width))) }
{
    let TableWidth {
        pieces,
        atoms,
        cond,
        mut sizes,
    } = width;
    put_size(&mut sizes, column, size)?;
    Ok(TableWidth {
        pieces,
        atoms,
        cond,
        sizes,
    })
}

/// That of a table with a column more, that is computed.
pub(crate) fn added(column: &Name, expr: &Expr, width: TableWidth) -> Result<TableWidth, NoMemory>
    ensures { IfOk result (λ w. AreAlike (width_of w)
        (with_size (sized_as column.now (sized (size_in width.sizes.items) (tree expr.now))
        (size_in width.sizes.items)) (width_of width))) }
{
    let size = expr_nodes(&width.sizes, expr);
    resized(column, size, width)
}

/// That of a table with a column under another name.
pub(crate) fn renamed(column: &Name, into: &Name, width: TableWidth) -> Result<TableWidth, NoMemory>
    ensures { IfOk result (λ w. AreAlike (width_of w)
        (with_size (sized_as into.now (size_in width.sizes.items column.now)
        (size_in width.sizes.items)) (width_of width))) }
{
    let size = size_of(&width.sizes, column);
    resized(into, size, width)
}
