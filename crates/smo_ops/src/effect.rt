//! What changes make of rows: the rows that they give, which rows meet a condition, and what these
//! are updated to.

ghost use Rattle.std.specs.Prelude.{◌≡◌, All, IfOk, IfSome, List, Option, map};
ghost use Rattle.std.specs.List.{AllZip, zip};
ghost use Rattle.std.specs.Option.{option_map, unwrap_or};
ghost use Rattle.relations_spec.specs.Sets.{set_of};
ghost use Rattle.prima_base.specs.declared.value.Val.{Val as OneVal};
ghost use Rattle.prima_base.specs.Order.{row_cmp, shown, IsBorrowed};
ghost use Rattle.prima_base.specs.Columns.{Column as TableColumn, AreColumns, IsValid, IsRow};
ghost use Rattle.cond_expr.specs.Rows.{AreValid};
ghost use Rattle.cond_expr.specs.Seen.{tree, test};
ghost use Rattle.cond_expr.specs.Values.{value};
ghost use Rattle.smo_ops_spec.specs.OneRow.{own_cells, meets, given, row_of, set_value, with_sets};
ghost use Rattle.cond_expr.specs.AtomColumns.{columns_at};
ghost use Rattle.smo_ops_types.specs.Changes.{sets_of};
ghost use Rattle.schema_catalog.specs.Databases.{cell};

use cond_expr::{Column, Cond, Expr, eval, holds};
use prima_base::{ColType, Name, NoMemory, Row, Val, Value};
use smo_ops_operators::OwnColumns;
use std::alloc::Global;

/// The relation that the rows stand for: each row once, ascending. It takes no memory.
pub fn make_set(rows: &mut Vec<Row>)
    ensures { rows.new.items ≡ set_of row_cmp rows.old.items }
{
    rows.sort_unstable();
    rows.dedup();
}

/// Whether the row of a table of these columns that has these values meets the condition. The
/// values are valid, as for `holds`. The one error is `NoMemory`, where memory runs out.
pub fn row_meets(
    alloc: Global,
    own: &OwnColumns<'_>,
    cond: &Cond,
    values: &[Val<'_>],
) -> Result<bool, NoMemory>
    requires { AreValid values.now }
    ensures { IfOk result (λ b. b ≡ meets own.now (test cond.now) (map shown values.now)) }
{
    holds(alloc, cond, own.atoms(), values)
}

/// What the expression has over the row of a table of these columns that has these values. The
/// values are valid, as for `eval`. The one error is `NoMemory`, where memory runs out.
pub fn row_value(
    alloc: Global,
    own: &OwnColumns<'_>,
    expr: &Expr,
    values: &[Val<'_>],
) -> Result<Value, NoMemory>
    requires { AreValid values.now }
    ensures { IfOk result (λ v. v ≡ value (own_cells own.now (map shown values.now))
        (tree expr.now)) }
{
    let val = eval(alloc, expr, own.atoms(), values)?;
    val.into_value(alloc)
}

// The value that is given for the column with this name, borrowed.
fn given_value<'a>(cells: &'a [(Name, Value)], name: &Name) -> Val<'a>
    ensures value { shown result ≡ given cells.now name.now }
    ensures valid { IsValid (shown result) }
    ensures borrowed { IsBorrowed result }
{
    for (column, value) in cells {
        if *column == *name {
            return value.lend();
        }
    }
    Val::Int(0)
}

/// The values of the row that an INSERT of these cells gives a table of these columns, each
/// borrowed from its cell; a text has at most 4,096 bytes and no control byte. A column for which
/// no cell is given has the value 0. The one error is `NoMemory`, where memory runs out.
pub fn inserted_row<'a>(
    alloc: Global,
    columns: &[(Name, ColType)],
    cells: &'a [(Name, Value)],
) -> Result<Vec<Val<'a>>, NoMemory>
    ensures row { IfOk result (λ v. map shown v.items ≡ row_of columns.now cells.now) }
    ensures valid { IfOk result (λ v. All (λ v. IsValid (shown v)) v.items) }
    ensures borrowed { IfOk result (λ v. All IsBorrowed v.items) }
{
    let mut values = Vec::with_capacity(alloc, columns.len())?;
    for (column, _) in columns {
        values.push(given_value(cells, column))?;
    }
    Ok(values)
}

// What is set in the column with this name, computed from the row's values; none where nothing is.
fn set_value<'a>(
    alloc: Global,
    atoms: &[Column],
    sets: &[(Name, Expr)],
    values: &[Val<'a>],
    name: &Name,
) -> Result<Option<Val<'a>>, NoMemory>
    requires { AreValid values.now }
    ensures value { (columns : List TableColumn) → atoms.now ≡ columns_at 0 columns
        → IfOk result (λ v. unwrap_or (option_map shown v)
        (cell columns (map shown values.now) name.now)
        ≡ set_value columns (map shown values.now) (sets_of sets.now) name.now) }
    ensures valid { IfOk result (λ v. IfSome v (λ v. IsValid (shown v))) }
{
    for (column, expr) in sets {
        if *column == *name {
            let val = eval(alloc, expr, atoms, values)?;
            return Ok(Some(val));
        }
    }
    Ok(None)
}

// What is set in each column, computed from the row's values; none where nothing is.
fn set_values<'a>(
    alloc: Global,
    columns: &[(Name, ColType)],
    atoms: &[Column],
    sets: &[(Name, Expr)],
    values: &[Val<'a>],
) -> Result<Vec<Option<Val<'a>>>, NoMemory>
    requires atoms { atoms.now ≡ columns_at 0 columns.now }
    requires valid { AreValid values.now }
    ensures value { IfOk result (λ v. AllZip (λ (c : TableColumn) (o : Option OneVal).
        unwrap_or (option_map shown o) (cell columns.now (map shown values.now) c.0)
        ≡ set_value columns.now (map shown values.now) (sets_of sets.now) c.0)
        columns.now v.items) }
    ensures valid { IfOk result (λ v. All (λ o. IfSome o (λ v. IsValid (shown v))) v.items) }
{
    let mut set = Vec::with_capacity(alloc, columns.len())?;
    for (name, _) in columns {
        set.push(set_value(alloc, atoms, sets, values, name)?)?;
    }
    Ok(set)
}

// The value, or what is set in its place.
fn put_for<'a>(pair: (Val<'a>, Option<Val<'a>>)) -> Val<'a>
    ensures { result ≡ unwrap_or pair.entry.1 pair.entry.0 }
{
    let (value, set) = pair;
    set.unwrap_or(value)
}

// Each value, or what is set in its place.
fn new_values<'a>(
    alloc: Global,
    values: Vec<Val<'a>>,
    set: Vec<Option<Val<'a>>>,
) -> Result<Vec<Val<'a>>, NoMemory>
    ensures { IfOk result (λ v. v.items
        ≡ map (λ (p : OneVal × Option OneVal). unwrap_or p.1 p.0)
        (zip values.entry.items set.entry.items)) }
{
    let replaced = values.into_iter().zip(set).map(put_for).collect(alloc)?;
    Ok(replaced)
}

/// The values of the row of a table of these columns with all that is set, each computed from the
/// row as it is given; what is not set stays as it is, and a borrowed text of it where it was. The
/// values are valid, as for `eval`, and so are those that are answered. The one error is
/// `NoMemory`, where memory runs out.
pub fn row_with_sets<'a>(
    alloc: Global,
    own: &OwnColumns<'_>,
    sets: &[(Name, Expr)],
    values: Vec<Val<'a>>,
) -> Result<Vec<Val<'a>>, NoMemory>
    requires columns { AreColumns own.now }
    requires valid { AreValid values.items }
    ensures row { IsRow own.now (map shown values.entry.items) → IfOk result (λ v. map shown v.items
        ≡ with_sets own.now (sets_of sets.now) (map shown values.entry.items)) }
    ensures valid { IfOk result (λ v. All (λ v. IsValid (shown v)) v.items) }
{
    let set = set_values(alloc, own.columns(), own.atoms(), sets, &values)?;
    let row = new_values(alloc, values, set)?;
    Ok(row)
}
