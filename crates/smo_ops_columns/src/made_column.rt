ghost use Rattle.std.specs.Prelude.{◌≡◌, [], ◌∷◌, ◌++◌, if◌then◌else◌, IfOk, OnOk};
ghost use Rattle.std.specs.List.{insert};
ghost use Rattle.std.specs.Option.{option_copied};
ghost use Rattle.relations_spec.specs.Sets.{put_in};
ghost use Rattle.prima_base.specs.Columns.{names_of};
ghost use Rattle.smo_ops_spec.specs.Preconditions.{first_again};
ghost use Rattle.smo_ops_spec.specs.OneRow.{same};
ghost use Rattle.smo_ops_spec.specs.Making.{column_cmp, in_order, without, renamed, with_column};
ghost use Rattle.smo_ops_columns.specs.Placed.{IsGap};

use prima_base::{ColType, Name, NoMemory, copy_columns};
use std::alloc::Global;
use std::cmp::Ordering;
use std::collections::BTreeSet;

/// The name of the first column whose name stood before. The one error is `NoMemory`, where memory
/// runs out.
pub fn first_again(alloc: Global, columns: &[(Name, ColType)]) -> Result<Option<&Name>, NoMemory>
    ensures { IfOk result (λ o. option_copied o ≡ first_again (names_of columns.now)) }
{
    let mut seen = BTreeSet::new(alloc);
    for (name, _) in columns {
        if !seen.insert(name.copy()?)? {
            return Ok(Some(name));
        }
    }
    Ok(None)
}

// Where a column of this name goes among columns in the order of their names; `None` where one has
// the name.
fn gap(columns: &[(Name, ColType)], name: &Name) -> Option<usize>
    ensures { IsGap columns.now name.now result }
{
    for (i, (other, _)) in columns.iter().enumerate() {
        match name.cmp(other) {
            Ordering::Less => return Some(i),
            Ordering::Equal => return None,
            Ordering::Greater => {}
        }
    }
    Some(columns.len())
}

// Puts a column in its place; where one has its name, that one stays.
pub(crate) fn put_column(
    columns: &mut Vec<(Name, ColType)>,
    column: (Name, ColType),
) -> Result<(), NoMemory>
    ensures { OnOk result (columns.new.items ≡ put_in column_cmp column columns.old.items) }
{
    match gap(columns, &column.0) {
        Some(i) => {
            columns.insert(i, column)?;
            Ok(())
        }
        None => Ok(()),
    }
}

/// The columns of a table in the order of their names. It is called with few of them. The one error
/// is `NoMemory`, where memory runs out.
pub fn in_order(
    alloc: Global,
    columns: &[(Name, ColType)],
) -> Result<Vec<(Name, ColType)>, NoMemory>
    ensures { IfOk result (λ v. v.items ≡ in_order columns.now) }
{
    match columns {
        [] => Ok(Vec::new(alloc)),
        [first, rest @ ..] => {
            let mut ordered = in_order(alloc, rest)?;
            put_column(&mut ordered, (first.0.copy()?, first.1))?;
            Ok(ordered)
        }
    }
}

// Puts an equal column after the others, unless it has this name.
fn push_unless(
    kept: &mut Vec<(Name, ColType)>,
    column: &(Name, ColType),
    name: &Name,
) -> Result<(), NoMemory>
    ensures { OnOk result (kept.new.items ≡ kept.old.items
        ++ (if same column.now.0 name.now then [] else column.now ∷ [])) }
{
    if &column.0 == name {
        return Ok(());
    }
    kept.push((column.0.copy()?, column.1))?;
    Ok(())
}

/// Equal columns, without the one of this name. The one error is `NoMemory`, where memory runs out.
pub fn columns_without(
    alloc: Global,
    columns: &[(Name, ColType)],
    name: &Name,
) -> Result<Vec<(Name, ColType)>, NoMemory>
    ensures { IfOk result (λ v. v.items ≡ without name.now columns.now) }
{
    let mut kept = Vec::with_capacity(alloc, columns.len())?;
    for column in columns {
        push_unless(&mut kept, column, name)?;
    }
    Ok(kept)
}

/// Equal columns and one more, in its place; where one has its name, that one stays. The one error
/// is `NoMemory`, where memory runs out.
pub fn columns_with(
    alloc: Global,
    columns: &[(Name, ColType)],
    name: &Name,
    kind: ColType,
) -> Result<Vec<(Name, ColType)>, NoMemory>
    ensures { IfOk result (λ v. v.items ≡ with_column name.now kind columns.now) }
{
    let mut made = copy_columns(alloc, columns)?;
    put_column(&mut made, (name.copy()?, kind))?;
    Ok(made)
}

// An equal column, under another name where it has the old one.
fn renamed_column(
    column: &(Name, ColType),
    old: &Name,
    new: &Name,
) -> Result<(Name, ColType), NoMemory>
    ensures { IfOk result (λ c. c ≡ (if same column.now.0 old.now then (new.now, column.now.1)
        else column.now)) }
{
    if &column.0 == old {
        return Ok((new.copy()?, column.1));
    }
    Ok((column.0.copy()?, column.1))
}

/// Equal columns with one of them under another name, in the order of their names. It is called
/// with few columns. The one error is `NoMemory`, where memory runs out.
pub fn columns_renamed(
    alloc: Global,
    columns: &[(Name, ColType)],
    old: &Name,
    new: &Name,
) -> Result<Vec<(Name, ColType)>, NoMemory>
    ensures { IfOk result (λ v. v.items ≡ renamed old.now new.now columns.now) }
{
    let mut made = Vec::with_capacity(alloc, columns.len())?;
    for column in columns {
        made.push(renamed_column(column, old, new)?)?;
    }
    let ordered = in_order(alloc, &made)?;
    Ok(ordered)
}
