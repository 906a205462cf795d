// The columns of a table's two parts.
ghost use Rattle.std.specs.Prelude.{◌≡◌, [], ◌∷◌, ◌++◌, ◌&&◌, ◌||◌, if◌then◌else◌, IfOk, OnOk};
ghost use Rattle.std.specs.List.{list_any, list_all};
ghost use Rattle.prima_base.specs.Columns.{names_of};
ghost use Rattle.smo_ops_spec.specs.Preconditions.{among};
ghost use Rattle.smo_ops_spec.specs.Making.{named};

use crate::name_list::{is_among, share_a_name};
use prima_base::{ColType, Name, NoMemory};
use std::alloc::Global;

// Whether each column is in one of two parts.
fn all_in_either(columns: &[(Name, ColType)], left: &[Name], right: &[Name]) -> bool
    ensures { result ≡ list_all (λ n. among n left.now || among n right.now)
        (names_of columns.now) }
{
    for (name, _) in columns {
        if !is_among(name, left) && !is_among(name, right) {
            return false;
        }
    }
    true
}

/// Whether two parts have a column in common, and together all columns. It takes no memory.
pub fn are_cover(columns: &[(Name, ColType)], left: &[Name], right: &[Name]) -> bool
    ensures { result ≡ (list_any (λ x. among x right.now) left.now
        && list_all (λ n. among n left.now || among n right.now) (names_of columns.now)) }
{
    share_a_name(left, right) && all_in_either(columns, left, right)
}

// Puts an equal column after the others where it is named.
fn push_named(
    kept: &mut Vec<(Name, ColType)>,
    column: &(Name, ColType),
    names: &[Name],
) -> Result<(), NoMemory>
    ensures { OnOk result (kept.new.items ≡ kept.old.items
        ++ (if among column.now.0 names.now then column.now ∷ [] else [])) }
{
    if !is_among(&column.0, names) {
        return Ok(());
    }
    kept.push((column.0.copy()?, column.1))?;
    Ok(())
}

/// Columns equal to those that are named, in their order. The one error is `NoMemory`, where memory
/// runs out.
pub fn columns_named(
    alloc: Global,
    columns: &[(Name, ColType)],
    names: &[Name],
) -> Result<Vec<(Name, ColType)>, NoMemory>
    ensures { IfOk result (λ v. v.items ≡ named names.now columns.now) }
{
    let mut kept = Vec::new(alloc);
    for column in columns {
        push_named(&mut kept, column, names)?;
    }
    Ok(kept)
}
