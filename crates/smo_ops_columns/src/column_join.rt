// The columns of two tables beside one another.
ghost use Rattle.std.specs.Prelude.{◌≡◌, ◌||◌, Some, is_none, IfOk};
ghost use Rattle.std.specs.List.{list_all};
ghost use Rattle.prima_base.specs.Columns.{Column};
ghost use Rattle.cond_expr.specs.Kinds.{same_kind};
ghost use Rattle.smo_ops_spec.specs.Preconditions.{type_in, same_columns};
ghost use Rattle.smo_ops_spec.specs.Making.{joined_columns};

use crate::column::type_in;
use crate::made_column::{in_order, put_column};
use prima_base::{ColType, Name, NoMemory};
use std::alloc::Global;

/// Whether both have the same columns, of the same types. It takes no memory.
pub fn same_columns(columns: &[(Name, ColType)], others: &[(Name, ColType)]) -> bool
    ensures { result ≡ same_columns columns.now others.now }
{
    columns == others
}

/// Whether columns of one name have one type in both. It is called with few columns. It takes no
/// memory.
pub fn are_joinable(columns: &[(Name, ColType)], others: &[(Name, ColType)]) -> bool
    ensures { result ≡ list_all (λ (c : Column).
        is_none (type_in others.now c.0) || same_kind (type_in others.now c.0) (Some c.1))
        columns.now }
{
    for (name, kind) in columns {
        if let Some(other) = type_in(others, name) {
            if other != *kind {
                return false;
            }
        }
    }
    true
}

/// The columns of both, in the order of their names; of two with one name, that of the others
/// stays. It is called with few columns. The one error is `NoMemory`, where memory runs out.
pub fn joined_columns(
    alloc: Global,
    columns: &[(Name, ColType)],
    others: &[(Name, ColType)],
) -> Result<Vec<(Name, ColType)>, NoMemory>
    ensures { IfOk result (λ v. v.items ≡ joined_columns columns.now others.now) }
{
    match columns {
        [] => in_order(alloc, others),
        [first, rest @ ..] => {
            let mut joined = joined_columns(alloc, rest, others)?;
            put_column(&mut joined, (first.0.copy()?, first.1))?;
            Ok(joined)
        }
    }
}
