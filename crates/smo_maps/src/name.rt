//! The names of columns, in their order. Rows have no types, so names tell where the values of a
//! made row stand.

ghost use Rattle.std.specs.Prelude.{◌≡◌, IfOk};
ghost use Rattle.relations_spec.specs.Sets.{set_of};
ghost use Rattle.prima_base.specs.Columns.{names_of};
ghost use Rattle.prima_base.specs.Order.{bytes_cmp};

use prima_base::{ColType, Name, NoMemory};
use std::alloc::Global;

/// The names of columns.
pub(crate) fn names_of(alloc: Global, columns: &[(Name, ColType)]) -> Result<Vec<Name>, NoMemory>
    ensures { IfOk result (λ v. v.items ≡ names_of columns.now) }
{
    let mut names = Vec::with_capacity(alloc, columns.len())?;
    for (name, _) in columns {
        names.push(name.copy()?)?;
    }
    Ok(names)
}

/// Puts names in their order, each once. It takes no memory.
pub fn put_in_order(names: &mut Vec<Name>)
    ensures { names.new.items ≡ set_of bytes_cmp names.old.items }
{
    names.sort_unstable();
    names.dedup();
}
