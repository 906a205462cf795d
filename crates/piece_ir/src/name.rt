ghost use Rattle.std.specs.Prelude.{◌≡◌, ◌++◌, IfOk, OnOk};

use prima_base::{Name, NoMemory};
use std::alloc::Global;

/// Puts equal names after the others.
pub(crate) fn append_names(all: &mut Vec<Name>, names: &[Name]) -> Result<(), NoMemory>
    ensures { OnOk result (all.new.items ≡ all.old.items ++ names.now) }
{
    for name in names {
        all.push(name.copy()?)?;
    }
    Ok(())
}

/// Equal names.
pub(crate) fn copy_names(alloc: Global, names: &[Name]) -> Result<Vec<Name>, NoMemory>
    ensures { IfOk result (λ v. v.items ≡ names.now) }
{
    let mut copied = Vec::with_capacity(alloc, names.len())?;
    append_names(&mut copied, names)?;
    Ok(copied)
}
