ghost use Rattle.std.specs.Prelude.{◌≡◌, ◌++◌, ◌∷◌, [], IfOk, OnOk};

use prima_base::NoMemory;
use std::alloc::Global;

/// An empty list with room for so many items.
pub(crate) fn with_room<T>(alloc: Global, items: usize) -> Result<Vec<T>, NoMemory>
    ensures { IfOk result (λ v. v.items ≡ []) }
{
    Ok(Vec::with_capacity(alloc, items)?)
}

/// Puts an item after those that are there.
pub(crate) fn push<T: Drop>(into: &mut Vec<T>, item: T) -> Result<(), NoMemory>
    ensures { OnOk result (into.new.items ≡ into.old.items ++ item ∷ []) }
{
    into.push(item)?;
    Ok(())
}
