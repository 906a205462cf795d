// Lists of names of columns and tables.
ghost use Rattle.std.specs.Prelude.{◌≡◌, [], ◌∷◌, IfOk};
ghost use Rattle.std.specs.List.{list_any};
ghost use Rattle.std.specs.Option.{option_copied};
ghost use Rattle.smo_ops_spec.specs.Preconditions.{among, first_again};

use prima_base::{Name, NoMemory};
use std::alloc::Global;
use std::collections::BTreeSet;

/// Whether the name is one of two. It takes no memory.
pub fn is_either(name: &Name, first: &Name, second: &Name) -> bool
    ensures { result ≡ among name.now (first.now ∷ second.now ∷ []) }
{
    name == first || name == second
}

// Whether the name is one of these.
pub(crate) fn is_among(name: &Name, names: &[Name]) -> bool
    ensures { result ≡ among name.now names.now }
{
    for other in names {
        if name == other {
            return true;
        }
    }
    false
}

// Whether one name is among both. They are called with few names.
pub(crate) fn share_a_name(names: &[Name], others: &[Name]) -> bool
    ensures { result ≡ list_any (λ n. among n others.now) names.now }
{
    for name in names {
        if is_among(name, others) {
            return true;
        }
    }
    false
}

/// The first name that stood before. The one error is `NoMemory`, where memory runs out.
pub fn first_name_again(alloc: Global, names: &[Name]) -> Result<Option<&Name>, NoMemory>
    ensures { IfOk result (λ o. option_copied o ≡ first_again names.now) }
{
    let mut seen = BTreeSet::new(alloc);
    for name in names {
        if !seen.insert(name.copy()?)? {
            return Ok(Some(name));
        }
    }
    Ok(None)
}
