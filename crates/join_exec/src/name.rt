//! The names of the columns that references name of an atom.

ghost use Rattle.std.specs.Prelude.{◌≡◌, IfOk};
ghost use Rattle.std.specs.List.{filter};
ghost use Rattle.plain_answers_spec.specs.Naming.{written_names, names_at};
ghost use Rattle.cond_expr.specs.References.{is_to, borrowed};

use cond_expr::ColRef;
use prima_base::{Name, NoMemory};
use smo_maps::put_in_order;
use std::alloc::Global;

// The names of the references to one atom, one for each.
fn names_to(alloc: Global, references: &[&ColRef], atom: u32) -> Result<Vec<Name>, NoMemory>
    ensures { IfOk result (λ v. v.items ≡ written_names
        (filter (is_to atom) (borrowed references.now))) }
{
    let mut names = Vec::new(alloc);
    for reference in references {
        if reference.is_to(atom) {
            names.push(reference.name.copy()?)?;
        }
    }
    Ok(names)
}

/// The names of the columns of an atom that are named, ascending, each once. For n references this
/// is in the order of n log n comparisons of names.
pub fn names_at(alloc: Global, references: &[&ColRef], atom: u32) -> Result<Vec<Name>, NoMemory>
    ensures { IfOk result (λ v. v.items ≡ names_at atom (borrowed references.now)) }
{
    let mut names = names_to(alloc, references, atom)?;
    put_in_order(&mut names);
    Ok(names)
}
