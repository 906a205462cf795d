//! References of branches, each made one to an atom of its branch.

ghost use Rattle.std.specs.Prelude.{◌≡◌, ◌≤◌, IfOk, map, length};
ghost use Rattle.cond_expr.specs.Trees.{fill, fill_test};
ghost use Rattle.cond_expr.specs.Seen.{tree, test};
ghost use Rattle.temporal_lang_types.specs.Branches.{branch_of, branches_of};
ghost use Rattle.temporal_lang_spec.specs.Atoms.{sources_of, to_atoms, branch_with_atoms};
ghost use Rattle.temporal_lang_spec.specs.Atoms.{branches_with_atoms};
ghost use Rattle.temporal_lang_spec.specs.Resolved.{HaveFew};

use crate::Branch;
use crate::list::push;
use crate::to_atom::ToAtoms;
use cond_expr::{Expr, fill_cond, fill_expr};
use prima_base::NoMemory;
use schema_catalog::Schema;
use std::alloc::Global;
use temporal_lang_types::copy_items;

fn resolve_outputs(alloc: Global, by: &ToAtoms<'_>, outs: &[Expr]) -> Result<Vec<Expr>, NoMemory>
    ensures { IfOk result (λ v. map tree v.items
        ≡ map (fill (to_atoms (sources_of by.now.schema.now by.now.from.now)))
        (map tree outs.now)) }
{
    let mut resolved = Vec::with_capacity(alloc, outs.len())?;
    for out in outs {
        resolved.push(fill_expr(alloc, by, out)?)?;
    }
    Ok(resolved)
}

fn resolve_branch(alloc: Global, schema: &Schema, branch: &Branch) -> Result<Branch, NoMemory>
    requires { length branch.now.from.items ≤ 8 }
    ensures { IfOk result (λ b. branch_of b ≡ branch_with_atoms schema.now (branch_of branch.now)) }
{
    let by = ToAtoms {
        schema,
        from: &branch.from,
    };
    Ok(Branch {
        outs: resolve_outputs(alloc, &by, &branch.outs)?,
        from: copy_items(alloc, &branch.from)?,
        cond: fill_cond(alloc, &by, &branch.cond)?,
    })
}

/// The branches with each reference made one to an atom.
pub(crate) fn resolve_branches(
    alloc: Global,
    schema: &Schema,
    branches: &[Branch],
) -> Result<Vec<Branch>, NoMemory>
    requires { HaveFew (branches_of branches.now) }
    ensures { IfOk result (λ v. branches_of v.items
        ≡ branches_with_atoms schema.now (branches_of branches.now)) }
{
    let mut resolved = Vec::with_capacity(alloc, branches.len())?;
    for branch in branches {
        push(&mut resolved, resolve_branch(alloc, schema, branch)?)?;
    }
    Ok(resolved)
}
