//! Copies of queries and of what they are made of.

ghost use Rattle.std.specs.Prelude.{◌≡◌, IfOk, map};
ghost use Rattle.cond_expr.specs.Seen.{tree};
ghost use Rattle.temporal_lang_types.specs.Branches.{branch_of, branches_of};
ghost use Rattle.temporal_lang_types.specs.Queries.{query_of};

use crate::{Branch, Keep, Query};
use cond_expr::Expr;
use prima_base::{Name, NoMemory};
use std::alloc::Global;

fn copy_outputs(alloc: Global, outs: &[Expr]) -> Result<Vec<Expr>, NoMemory>
    ensures { IfOk result (λ v. map tree v.items ≡ map tree outs.now) }
{
    let mut copied = Vec::with_capacity(alloc, outs.len())?;
    for out in outs {
        copied.push(out.copy(alloc)?)?;
    }
    Ok(copied)
}

/// Equal items of a FROM. The one error is `NoMemory`, where memory runs out.
pub fn copy_items(alloc: Global, items: &[(Name, Name)]) -> Result<Vec<(Name, Name)>, NoMemory>
    ensures { IfOk result (λ v. v.items ≡ items.now) }
{
    let mut copied = Vec::with_capacity(alloc, items.len())?;
    for (table, alias) in items {
        copied.push((table.copy()?, alias.copy()?))?;
    }
    Ok(copied)
}

fn copy_branches(alloc: Global, branches: &[Branch]) -> Result<Vec<Branch>, NoMemory>
    ensures { IfOk result (λ v. branches_of v.items ≡ branches_of branches.now) }
{
    let mut copied = Vec::with_capacity(alloc, branches.len())?;
    for branch in branches {
        copied.push(branch.copy(alloc)?)?;
    }
    Ok(copied)
}

/// Equal conditions of KEEP. The one error is `NoMemory`, where memory runs out.
pub fn copy_keeps(alloc: Global, keep: &[Keep]) -> Result<Vec<Keep>, NoMemory>
    ensures { IfOk result (λ v. v.items ≡ keep.now) }
{
    let mut copied = Vec::with_capacity(alloc, keep.len())?;
    for condition in keep {
        copied.push(*condition)?;
    }
    Ok(copied)
}

impl Branch {
    /// An equal branch. The one error is `NoMemory`, where memory runs out.
    pub fn copy(&self, alloc: Global) -> Result<Branch, NoMemory>
        ensures { IfOk result (λ b. branch_of b ≡ branch_of self.now) }
    {
        Ok(Branch {
            outs: copy_outputs(alloc, &self.outs)?,
            from: copy_items(alloc, &self.from)?,
            cond: self.cond.copy(alloc)?,
        })
    }
}

impl Query {
    /// An equal query. The one error is `NoMemory`, where memory runs out.
    pub fn copy(&self, alloc: Global) -> Result<Query, NoMemory>
        ensures { IfOk result (λ q. query_of q ≡ query_of self.now) }
    {
        let branches = copy_branches(alloc, &self.branches)?;
        let keep = copy_keeps(alloc, &self.keep)?;
        Ok(Query {
            version: self.version,
            branches,
            when: self.when,
            keep,
        })
    }
}
