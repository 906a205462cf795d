ghost use Rattle.std.specs.Prelude.{◌≡◌, ℕ, List, map, IfOk};
ghost use Rattle.cond_expr.specs.Trees.{Tree, Filling, fill, fill_test};
ghost use Rattle.cond_expr.specs.Seen.{tree, test};

use crate::{ColRef, Cond, Expr};
use prima_base::NoMemory;
use std::alloc::Global;

/// What is put for each reference of a tree.
pub trait Fill {
    /// What is put, as a function of whose column the reference names, and of the column's name.
    ghost puts: { Self → Filling };

    /// What is put for the reference. The one error is that there was no memory for it.
    fn put(&self, alloc: Global, reference: &ColRef) -> Result<Expr, NoMemory>
        ensures { IfOk result (λ e. tree e
            ≡ puts self.now reference.now.whose reference.now.name) };
}

/// The expression in which each reference is replaced by what is put for it: substitution, all at
/// once. It fails only when out of memory, or where `put` does.
#[cycle(fill)]
pub fn fill_expr<F: Fill>(alloc: Global, by: &F, expr: &Expr) -> Result<Expr, NoMemory>
    ensures { IfOk result (λ e. tree e ≡ fill (F.puts by.now) (tree expr.now)) }
{
    match expr {
        Expr::Col(reference) => by.put(alloc, reference),
        Expr::Const(value) => Ok(Expr::Const(value.copy()?)),
        Expr::Length(part) => Ok(Expr::Length(Box::new(alloc, fill_expr(alloc, by, part)?)?)),
        Expr::Concat(parts) => Ok(Expr::Concat(fill_exprs(alloc, by, parts)?)),
        Expr::Case(cond, first, second) => {
            let cond = Box::new(alloc, fill_cond(alloc, by, cond)?)?;
            let first = Box::new(alloc, fill_expr(alloc, by, first)?)?;
            let second = Box::new(alloc, fill_expr(alloc, by, second)?)?;
            Ok(Expr::Case(cond, first, second))
        }
    }
}

#[cycle(fill)]
fn fill_exprs<F: Fill>(alloc: Global, by: &F, parts: &[Expr]) -> Result<Vec<Expr>, NoMemory>
    ensures { IfOk result (λ v. map tree v.items
        ≡ map (fill (F.puts by.now)) (map tree parts.now)) }
{
    let mut filled = Vec::with_capacity(alloc, parts.len())?;
    for part in parts {
        filled.push(fill_expr(alloc, by, part)?)?;
    }
    Ok(filled)
}

/// The condition in which each reference is replaced by what is put for it: substitution, all at
/// once. It fails only when out of memory, or where `put` does.
#[cycle(fill)]
pub fn fill_cond<F: Fill>(alloc: Global, by: &F, cond: &Cond) -> Result<Cond, NoMemory>
    ensures { IfOk result (λ c. test c ≡ fill_test (F.puts by.now) (test cond.now)) }
{
    match cond {
        Cond::False => Ok(Cond::False),
        Cond::True => Ok(Cond::True),
        Cond::Cmp(op, first, second) => {
            let first = Box::new(alloc, fill_expr(alloc, by, first)?)?;
            let second = Box::new(alloc, fill_expr(alloc, by, second)?)?;
            Ok(Cond::Cmp(*op, first, second))
        }
        Cond::And(parts) => Ok(Cond::And(fill_conds(alloc, by, parts)?)),
        Cond::Or(parts) => Ok(Cond::Or(fill_conds(alloc, by, parts)?)),
        Cond::Not(part) => Ok(Cond::Not(Box::new(alloc, fill_cond(alloc, by, part)?)?)),
    }
}

#[cycle(fill)]
fn fill_conds<F: Fill>(alloc: Global, by: &F, parts: &[Cond]) -> Result<Vec<Cond>, NoMemory>
    ensures { IfOk result (λ v. map test v.items
        ≡ map (fill_test (F.puts by.now)) (map test parts.now)) }
{
    let mut filled = Vec::with_capacity(alloc, parts.len())?;
    for part in parts {
        filled.push(fill_cond(alloc, by, part)?)?;
    }
    Ok(filled)
}
