//! References: the atom that one is to, and those of expressions and conditions, in written order.

ghost use Rattle.std.specs.Prelude.{◌≡◌, ◌++◌, OnOk, map};
ghost use Rattle.std.specs.List.{flat_map};
ghost use Rattle.cond_expr.specs.Seen.{tree, test, trees_of, tests_of};
ghost use Rattle.cond_expr.specs.Faults.{references, trees_references, test_references};
ghost use Rattle.cond_expr.specs.Faults.{tests_references};
ghost use Rattle.cond_expr.specs.References.{borrowed};

use crate::{ColRef, Cond, Expr, Whose};
use prima_base::NoMemory;

impl ColRef {
    ghost use Rattle.std.specs.Prelude.{◌≡◌};
    ghost use Rattle.cond_expr.specs.References.{is_to};

    /// Whether it names a column of this atom. It takes no memory.
    pub fn is_to(&self, atom: u32) -> bool
        ensures { result ≡ is_to atom self.now }
    {
        match &self.whose {
            Whose::Atom(own) => atom == *own,
            Whose::Free | Whose::Alias(_) => false,
        }
    }
}

// Puts the references of an expression, in written order, after what is there.
#[cycle(gathers)]
#[tactic(auto, using(crate::proofs::SeenLaws::tree_of_concat, crate::proofs::SeenLaws::tree_of_case))]
fn gather<'e>(into: &mut Vec<&'e ColRef>, expr: &'e Expr) -> Result<(), NoMemory>
    ensures { OnOk result (borrowed into.new.items ≡ borrowed into.old.items
        ++ references (tree expr.now)) }
{
    match expr {
        Expr::Col(reference) => {
            into.push(reference)?;
            Ok(())
        }
        Expr::Const(_) => Ok(()),
        Expr::Length(part) => gather(into, part),
        Expr::Concat(parts) => gather_list(into, parts),
        Expr::Case(cond, first, second) => {
            gather_cond(into, cond)?;
            gather(into, first)?;
            gather(into, second)
        }
    }
}

#[cycle(gathers)]
fn gather_list<'e>(into: &mut Vec<&'e ColRef>, list: &'e [Expr]) -> Result<(), NoMemory>
    ensures { OnOk result (borrowed into.new.items ≡ borrowed into.old.items
        ++ trees_references (trees_of (map tree list.now))) }
{
    for part in list {
        gather(into, part)?;
    }
    Ok(())
}

#[cycle(gathers)]
#[tactic(auto, using(crate::proofs::SeenLaws::test_of_and, crate::proofs::SeenLaws::test_of_or, crate::proofs::SeenLaws::test_of_cmp))]
fn gather_cond<'e>(into: &mut Vec<&'e ColRef>, cond: &'e Cond) -> Result<(), NoMemory>
    ensures { OnOk result (borrowed into.new.items ≡ borrowed into.old.items
        ++ test_references (test cond.now)) }
{
    match cond {
        Cond::False | Cond::True => Ok(()),
        Cond::Cmp(_, left, right) => {
            gather(into, left)?;
            gather(into, right)
        }
        Cond::And(parts) => gather_conds(into, parts),
        Cond::Or(parts) => gather_conds(into, parts),
        Cond::Not(part) => gather_cond(into, part),
    }
}

#[cycle(gathers)]
fn gather_conds<'e>(into: &mut Vec<&'e ColRef>, list: &'e [Cond]) -> Result<(), NoMemory>
    ensures { OnOk result (borrowed into.new.items ≡ borrowed into.old.items
        ++ tests_references (tests_of (map test list.now))) }
{
    for part in list {
        gather_cond(into, part)?;
    }
    Ok(())
}

fn gather_outputs<'e>(into: &mut Vec<&'e ColRef>, outs: &'e [Expr]) -> Result<(), NoMemory>
    ensures { OnOk result (borrowed into.new.items ≡ borrowed into.old.items
        ++ flat_map references (map tree outs.now)) }
{
    for out in outs {
        gather(into, out)?;
    }
    Ok(())
}

/// Puts the references of outputs and then of a condition, in written order, after what is there.
/// The one error is `NoMemory`, where memory runs out.
pub fn gather_references<'e>(
    into: &mut Vec<&'e ColRef>,
    outs: &'e [Expr],
    cond: &'e Cond,
) -> Result<(), NoMemory>
    ensures { OnOk result (borrowed into.new.items ≡ borrowed into.old.items
        ++ (flat_map references (map tree outs.now) ++ test_references (test cond.now))) }
{
    gather_outputs(into, outs)?;
    gather_cond(into, cond)
}
