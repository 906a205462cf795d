ghost use Rattle.std.specs.Prelude.{◌≡◌, ◌+◌, ◌<◌, ◌≤◌, ◌^◌, None, map, length};
ghost use Rattle.std.specs.List.{flat_map};
ghost use Rattle.cond_expr.specs.Seen.{tree, test};
ghost use Rattle.cond_expr.specs.Sizes.{nodes_of, test_nodes};
ghost use Rattle.cond_expr.specs.Kinds.{kinds_of};
ghost use Rattle.cond_expr.specs.Faults.{references, test_references, first_unknown};
ghost use Rattle.temporal_lang_types.specs.Branches.{branch_of, branches_of};
ghost use Rattle.temporal_lang_spec.specs.Atoms.{atom_kinds};
ghost use Rattle.prima_base.specs.Faults.{IsTested};
ghost use Rattle.temporal_lang_spec.specs.Checking.{typing_tests, outputs_nodes, branch_references};
ghost use Rattle.temporal_lang_spec.specs.Checking.{branch_nodes};
ghost use Rattle.smo_ops_spec.specs.First.{first_refusal};
ghost use Rattle.temporal_lang_spec.specs.Resolved.{AreSmall, IsSmall, AllSmall, HaveFew, AllKnown};
ghost use Rattle.temporal_lang.specs.Typings.{IsTyped, IsTypedTest, OutputsTyped, BranchTyped};
ghost use Rattle.temporal_lang.specs.Typings.{BranchesTyped};

use crate::arity::check_arities;
use crate::atom::columns_of_items;
use crate::list::{push, with_room};
use crate::{Branch, QueryFault};
use cond_expr::{Column, Cond, Expr, TypedExpr, typed_cond, typed_expr};
use prima_base::{ColType, Refusal};
use schema_catalog::Schema;
use std::alloc::Global;

// The types of some outputs, and the place of the node after what was typed.
#[derive(Drop)]
pub(crate) struct Typed {
    kinds: Vec<ColType>,
    next: u32,
}

// The type of an expression whose root is node `at`, and how many nodes it has; or the place of its
// first node that has no type.
fn type_expr(expr: &Expr, columns: &[Column], at: u32) -> Result<TypedExpr, u32>
    requires small { nodes_of (tree expr.now) ≤ 256 }
    requires room { at + nodes_of (tree expr.now) < 2 ^ 32 }
    requires known { first_unknown (kinds_of columns.now) (references (tree expr.now)) ≡ None }
    ensures { IsTyped (kinds_of columns.now) at (tree expr.now) result }
{
    match typed_expr(expr, columns) {
        Ok(typed) => Ok(typed),
        Err(place) => Err(at + place),
    }
}

// How many nodes a condition has whose root is node `at` and all of whose nodes are typed, or the
// place of its first node that is not.
fn type_cond(cond: &Cond, columns: &[Column], at: u32) -> Result<u32, u32>
    requires small { test_nodes (test cond.now) ≤ 256 }
    requires room { at + test_nodes (test cond.now) < 2 ^ 32 }
    requires known { first_unknown (kinds_of columns.now) (test_references (test cond.now)) ≡ None }
    ensures { IsTypedTest (kinds_of columns.now) at (test cond.now) result }
{
    match typed_cond(cond, columns) {
        Ok(nodes) => Ok(nodes),
        Err(place) => Err(at + place),
    }
}

// The outputs one after the other, the first of which has its root at node `at`.
fn type_outputs(
    alloc: Global,
    outs: &[Expr],
    columns: &[Column],
    at: u32,
) -> Result<Typed, QueryFault>
    requires small { AreSmall (map tree outs.now) }
    requires room { at + outputs_nodes (map tree outs.now) < 2 ^ 31 }
    requires known { first_unknown (kinds_of columns.now) (flat_map references (map tree outs.now))
        ≡ None }
    ensures { OutputsTyped (kinds_of columns.now) at (map tree outs.now) result }
{
    let mut kinds = with_room(alloc, outs.len())?;
    let mut next = at;
    for out in outs {
        let typed = match type_expr(out, columns, next) {
            Ok(typed) => typed,
            Err(place) => return Err(QueryFault::Refused(Refusal::WrongType(place))),
        };
        push(&mut kinds, typed.kind)?;
        next += typed.nodes;
    }
    Ok(Typed { kinds, next })
}

// A branch whose references are to atoms and whose first node is node `at`: its outputs, and then
// its condition.
fn type_branch(
    alloc: Global,
    schema: &Schema,
    branch: &Branch,
    at: u32,
) -> Result<Typed, QueryFault>
    requires few { length branch.now.from.items ≤ 8 }
    requires small { IsSmall (branch_of branch.now) }
    requires room { at + branch_nodes (branch_of branch.now) < 2 ^ 31 }
    requires known { first_unknown (atom_kinds schema.now branch.now.from.items)
        (branch_references (branch_of branch.now)) ≡ None }
    ensures { BranchTyped (atom_kinds schema.now branch.now.from.items) at (branch_of branch.now)
        result }
{
    let columns = columns_of_items(alloc, schema, &branch.from)?;
    let typed = type_outputs(alloc, &branch.outs, &columns, at)?;
    match type_cond(&branch.cond, &columns, typed.next) {
        Ok(nodes) => Ok(Typed {
            kinds: typed.kinds,
            next: typed.next + nodes,
        }),
        Err(place) => Err(QueryFault::Refused(Refusal::WrongType(place))),
    }
}

/// The types of each branch's outputs. Places count nodes through all branches.
pub(crate) fn type_branches(
    alloc: Global,
    schema: &Schema,
    branches: &[Branch],
) -> Result<Vec<Vec<ColType>>, QueryFault>
    requires count { length branches.now ≤ 16 }
    requires few { HaveFew (branches_of branches.now) }
    requires small { AllSmall (branches_of branches.now) }
    requires known { AllKnown schema.now (branches_of branches.now) }
    ensures { BranchesTyped schema.now (branches_of branches.now) result }
{
    let mut kinds = with_room(alloc, branches.len())?;
    let mut at = 0u32;
    for branch in branches {
        let typed = type_branch(alloc, schema, branch, at)?;
        at = typed.next;
        push(&mut kinds, typed.kinds)?;
    }
    Ok(kinds)
}

/// Types, branch by branch, and then the outputs of each branch beside the first's.
pub(crate) fn check_typing(
    alloc: Global,
    schema: &Schema,
    branches: &[Branch],
) -> Result<(), QueryFault>
    requires count { length branches.now ≤ 16 }
    requires few { HaveFew (branches_of branches.now) }
    requires small { AllSmall (branches_of branches.now) }
    requires known { AllKnown schema.now (branches_of branches.now) }
    ensures { IsTested (first_refusal (typing_tests schema.now (branches_of branches.now))) result }
{
    let kinds = type_branches(alloc, schema, branches)?;
    check_arities(&kinds)
}
