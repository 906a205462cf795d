//! The counts of a query, each within its limit.

ghost use Rattle.std.specs.Prelude.{◌≡◌, map};
ghost use Rattle.std.specs.List.{flat_map};
ghost use Rattle.cond_expr.specs.Seen.{tree, test};
ghost use Rattle.smo_ops_spec.specs.First.{first_refusal};
ghost use Rattle.smo_ops_spec.specs.Counts.{tree_counts, test_counts};
ghost use Rattle.temporal_lang_types.specs.Branches.{branch_of, branches_of};
ghost use Rattle.temporal_lang_types.specs.Queries.{query_of};
ghost use Rattle.temporal_lang_spec.specs.Checking.{output_counts, branch_counts, branches_counts};
ghost use Rattle.temporal_lang_spec.specs.Checking.{excess_of};
ghost use Rattle.std.specs.Result.{result_err};

use crate::{Branch, Query};
use cond_expr::{Cond, Expr, cond_size, expr_size};
use prima_base::What;
use prima_base::limits::{MAX_BRANCH_TABLES, MAX_BRANCHES, MAX_KEEPS, MAX_OUTPUTS};
use smo_ops::check_size;

fn check_output(expr: &Expr) -> Result<(), (What, u64)>
    ensures { result_err result ≡ first_refusal (tree_counts (tree expr.now)) }
{
    check_size(expr_size(expr))
}

fn check_condition(cond: &Cond) -> Result<(), (What, u64)>
    ensures { result_err result ≡ first_refusal (test_counts (test cond.now)) }
{
    check_size(cond_size(cond))
}

fn check_outputs(outs: &[Expr]) -> Result<(), (What, u64)>
    ensures { result_err result ≡ first_refusal (flat_map tree_counts (map tree outs.now)) }
{
    for out in outs {
        check_output(out)?;
    }
    Ok(())
}

// An output too many stands where it begins.
fn check_some_outputs(outs: &[Expr]) -> Result<(), (What, u64)>
    ensures { result_err result ≡ first_refusal (output_counts (map tree outs.now)) }
{
    check_outputs(&outs[..outs.len().min(MAX_OUTPUTS)])?;
    if outs.len() > MAX_OUTPUTS {
        return Err((What::Outputs, MAX_OUTPUTS as u64));
    }
    Ok(())
}

// The outputs of a branch, then its items, then its condition.
fn check_branch(branch: &Branch) -> Result<(), (What, u64)>
    ensures { result_err result ≡ first_refusal (branch_counts (branch_of branch.now)) }
{
    check_some_outputs(&branch.outs)?;
    if branch.from.len() > MAX_BRANCH_TABLES {
        return Err((What::Tables, MAX_BRANCH_TABLES as u64));
    }
    check_condition(&branch.cond)
}

fn check_each_branch(branches: &[Branch]) -> Result<(), (What, u64)>
    ensures { result_err result
        ≡ first_refusal (flat_map branch_counts (branches_of branches.now)) }
{
    for branch in branches {
        check_branch(branch)?;
    }
    Ok(())
}

// A branch too many stands where it begins.
fn check_branches(branches: &[Branch]) -> Result<(), (What, u64)>
    ensures { result_err result ≡ first_refusal (branches_counts (branches_of branches.now)) }
{
    check_each_branch(&branches[..branches.len().min(MAX_BRANCHES)])?;
    if branches.len() > MAX_BRANCHES {
        return Err((What::Branches, MAX_BRANCHES as u64));
    }
    Ok(())
}

/// The first count of a query, in written order, that is above its limit, and the limit: in a tree
/// the nodes (256), then the depth (32), then the parts of a CONCAT (8); the outputs (32) and the
/// items (8) of a branch, the branches (16) and the conditions of KEEP (8), each where one too many
/// begins. It takes no memory.
pub fn check_query_counts(query: &Query) -> Result<(), (What, u64)>
    ensures { result_err result ≡ excess_of (query_of query.now) }
{
    check_branches(&query.branches)?;
    if query.keep.len() > MAX_KEEPS {
        return Err((What::Keeps, MAX_KEEPS as u64));
    }
    Ok(())
}
