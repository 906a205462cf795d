//! The places of nodes in a statement of two queries: those of the second count the nodes of the
//! first.

ghost use Rattle.std.specs.Prelude.{◌≡◌, min, map};
ghost use Rattle.cond_expr.specs.Seen.{tree};
ghost use Rattle.temporal_lang_types.specs.Branches.{branches_of};
ghost use Rattle.temporal_lang_types.specs.Queries.{query_of};
ghost use Rattle.temporal_lang_spec.specs.Checking.{outputs_nodes};
ghost use Rattle.temporal_lang_spec.specs.PairFaults.{branches_nodes, behind};

use crate::{Branch, Query};
use cond_expr::{Expr, cond_size, expr_size};
use prima_base::Refusal;

fn count_in_outputs(outs: &[Expr]) -> u64
    ensures { result ≡ min (outputs_nodes (map tree outs.now)) u64.MAX }
{
    match outs {
        [] => 0,
        [out, others @ ..] => {
            let nodes = expr_size(out).nodes;
            nodes.saturating_add(count_in_outputs(others))
        }
    }
}

fn count_in_branches(branches: &[Branch]) -> u64
    ensures { result ≡ min (branches_nodes (branches_of branches.now)) u64.MAX }
{
    match branches {
        [] => 0,
        [branch, others @ ..] => {
            let outputs = count_in_outputs(&branch.outs);
            let nodes = outputs.saturating_add(cond_size(&branch.cond).nodes);
            nodes.saturating_add(count_in_branches(others))
        }
    }
}

/// How many nodes the trees of a query have, its outputs and its conditions. It takes no memory.
pub fn count_nodes(query: &Query) -> u64
    ensures { result ≡ min (branches_nodes (query_of query.now).branches) u64.MAX }
{
    count_in_branches(&query.branches)
}

/// The refusal of a query that stands behind so many nodes of its statement, of which the place of
/// an ill-typed node is counted. It takes no memory.
pub fn refusal_behind(nodes: u64, refusal: Refusal) -> Refusal
    ensures { result ≡ behind nodes refusal }
{
    match refusal {
        Refusal::WrongType(place) => {
            let counted = nodes.saturating_add(u64::from(place));
            Refusal::WrongType(counted.min(4294967295) as u32)
        }
        other => other,
    }
}
