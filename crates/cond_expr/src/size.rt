ghost use Rattle.std.specs.Prelude.{◌≡◌, ◌+◌, min, max, map};
ghost use Rattle.cond_expr.specs.Seen.{tree, test, trees_of, tests_of};
ghost use Rattle.cond_expr.specs.Constants.{HasValid, HaveValid};
ghost use Rattle.cond_expr.specs.Sizes.{nodes_of, trees_nodes, test_nodes, tests_nodes, depth_of};
ghost use Rattle.cond_expr.specs.Sizes.{trees_depth, test_depth, tests_depth, count_of, longest_of};
ghost use Rattle.cond_expr.specs.Sizes.{trees_longest, test_longest, tests_longest};

use crate::{Cond, Expr, TreeSize};

// No tree at all.
fn nothing() -> TreeSize
    ensures nodes { result.nodes ≡ 0 }
    ensures depth { result.depth ≡ 0 }
    ensures parts { result.parts ≡ 0 }
{
    TreeSize {
        nodes: 0,
        depth: 0,
        parts: 0,
    }
}

// Two trees side by side.
fn beside(a: TreeSize, b: TreeSize) -> TreeSize
    ensures nodes { result.nodes ≡ min (a.nodes + b.nodes) u64.MAX }
    ensures depth { result.depth ≡ max a.depth b.depth }
    ensures parts { result.parts ≡ max a.parts b.parts }
{
    TreeSize {
        nodes: a.nodes.saturating_add(b.nodes),
        depth: a.depth.max(b.depth),
        parts: a.parts.max(b.parts),
    }
}

// A node over its parts.
fn above(inner: TreeSize) -> TreeSize
    ensures nodes { result.nodes ≡ min (inner.nodes + 1) u64.MAX }
    ensures depth { result.depth ≡ min (inner.depth + 1) u64.MAX }
    ensures parts { result.parts ≡ inner.parts }
{
    TreeSize {
        nodes: inner.nodes.saturating_add(1),
        depth: inner.depth.saturating_add(1),
        parts: inner.parts,
    }
}

// The node of a list, over its parts.
fn above_list(inner: TreeSize, count: u64) -> TreeSize
    ensures nodes { result.nodes ≡ min (inner.nodes + 1) u64.MAX }
    ensures depth { result.depth ≡ min (inner.depth + 1) u64.MAX }
    ensures parts { result.parts ≡ max count inner.parts }
{
    let node = above(inner);
    TreeSize {
        nodes: node.nodes,
        depth: node.depth,
        parts: count.max(node.parts),
    }
}

/// The size of an expression, whose constants are valid values: its walk meets each. It takes no
/// memory.
#[cycle(sizes)]
pub fn expr_size(expr: &Expr) -> TreeSize
    ensures constants { HasValid (tree expr.now) }
    ensures nodes { result.nodes ≡ min (nodes_of (tree expr.now)) u64.MAX }
    ensures depth { result.depth ≡ min (depth_of (tree expr.now)) u64.MAX }
    ensures parts { result.parts ≡ min (longest_of (tree expr.now)) u64.MAX }
{
    match expr {
        Expr::Col(_) => above(nothing()),
        Expr::Const(constant) => {
            let _valid = constant.lend();
            above(nothing())
        }
        Expr::Length(part) => above(expr_size(part)),
        Expr::Concat(parts) => above_list(exprs_size(parts), parts.len() as u64),
        Expr::Case(cond, first, second) => {
            let cases = beside(expr_size(first), expr_size(second));
            above(beside(cond_size(cond), cases))
        }
    }
}

#[cycle(sizes)]
fn exprs_size(list: &[Expr]) -> TreeSize
    ensures constants { HaveValid (trees_of (map tree list.now)) }
    ensures nodes { result.nodes ≡ min (trees_nodes (trees_of (map tree list.now))) u64.MAX }
    ensures depth { result.depth ≡ min (trees_depth (trees_of (map tree list.now))) u64.MAX }
    ensures parts { result.parts ≡ min (trees_longest (trees_of (map tree list.now))) u64.MAX }
{
    let mut size = nothing();
    for part in list {
        size = beside(size, expr_size(part));
    }
    size
}

/// The size of a condition. It takes no memory.
#[cycle(sizes)]
pub fn cond_size(cond: &Cond) -> TreeSize
    ensures nodes { result.nodes ≡ min (test_nodes (test cond.now)) u64.MAX }
    ensures depth { result.depth ≡ min (test_depth (test cond.now)) u64.MAX }
    ensures parts { result.parts ≡ min (test_longest (test cond.now)) u64.MAX }
{
    match cond {
        Cond::False | Cond::True => above(nothing()),
        Cond::Cmp(_, left, right) => above(beside(expr_size(left), expr_size(right))),
        Cond::And(parts) => above(conds_size(parts)),
        Cond::Or(parts) => above(conds_size(parts)),
        Cond::Not(part) => above(cond_size(part)),
    }
}

#[cycle(sizes)]
fn conds_size(list: &[Cond]) -> TreeSize
    ensures nodes { result.nodes ≡ min (tests_nodes (tests_of (map test list.now))) u64.MAX }
    ensures depth { result.depth ≡ min (tests_depth (tests_of (map test list.now))) u64.MAX }
    ensures parts { result.parts ≡ min (tests_longest (tests_of (map test list.now))) u64.MAX }
{
    let mut size = nothing();
    for part in list {
        size = beside(size, cond_size(part));
    }
    size
}
