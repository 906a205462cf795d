//! Operators read from texts, and the schemas that they make one after the other.
ghost use Rattle.std.specs.Prelude.{◌≡◌, None, IsTrue, MatchOption, ⊤};
ghost use Rattle.smo_ops_types.specs.Operators.{operator_of, evolution_of, evolutions_of};
ghost use Rattle.smo_ops_spec.specs.After.{op_fault, schema_after, IsValid};
ghost use Rattle.smo_ops_spec.specs.After.{HasFewNodes, AllHaveFewNodes};
ghost use Rattle.smo_ops_spec.specs.Evolutions.{evolution_fault};

use cond_expr::{cond_size, expr_size};
use lexer::tokens;
use schema_catalog::Schema;
use smo_ops::{Op, after};
use smo_parse::parse_op;
use std::alloc::Global;

/// The operator that a text spells; none where it spells none.
pub(crate) fn operator(alloc: Global, text: &[u8]) -> Option<Op> {
    if text.len() > 1000 {
        return None;
    }
    let Ok(tokens) = tokens(alloc, text) else {
        return None;
    };
    match parse_op(alloc, &tokens, 0) {
        Ok((op, _)) => Some(op),
        Err(_) => None,
    }
}

/// Whether the expression or condition of the operator has at most 256 nodes.
pub(crate) fn is_small(op: &Op) -> bool
    ensures { IsTrue result → HasFewNodes (operator_of op.now) }
{
    match op {
        Op::PartitionTable { cond, .. } => cond_size(cond).nodes <= 256,
        Op::JoinTable { cond, .. } => cond_size(cond).nodes <= 256,
        Op::AddColumn { expr, .. } => expr_size(expr).nodes <= 256,
        _ => true,
    }
}

/// Whether each of the operators is small.
pub(crate) fn are_small(ops: &[Op]) -> bool
    ensures { IsTrue result → AllHaveFewNodes (evolutions_of ops.now) }
{
    match ops {
        [] => true,
        [first, rest @ ..] => {
            if !is_small(first) {
                return false;
            }
            are_small(rest)
        }
    }
}

/// The schema with no table.
pub(crate) fn nothing(alloc: Global) -> Schema
    ensures { IsValid result }
{
    Schema::empty(alloc)
}

/// The schema after the operator; none where it is refused.
pub(crate) fn next(alloc: Global, before: &Schema, op: &Op) -> Option<Schema>
    requires { IsValid before.now }
    ensures { MatchOption result ⊤ (λ s. (op_fault before.now (operator_of op.now) ≡ None)
        × (evolution_fault before.now (evolution_of op.now) ≡ None)
        × (s ≡ schema_after before.now (operator_of op.now)) × IsValid s) }
{
    if !is_small(op) {
        return None;
    }
    match after(alloc, before, op) {
        Ok(schema) => Some(schema),
        Err(_) => None,
    }
}

/// The schema after the operator that the text spells.
pub(crate) fn with(alloc: Global, before: &Schema, text: &[u8]) -> Option<Schema>
    requires { IsValid before.now }
    ensures { MatchOption result ⊤ (λ s. IsValid s) }
{
    match operator(alloc, text) {
        Some(op) => next(alloc, before, &op),
        None => None,
    }
}

/// r (a INT, b TEXT) and s (a INT, b TEXT).
pub(crate) fn two_tables(alloc: Global) -> Option<Schema>
    ensures { MatchOption result ⊤ (λ s. IsValid s) }
{
    let empty = nothing(alloc);
    match with(alloc, &empty, b"CREATE TABLE r (a INT, b TEXT)") {
        Some(one) => with(alloc, &one, b"CREATE TABLE s (a INT, b TEXT)"),
        None => None,
    }
}
