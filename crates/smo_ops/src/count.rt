ghost use Rattle.std.specs.Prelude.{◌≡◌, ◌∷◌, [], OnOk};
ghost use Rattle.std.specs.Result.{result_err};
ghost use Rattle.std.specs.List.{flat_map};
ghost use Rattle.prima_base.specs.declared.refusal.What.TheVariants.{Nodes, Depth, Parts, Changes};
ghost use Rattle.prima_base.specs.declared.refusal.What.TheVariants.{Inverse};
ghost use Rattle.cond_expr.specs.Seen.{tree, test};
ghost use Rattle.cond_expr.specs.Constants.{HasValid};
ghost use Rattle.smo_ops_spec.specs.ValidValues.{CellsHold, SetsHold, ChangeHolds, ChangesHold};
ghost use Rattle.smo_ops_spec.specs.ValidValues.{OperatorHolds, OperatorsHold};
ghost use Rattle.smo_ops_spec.specs.ValidValues.{AllOperatorsHold, BodyHolds};
ghost use Rattle.smo_ops_types.specs.Operators.{operator_of, operators_of};
ghost use Rattle.smo_ops_types.specs.Operators.{evolution_of, evolutions_of};
ghost use Rattle.smo_ops_types.specs.Changes.{change_of, changes_of, sets_of};
ghost use Rattle.smo_ops_types.specs.Commands.{changing, evolving, body_of};
ghost use Rattle.smo_ops_spec.specs.First.{first_refusal};
ghost use Rattle.smo_ops_spec.specs.Counts.{at_most, tree_counts, test_counts, set_counts};
ghost use Rattle.smo_ops_spec.specs.Counts.{change_counts, operator_counts, first_excess};

use cond_expr::{Cond, Expr, TreeSize, cond_size, expr_size};
use prima_base::limits::{MAX_CHANGES, MAX_DEPTH, MAX_INVERSE, MAX_NODES, MAX_PARTS};
use prima_base::{Name, Value, What};
use smo_ops_types::{Body, Change, Command, Op};

/// Whether a tree's nodes, depth and parts are within their limits: else the first that is not,
/// with its limit. It takes no memory.
pub fn check_size(size: TreeSize) -> Result<(), (What, u64)>
    ensures { result_err result ≡ first_refusal
        (at_most Nodes 256 size.nodes ∷ at_most Depth 32 size.depth ∷ at_most Parts 8 size.parts
        ∷ []) }
{
    if size.nodes > MAX_NODES {
        return Err((What::Nodes, MAX_NODES));
    }
    if size.depth > MAX_DEPTH {
        return Err((What::Depth, MAX_DEPTH));
    }
    if size.parts > MAX_PARTS {
        return Err((What::Parts, MAX_PARTS));
    }
    Ok(())
}

// Its walk meets each constant, and each is a valid value.
fn check_expr(expr: &Expr) -> Result<(), (What, u64)>
    ensures counts { result_err result ≡ first_refusal (tree_counts (tree expr.now)) }
    ensures constants { HasValid (tree expr.now) }
{
    check_size(expr_size(expr))
}

fn check_test(cond: &Cond) -> Result<(), (What, u64)>
    ensures { result_err result ≡ first_refusal (test_counts (test cond.now)) }
{
    check_size(cond_size(cond))
}

fn check_sets(sets: &[(Name, Expr)]) -> Result<(), (What, u64)>
    ensures counts { result_err result ≡ first_refusal (set_counts (sets_of sets.now)) }
    ensures constants { OnOk result (SetsHold (sets_of sets.now)) }
{
    for (_, expr) in sets {
        check_expr(expr)?;
    }
    Ok(())
}

// The values that are given are valid.
fn meet_cells(cells: &[(Name, Value)])
    ensures { CellsHold cells.now }
{
    for (_, value) in cells {
        let _valid = value.lend();
    }
}

fn check_change_counts(change: &Change) -> Result<(), (What, u64)>
    ensures counts { result_err result ≡ first_refusal (change_counts (change_of change.now)) }
    ensures constants { OnOk result (ChangeHolds (change_of change.now)) }
{
    match change {
        Change::Insert { cells, .. } => {
            meet_cells(cells);
            Ok(())
        }
        Change::Delete { cond, .. } => check_test(cond),
        Change::Update { sets, cond, .. } => {
            check_sets(sets)?;
            check_test(cond)
        }
    }
}

fn check_each_change(changes: &[Change]) -> Result<(), (What, u64)>
    ensures counts { result_err result ≡ first_refusal
        (flat_map change_counts (changes_of changes.now)) }
    ensures constants { OnOk result (ChangesHold (changes_of changes.now)) }
{
    for change in changes {
        check_change_counts(change)?;
    }
    Ok(())
}

fn check_op_counts(op: &Op) -> Result<(), (What, u64)>
    ensures counts { result_err result ≡ first_refusal (operator_counts (operator_of op.now)) }
    ensures constants { OperatorHolds (operator_of op.now) }
{
    match op {
        Op::PartitionTable { cond, .. } => check_test(cond),
        Op::JoinTable { cond, .. } => check_test(cond),
        Op::AddColumn { expr, .. } => check_expr(expr),
        _ => Ok(()),
    }
}

fn check_each_op(ops: &[Op]) -> Result<(), (What, u64)>
    ensures counts { result_err result ≡ first_refusal
        (flat_map operator_counts (operators_of ops.now)) }
    ensures constants { OnOk result (OperatorsHold (operators_of ops.now)) }
{
    for op in ops {
        check_op_counts(op)?;
    }
    Ok(())
}

// A member too many stands where it begins, after those before it.
fn check_changes(changes: &[Change]) -> Result<(), (What, u64)>
    ensures counts { result_err result ≡ first_excess (changing (changes_of changes.now)) }
    ensures constants { OnOk result (ChangesHold (changes_of changes.now)) }
{
    check_each_change(&changes[..changes.len().min(MAX_CHANGES)])?;
    if changes.len() > MAX_CHANGES {
        return Err((What::Changes, MAX_CHANGES as u64));
    }
    Ok(())
}

/// The first count of an operator and its inverse, in written order, that is above its limit, and
/// the limit, as of a command. Where none is, each constant that can come into a row has been met,
/// and is a valid value. It takes no memory.
pub fn check_evolve(op: &Op, inverse: &[Op]) -> Result<(), (What, u64)>
    ensures counts { result_err result ≡ first_excess
        (evolving (evolution_of op.now) (evolutions_of inverse.now)) }
    ensures constants { OnOk result (OperatorsHold (evolution_of op.now)
        × AllOperatorsHold (evolutions_of inverse.now)) }
{
    check_op_counts(op)?;
    check_each_op(&inverse[..inverse.len().min(MAX_INVERSE)])?;
    if inverse.len() > MAX_INVERSE {
        return Err((What::Inverse, MAX_INVERSE as u64));
    }
    Ok(())
}

/// The first count of a command, in written order, that is above its limit, and the limit: in a
/// tree the nodes (256), then the depth (32), then the parts of a CONCAT (8); the changes (65,536)
/// where one too many begins, and the operators of the inverse (8) likewise. Where none is, each
/// constant that can come into a row has been met, and is a valid value. It takes no memory.
pub fn check_counts(command: &Command) -> Result<(), (What, u64)>
    ensures counts { result_err result ≡ first_excess (body_of command.now.1) }
    ensures constants { OnOk result (BodyHolds (body_of command.now.1)) }
{
    match command.body() {
        Body::Changes(changes) => check_changes(changes),
        Body::Evolve { op, inverse } => check_evolve(op, inverse),
    }
}
