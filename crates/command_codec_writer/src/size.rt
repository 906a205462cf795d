//! How many bytes a spelling has, up to `u64::MAX`.

ghost use Rattle.std.specs.Prelude.{◌≡◌, ◌+◌, ◌≤◌, map, min, length};
ghost use Rattle.std.specs.List.{flat_map};
ghost use Rattle.prima_base.specs.Columns.{IsValid};
ghost use Rattle.prima_base.specs.Order.{shown};
ghost use Rattle.cond_expr.specs.Seen.{tree, test, trees_of, tests_of};
ghost use Rattle.smo_ops_types.specs.Operators.{operator_of, evolution_of, evolutions_of};
ghost use Rattle.smo_ops_types.specs.Operators.{decompose_table};
ghost use Rattle.smo_ops_types.specs.Changes.{change_of, changes_of, sets_of};
ghost use Rattle.smo_ops_types.specs.Commands.{changing, evolving};
ghost use Rattle.command_codec_spec.specs.Encoding.{name_bytes, value_bytes, tree_bytes};
ghost use Rattle.command_codec_spec.specs.Encoding.{trees_bytes};
ghost use Rattle.command_codec_spec.specs.Encoding.{test_bytes, tests_bytes, column_bytes};
ghost use Rattle.command_codec_spec.specs.Encoding.{operator_bytes, evolution_bytes, cell_bytes};
ghost use Rattle.command_codec_spec.specs.Encoding.{set_bytes};
ghost use Rattle.command_codec_spec.specs.Encoding.{change_bytes, body_bytes};

use cond_expr::{Cond, Expr};
use prima_base::{ColType, Name, Val, Value};
use smo_ops_types::{Change, Op};

/// The bytes of a name; at most 64.
#[tactic(auto, using(crate::proofs::Lengths::lengths))]
pub fn name_size(name: &Name) -> u64
    ensures size { result ≡ length (name_bytes name.now) }
    ensures small { result ≤ 64 }
{
    name.bytes().len() as u64 + 1
}

// The bytes of a value; at most 4,099.
fn value_size(value: &Value) -> u64
    ensures size { result ≡ length (value_bytes value.now) }
    ensures small { result ≤ 4099 }
{
    borrowed_size(&value.lend())
}

/// The bytes of a value that is borrowed; at most 4,099.
#[tactic(auto, using(crate::proofs::Lengths::lengths))]
pub fn borrowed_size(value: &Val<'_>) -> u64
    requires { IsValid (shown value.now) }
    ensures size { result ≡ length (value_bytes (shown value.now)) }
    ensures small { result ≤ 4099 }
{
    match value {
        Val::Int(_) => 9,
        Val::Slice(bytes) => bytes.len() as u64 + 3,
        Val::Own(text) => text.bytes().len() as u64 + 3,
    }
}

// The bytes of an expression.
#[cycle(sizes)]
#[tactic(auto, using(crate::proofs::Lengths::lengths))]
fn expr_size(expr: &Expr) -> u64
    ensures { result ≡ min (length (tree_bytes (tree expr.now))) u64.MAX }
{
    match expr {
        Expr::Col(reference) => name_size(&reference.name) + 1,
        Expr::Const(value) => value_size(value) + 1,
        Expr::Length(part) => expr_size(part).saturating_add(1),
        Expr::Concat(parts) => exprs_size(parts).saturating_add(2),
        Expr::Case(cond, first, second) => {
            let cases = expr_size(first).saturating_add(expr_size(second));
            cond_size(cond).saturating_add(cases).saturating_add(1)
        }
    }
}

// The bytes of expressions, without their count.
#[cycle(sizes)]
#[tactic(auto, using(crate::proofs::Lengths::lengths))]
fn exprs_size(list: &[Expr]) -> u64
    ensures { result ≡ min (length (trees_bytes (trees_of (map tree list.now)))) u64.MAX }
{
    let mut size: u64 = 0;
    for part in list {
        size = size.saturating_add(expr_size(part));
    }
    size
}

// The bytes of a condition.
#[cycle(sizes)]
#[tactic(auto, using(crate::proofs::Lengths::lengths))]
fn cond_size(cond: &Cond) -> u64
    ensures { result ≡ min (length (test_bytes (test cond.now))) u64.MAX }
{
    match cond {
        Cond::False | Cond::True => 1,
        Cond::Cmp(_, first, second) => {
            let sides = expr_size(first).saturating_add(expr_size(second));
            sides.saturating_add(2)
        }
        Cond::And(parts) => conds_size(parts).saturating_add(3),
        Cond::Or(parts) => conds_size(parts).saturating_add(3),
        Cond::Not(part) => cond_size(part).saturating_add(1),
    }
}

// The bytes of conditions, without their count.
#[cycle(sizes)]
#[tactic(auto, using(crate::proofs::Lengths::lengths))]
fn conds_size(list: &[Cond]) -> u64
    ensures { result ≡ min (length (tests_bytes (tests_of (map test list.now)))) u64.MAX }
{
    let mut size: u64 = 0;
    for part in list {
        size = size.saturating_add(cond_size(part));
    }
    size
}

// The bytes of columns, without their count.
#[tactic(auto, using(crate::proofs::Lengths::lengths))]
fn columns_size(list: &[(Name, ColType)]) -> u64
    ensures { result ≡ min (length (flat_map column_bytes list.now)) u64.MAX }
{
    let mut size: u64 = 0;
    for item in list {
        size = size.saturating_add(name_size(&item.0) + 1);
    }
    size
}

// The bytes of names, without their count.
#[tactic(auto, using(crate::proofs::Lengths::lengths))]
fn names_size(list: &[Name]) -> u64
    ensures { result ≡ min (length (flat_map name_bytes list.now)) u64.MAX }
{
    let mut size: u64 = 0;
    for item in list {
        size = size.saturating_add(name_size(item));
    }
    size
}

// The bytes of DECOMPOSE TABLE.
#[tactic(auto, using(crate::proofs::Lengths::lengths))]
fn decomposed_size(
    table: &Name,
    left: &Name,
    left_columns: &[Name],
    right: &Name,
    right_columns: &[Name],
) -> u64
    ensures { result ≡ min (length (operator_bytes
        (decompose_table table.now left.now left_columns.now right.now right_columns.now)))
        u64.MAX }
{
    let columns = names_size(left_columns).saturating_add(names_size(right_columns));
    columns.saturating_add(name_size(table) + name_size(left) + name_size(right) + 3)
}

/// The bytes of an operator, up to `u64::MAX`.
#[tactic(auto, using(crate::proofs::Lengths::lengths))]
pub fn op_size(op: &Op) -> u64
    ensures { result ≡ min (length (operator_bytes (operator_of op.now))) u64.MAX }
{
    match op {
        Op::Nop => 1,
        Op::CreateTable { table, columns } => {
            columns_size(columns).saturating_add(name_size(table) + 2)
        }
        Op::DropTable { table } => name_size(table) + 1,
        Op::RenameTable { table, into } => name_size(table) + name_size(into) + 1,
        Op::CopyTable { table, into } => name_size(table) + name_size(into) + 1,
        Op::MergeTable { left, right, into } => {
            name_size(left) + name_size(right) + name_size(into) + 1
        }
        Op::PartitionTable {
            table,
            yes,
            cond,
            no,
        } => cond_size(cond).saturating_add(name_size(table) + name_size(yes) + name_size(no) + 1),
        Op::DecomposeTable {
            table,
            left,
            left_columns,
            right,
            right_columns,
        } => decomposed_size(table, left, left_columns, right, right_columns),
        Op::JoinTable {
            left,
            right,
            into,
            cond,
        } => cond_size(cond).saturating_add(
            name_size(left) + name_size(right) + name_size(into) + 1,
        ),
        Op::AddColumn {
            column,
            expr,
            table,
        } => expr_size(expr).saturating_add(name_size(table) + name_size(column) + 1),
        Op::DropColumn { column, table } => name_size(table) + name_size(column) + 1,
        Op::RenameColumn {
            column,
            table,
            into,
        } => name_size(table) + name_size(column) + name_size(into) + 1,
    }
}

/// The bytes of operators, without their count, up to `u64::MAX`.
#[tactic(auto, using(crate::proofs::Lengths::lengths))]
pub fn ops_size(list: &[Op]) -> u64
    ensures { result ≡ min (length (flat_map evolution_bytes (evolutions_of list.now))) u64.MAX }
{
    let mut size: u64 = 0;
    for item in list {
        size = size.saturating_add(op_size(item));
    }
    size
}

// The bytes of cells, without their count.
#[tactic(auto, using(crate::proofs::Lengths::lengths))]
fn cells_size(list: &[(Name, Value)]) -> u64
    ensures { result ≡ min (length (flat_map cell_bytes list.now)) u64.MAX }
{
    let mut size: u64 = 0;
    for item in list {
        size = size.saturating_add(name_size(&item.0) + value_size(&item.1));
    }
    size
}

// The bytes of what columns are set to, without their count.
#[tactic(auto, using(crate::proofs::Lengths::lengths))]
fn sets_size(list: &[(Name, Expr)]) -> u64
    ensures { result ≡ min (length (flat_map set_bytes (sets_of list.now))) u64.MAX }
{
    let mut size: u64 = 0;
    for item in list {
        let value = expr_size(&item.1);
        size = size.saturating_add(value.saturating_add(name_size(&item.0)));
    }
    size
}

// The bytes of a change.
#[tactic(auto, using(crate::proofs::Lengths::lengths))]
fn change_size(change: &Change) -> u64
    ensures { result ≡ min (length (change_bytes (change_of change.now))) u64.MAX }
{
    match change {
        Change::Insert { table, cells } => cells_size(cells).saturating_add(name_size(table) + 5),
        Change::Delete { table, cond } => cond_size(cond).saturating_add(name_size(table) + 1),
        Change::Update { table, sets, cond } => {
            let parts = sets_size(sets).saturating_add(cond_size(cond));
            parts.saturating_add(name_size(table) + 5)
        }
    }
}

// The bytes of changes, without their count.
#[tactic(auto, using(crate::proofs::Lengths::lengths))]
fn changes_size(list: &[Change]) -> u64
    ensures { result ≡ min (length (flat_map change_bytes (changes_of list.now))) u64.MAX }
{
    let mut size: u64 = 0;
    for item in list {
        size = size.saturating_add(change_size(item));
    }
    size
}

/// The bytes of changes as what a command does.
#[tactic(auto, using(crate::proofs::Lengths::lengths))]
pub(crate) fn changing_size(changes: &[Change]) -> u64
    ensures { result ≡ min (length (body_bytes (changing (changes_of changes.now)))) u64.MAX }
{
    changes_size(changes).saturating_add(5)
}

/// The bytes of an operator and its inverse as what a command does.
#[tactic(auto, using(crate::proofs::Lengths::lengths))]
pub(crate) fn evolving_size(op: &Op, inverse: &[Op]) -> u64
    ensures { result ≡ min (length (body_bytes
        (evolving (evolution_of op.now) (evolutions_of inverse.now)))) u64.MAX }
{
    let ops = op_size(op).saturating_add(ops_size(inverse));
    ops.saturating_add(5)
}
