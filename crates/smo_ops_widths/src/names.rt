//! The tables that operators name: one that none of them names stays as it is.

ghost use Rattle.std.specs.Prelude.{◌≡◌, ℕ, List, [], ◌∷◌, true, false, not, cond, OnOk};
ghost use Rattle.std.specs.BTreeSet.{contains};
ghost use Rattle.prima_base.specs.Order.{bytes_cmp, same};
ghost use Rattle.smo_ops_types.specs.Operators.{operator_of};
ghost use Rattle.smo_ops_spec.specs.Preconditions.{among};
ghost use Rattle.smo_ops_widths.specs.Creating.{creates_one, LeavesOut};

use prima_base::{Name, NoMemory};
use smo_ops_types::Op;
use std::collections::BTreeSet;

/// Inserts the name, copied where it is not there already.
pub(crate) fn insert_copy(names: &mut BTreeSet<Name>, name: &Name) -> Result<(), NoMemory>
    ensures { OnOk result ((n : List ℕ) → contains bytes_cmp names.new n
        ≡ cond (same name.now n) true (contains bytes_cmp names.old n)) }
{
    if !names.contains(name) {
        let _is_new = names.insert(name.copy()?)?;
    }
    Ok(())
}

fn insert_two(names: &mut BTreeSet<Name>, first: &Name, second: &Name) -> Result<(), NoMemory>
    ensures { OnOk result ((n : List ℕ) → contains bytes_cmp names.new n ≡ false
        → (contains bytes_cmp names.old n ≡ false)
        × (among n (first.now ∷ second.now ∷ []) ≡ false)) }
{
    insert_copy(names, first)?;
    insert_copy(names, second)
}

fn insert_three(
    names: &mut BTreeSet<Name>,
    first: &Name,
    second: &Name,
    third: &Name,
) -> Result<(), NoMemory>
    ensures { OnOk result ((n : List ℕ) → contains bytes_cmp names.new n ≡ false
        → (contains bytes_cmp names.old n ≡ false)
        × (among n (first.now ∷ second.now ∷ third.now ∷ []) ≡ false)) }
{
    insert_two(names, first, second)?;
    insert_copy(names, third)
}

/// Inserts the tables that the operator names.
pub(crate) fn insert_named(names: &mut BTreeSet<Name>, op: &Op) -> Result<(), NoMemory>
    ensures { OnOk result ((n : List ℕ) → contains bytes_cmp names.new n ≡ false
        → (contains bytes_cmp names.old n ≡ false) × LeavesOut (operator_of op.now) n) }
{
    match op {
        Op::Nop => Ok(()),
        Op::CreateTable { table, .. } => insert_copy(names, table),
        Op::DropTable { table } => insert_copy(names, table),
        Op::RenameTable { table, into } => insert_two(names, table, into),
        Op::CopyTable { table, into } => insert_two(names, table, into),
        Op::MergeTable { left, right, into } => insert_three(names, left, right, into),
        Op::PartitionTable { table, yes, no, .. } => insert_three(names, table, yes, no),
        Op::DecomposeTable {
            table,
            left,
            right,
            ..
        } => insert_three(names, table, left, right),
        Op::JoinTable {
            left,
            right,
            into,
            ..
        } => insert_three(names, left, right, into),
        Op::AddColumn { table, .. } => insert_copy(names, table),
        Op::DropColumn { table, .. } => insert_copy(names, table),
        Op::RenameColumn { table, .. } => insert_copy(names, table),
    }
}

/// Whether the operator creates a table with one of these names.
pub(crate) fn creates_one(names: &BTreeSet<Name>, op: &Op) -> bool
    ensures { result ≡ creates_one (contains bytes_cmp names.now) (operator_of op.now) }
{
    match op {
        Op::CreateTable { table, .. } => names.contains(table),
        _ => false,
    }
}

/// Whether the operator creates a table that has none of these names.
pub(crate) fn creates_other(names: &BTreeSet<Name>, op: &Op) -> bool
    ensures { result ≡ creates_one (λ n. not (contains bytes_cmp names.now n)) (operator_of op.now) }
{
    match op {
        Op::CreateTable { table, .. } => !names.contains(table),
        _ => false,
    }
}
