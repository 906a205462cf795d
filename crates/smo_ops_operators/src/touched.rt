ghost use Rattle.std.specs.Prelude.{◌≡◌, slice_get};
ghost use Rattle.std.specs.Option.{option_copied};
ghost use Rattle.schema_catalog.specs.Tables.{Tables};
ghost use Rattle.smo_ops_types.specs.Operators.{operator_of};
ghost use Rattle.smo_ops_spec.specs.OperatorTable.{line, made_names};
ghost use Rattle.smo_ops_spec.specs.Touching.{these_names, made_of};

use crate::name::{Made, none, one, two};
use smo_ops_types::Op;

/// The tables that the operator makes: these, and no others. It takes no memory.
pub fn made(op: &Op) -> Made<'_>
    ensures first { (tables : Tables) → option_copied result.first
        ≡ slice_get (made_names (line tables (operator_of op.now)).made) 0 }
    ensures second { (tables : Tables) → option_copied result.second
        ≡ slice_get (made_names (line tables (operator_of op.now)).made) 1 }
    ensures names { (tables : Tables) → made_names (line tables (operator_of op.now)).made
        ≡ these_names (option_copied result.first) (option_copied result.second) }
{
    match op {
        Op::Nop => none(),
        Op::CreateTable { table, .. } => one(table),
        Op::DropTable { .. } => none(),
        Op::RenameTable { into, .. } => one(into),
        Op::CopyTable { into, .. } => one(into),
        Op::MergeTable { into, .. } => one(into),
        Op::PartitionTable { yes, no, .. } => two(yes, no),
        Op::DecomposeTable { left, right, .. } => two(left, right),
        Op::JoinTable { into, .. } => one(into),
        Op::AddColumn { table, .. } => one(table),
        Op::DropColumn { table, .. } => one(table),
        Op::RenameColumn { table, .. } => one(table),
    }
}

/// The tables that the operator consumes: those of them that it does not make are gone after it. It
/// takes no memory.
pub fn consumed(op: &Op) -> Made<'_>
    ensures first { (tables : Tables) → option_copied result.first
        ≡ slice_get (line tables (operator_of op.now)).consumed 0 }
    ensures second { (tables : Tables) → option_copied result.second
        ≡ slice_get (line tables (operator_of op.now)).consumed 1 }
    ensures names { (tables : Tables) → (line tables (operator_of op.now)).consumed
        ≡ these_names (option_copied result.first) (option_copied result.second) }
{
    match op {
        Op::Nop => none(),
        Op::CreateTable { .. } => none(),
        Op::DropTable { table } => one(table),
        Op::RenameTable { table, .. } => one(table),
        Op::CopyTable { .. } => none(),
        Op::MergeTable { left, right, .. } => two(left, right),
        Op::PartitionTable { table, .. } => one(table),
        Op::DecomposeTable { table, .. } => one(table),
        Op::JoinTable { left, right, .. } => two(left, right),
        Op::AddColumn { table, .. } => one(table),
        Op::DropColumn { table, .. } => one(table),
        Op::RenameColumn { table, .. } => one(table),
    }
}

/// The tables of whose rows the operator makes what it makes, in the order in which it names them:
/// DROP TABLE names one, and makes nothing of it. It takes no memory.
pub fn made_of(op: &Op) -> Made<'_>
    ensures first { option_copied result.first ≡ slice_get (made_of (operator_of op.now)) 0 }
    ensures second { option_copied result.second ≡ slice_get (made_of (operator_of op.now)) 1 }
    ensures names { made_of (operator_of op.now)
        ≡ these_names (option_copied result.first) (option_copied result.second) }
{
    match op {
        Op::Nop => none(),
        Op::CreateTable { .. } => none(),
        Op::DropTable { .. } => none(),
        Op::RenameTable { table, .. } => one(table),
        Op::CopyTable { table, .. } => one(table),
        Op::MergeTable { left, right, .. } => two(left, right),
        Op::PartitionTable { table, .. } => one(table),
        Op::DecomposeTable { table, .. } => one(table),
        Op::JoinTable { left, right, .. } => two(left, right),
        Op::AddColumn { table, .. } => one(table),
        Op::DropColumn { table, .. } => one(table),
        Op::RenameColumn { table, .. } => one(table),
    }
}
