//! Dead tables: nothing of the newest version is made of them.

ghost use Rattle.std.specs.Prelude.{◌≡◌, ℕ, List, false, cond, OnOk};
ghost use Rattle.std.specs.BTreeSet.{contains};
ghost use Rattle.prima_base.specs.Order.{bytes_cmp, same};
ghost use Rattle.smo_ops_types.specs.Operators.{operator_of};
ghost use Rattle.smo_ops_widths.specs.Dead.{AreDeadBefore};

use crate::names::insert_copy;
use prima_base::{Name, NoMemory};
use smo_ops_types::Op;
use std::collections::BTreeSet;

fn remove(names: &mut BTreeSet<Name>, name: &Name)
    ensures { (n : List ℕ) → contains bytes_cmp names.new n
        ≡ cond (same name.now n) false (contains bytes_cmp names.old n) }
{
    let _was_there = names.remove(name);
}

/// Goes back over an operator, from tables that are dead after it to those that are before it: a
/// table that it drops is, and one is not where another is made of it under another name.
pub(crate) fn go_before(dead: &mut BTreeSet<Name>, op: &Op) -> Result<(), NoMemory>
    ensures { OnOk result (AreDeadBefore (operator_of op.now) (contains bytes_cmp dead.old)
        (contains bytes_cmp dead.new)) }
{
    match op {
        Op::DropTable { table } => insert_copy(dead, table),
        Op::Nop => Ok(()),
        Op::CreateTable { .. } => Ok(()),
        Op::AddColumn { .. } => Ok(()),
        Op::DropColumn { .. } => Ok(()),
        Op::RenameColumn { .. } => Ok(()),
        Op::RenameTable { table, .. } => {
            remove(dead, table);
            Ok(())
        }
        Op::CopyTable { table, .. } => {
            remove(dead, table);
            Ok(())
        }
        Op::PartitionTable { table, .. } => {
            remove(dead, table);
            Ok(())
        }
        Op::DecomposeTable { table, .. } => {
            remove(dead, table);
            Ok(())
        }
        Op::MergeTable { left, right, .. } => {
            remove(dead, left);
            remove(dead, right);
            Ok(())
        }
        Op::JoinTable { left, right, .. } => {
            remove(dead, left);
            remove(dead, right);
            Ok(())
        }
    }
}
