//! Writing changes and what a command does.

ghost use Rattle.std.specs.Prelude.{◌≡◌, ◌<◌, ◌^◌, ◌++◌, ◌∷◌, [], length, OnOk};
ghost use Rattle.std.specs.List.{flat_map, AllByRecursion};
ghost use Rattle.prima_base.specs.Bytes.{IsName};
ghost use Rattle.prima_base.specs.Columns.{IsValid};
ghost use Rattle.cond_expr.specs.Seen.{test};
ghost use Rattle.smo_ops_types.specs.Changes.{change_of, changes_of, set_of_expr, sets_of};
ghost use Rattle.smo_ops_types.specs.Changes.{insertion};
ghost use Rattle.smo_ops_types.specs.Changes.{deletion, update};
ghost use Rattle.smo_ops_types.specs.Commands.{changing, evolving};
ghost use Rattle.smo_ops_types.specs.Operators.{evolution_of, evolutions_of};
ghost use Rattle.command_codec_spec.specs.Encoding.{cell_bytes, set_bytes, list_bytes};
ghost use Rattle.command_codec_spec.specs.Encoding.{change_bytes};
ghost use Rattle.command_codec_spec.specs.Encoding.{body_bytes, name_bytes, test_bytes};
ghost use Rattle.command_codec_spec.specs.Valid.{IsWritableTree, TestFits, TreeNamed};
ghost use Rattle.command_codec_spec.specs.Valid.{TestNamed, IsWritableChange, IsWritableBody};
ghost use Rattle.command_codec_spec.specs.Valid.{ChangeNamed, BodyNamed};

use crate::operator_writer::{tagged_name, write_op, write_ops};
use crate::part::{put, put_u32, write_name, write_value};
use crate::tree_writer::{write_cond, write_expr};
use cond_expr::{Cond, Expr};
use prima_base::{Name, NoMemory, Value};
use smo_ops_types::{Change, Op};

// A column's name and its value.
fn write_cell(out: &mut Vec<u8>, cell: &(Name, Value)) -> Result<(), NoMemory>
    ensures ok { OnOk result (out.new.items ≡ out.old.items ++ cell_bytes cell.now) }
    ensures name { OnOk result (IsName cell.now.0) }
    ensures value { OnOk result (IsValid cell.now.1) }
{
    write_name(out, &cell.0)?;
    write_value(out, &cell.1)?;
    Ok(())
}

// Cells, one after the other.
fn write_each_cell(out: &mut Vec<u8>, cells: &[(Name, Value)]) -> Result<(), NoMemory>
    ensures ok { OnOk result (out.new.items ≡ out.old.items ++ flat_map cell_bytes cells.now) }
    ensures named { OnOk result (AllByRecursion (λ c. IsName c.0 × IsValid c.1) cells.now) }
{
    for cell in cells {
        write_cell(out, cell)?;
    }
    Ok(())
}

// INSERT.
fn write_insert(out: &mut Vec<u8>, table: &Name, cells: &[(Name, Value)]) -> Result<(), NoMemory>
    requires { length cells.now < 2 ^ 32 }
    ensures ok { OnOk result (out.new.items ≡ out.old.items
        ++ change_bytes (insertion table.now cells.now)) }
    ensures named { OnOk result (ChangeNamed (insertion table.now cells.now)) }
{
    tagged_name(out, 0, table)?;
    put_u32(out, cells.len() as u32)?;
    write_each_cell(out, cells)?;
    Ok(())
}

// DELETE.
fn write_delete(out: &mut Vec<u8>, table: &Name, cond: &Cond) -> Result<(), NoMemory>
    requires { TestFits (test cond.now) }
    ensures ok { OnOk result (out.new.items ≡ out.old.items
        ++ change_bytes (deletion table.now (test cond.now))) }
    ensures named { OnOk result (ChangeNamed (deletion table.now (test cond.now))) }
{
    tagged_name(out, 1, table)?;
    write_cond(out, cond)?;
    Ok(())
}

// A column's name and what it is set to.
fn write_set(out: &mut Vec<u8>, set: &(Name, Expr)) -> Result<(), NoMemory>
    requires { IsWritableTree (set_of_expr set.now).1 }
    ensures ok { OnOk result (out.new.items ≡ out.old.items ++ set_bytes (set_of_expr set.now)) }
    ensures name { OnOk result (IsName (set_of_expr set.now).0) }
    ensures value { OnOk result (TreeNamed (set_of_expr set.now).1) }
{
    write_name(out, &set.0)?;
    write_expr(out, &set.1)?;
    Ok(())
}

// What columns are set to, one after the other.
fn write_each_set(out: &mut Vec<u8>, sets: &[(Name, Expr)]) -> Result<(), NoMemory>
    requires { AllByRecursion (λ s. IsWritableTree s.1) (sets_of sets.now) }
    ensures ok { OnOk result (out.new.items ≡ out.old.items
        ++ flat_map set_bytes (sets_of sets.now)) }
    ensures named { OnOk result (AllByRecursion (λ s. IsName s.0 × TreeNamed s.1)
        (sets_of sets.now)) }
{
    for set in sets {
        write_set(out, set)?;
    }
    Ok(())
}

// What columns are set to, with their count before them.
fn write_sets(out: &mut Vec<u8>, sets: &[(Name, Expr)]) -> Result<(), NoMemory>
    requires counted { length sets.now < 2 ^ 32 }
    requires writable { AllByRecursion (λ s. IsWritableTree s.1) (sets_of sets.now) }
    ensures ok { OnOk result (out.new.items ≡ out.old.items
        ++ list_bytes 4 set_bytes (sets_of sets.now)) }
    ensures named { OnOk result (AllByRecursion (λ s. IsName s.0 × TreeNamed s.1)
        (sets_of sets.now)) }
{
    put_u32(out, sets.len() as u32)?;
    write_each_set(out, sets)?;
    Ok(())
}

// UPDATE.
fn write_update(
    out: &mut Vec<u8>,
    table: &Name,
    sets: &[(Name, Expr)],
    cond: &Cond,
) -> Result<(), NoMemory>
    requires { IsWritableChange (update table.now (sets_of sets.now) (test cond.now)) }
    ensures ok { OnOk result (out.new.items ≡ out.old.items
        ++ change_bytes (update table.now (sets_of sets.now) (test cond.now))) }
    ensures named { OnOk result (ChangeNamed (update table.now (sets_of sets.now)
        (test cond.now))) }
{
    tagged_name(out, 2, table)?;
    write_sets(out, sets)?;
    write_cond(out, cond)?;
    Ok(())
}

// A change.
fn write_change(out: &mut Vec<u8>, change: &Change) -> Result<(), NoMemory>
    requires { IsWritableChange (change_of change.now) }
    ensures ok { OnOk result (out.new.items ≡ out.old.items
        ++ change_bytes (change_of change.now)) }
    ensures named { OnOk result (ChangeNamed (change_of change.now)) }
{
    match change {
        Change::Insert { table, cells } => write_insert(out, table, cells),
        Change::Delete { table, cond } => write_delete(out, table, cond),
        Change::Update { table, sets, cond } => write_update(out, table, sets, cond),
    }
}

// Changes, one after the other.
fn write_each_change(out: &mut Vec<u8>, changes: &[Change]) -> Result<(), NoMemory>
    requires { AllByRecursion IsWritableChange (changes_of changes.now) }
    ensures ok { OnOk result (out.new.items ≡ out.old.items
        ++ flat_map change_bytes (changes_of changes.now)) }
    ensures named { OnOk result (AllByRecursion ChangeNamed (changes_of changes.now)) }
{
    for change in changes {
        write_change(out, change)?;
    }
    Ok(())
}

// Changes, with their count before them.
fn write_changes(out: &mut Vec<u8>, changes: &[Change]) -> Result<(), NoMemory>
    requires counted { length changes.now < 2 ^ 32 }
    requires writable { AllByRecursion IsWritableChange (changes_of changes.now) }
    ensures ok { OnOk result (out.new.items ≡ out.old.items
        ++ list_bytes 4 change_bytes (changes_of changes.now)) }
    ensures named { OnOk result (AllByRecursion ChangeNamed (changes_of changes.now)) }
{
    put_u32(out, changes.len() as u32)?;
    write_each_change(out, changes)?;
    Ok(())
}

/// Writes changes as what a command does, after what is there.
pub(crate) fn write_changing(out: &mut Vec<u8>, changes: &[Change]) -> Result<(), NoMemory>
    requires { IsWritableBody (changing (changes_of changes.now)) }
    ensures ok { OnOk result (out.new.items
        ≡ out.old.items ++ body_bytes (changing (changes_of changes.now))) }
    ensures named { OnOk result (BodyNamed (changing (changes_of changes.now))) }
{
    put(out, &[0])?;
    write_changes(out, changes)?;
    Ok(())
}

/// Writes an operator and its inverse as what a command does, after what is there.
pub(crate) fn write_evolving(out: &mut Vec<u8>, op: &Op, inverse: &[Op]) -> Result<(), NoMemory>
    requires { IsWritableBody (evolving (evolution_of op.now) (evolutions_of inverse.now)) }
    ensures ok { OnOk result (out.new.items ≡ out.old.items
        ++ body_bytes (evolving (evolution_of op.now) (evolutions_of inverse.now))) }
    ensures named { OnOk result (BodyNamed
        (evolving (evolution_of op.now) (evolutions_of inverse.now))) }
{
    put(out, &[1])?;
    write_op(out, op)?;
    write_ops(out, inverse)?;
    Ok(())
}
