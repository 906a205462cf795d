//! The parts of a condition that speak of one atom alone, tested on its rows before any join.

ghost use Rattle.std.specs.Prelude.{◌≡◌, ℕ, List, IfOk};
ghost use Rattle.std.specs.List.{filter};
ghost use Rattle.prima_base.specs.declared.timed_row.TimedRow.{TimedRow as OneRow};
ghost use Rattle.prima_base.specs.Timed.{entry_of, entries_of};
ghost use Rattle.cond_expr.specs.Trees.{Tree, Test};
ghost use Rattle.join_exec_spec.specs.Keeping.{meets_all, borrowed_tests, AllValid, AreOwnParts};
ghost use Rattle.join_exec_spec.specs.BorrowedOutputs.{BorrowedValues, RowsBorrow};
ghost use Rattle.cond_expr.specs.Parts.{parts as parts_of};
ghost use Rattle.join_exec_spec.specs.Blocks.{answered, IsPruned};
ghost use Rattle.join_exec_engine.specs.Atoms.{AtomsBorrow, block_of, blocks_of, AreNumbered};

use crate::atom::Atom;
use cond_expr::{Column, Cond};
use join_exec_levels::{all_met, is_settled};
use prima_base::NoMemory;
use prima_base_rows::TimedRows;
use std::alloc::Global;

// The parts all of whose references are among the columns.
fn own_parts<'c>(
    alloc: Global,
    columns: &[Column],
    parts: &[&'c Cond],
) -> Result<Vec<&'c Cond>, NoMemory>
    ensures { IfOk result (λ own. AreOwnParts columns.now (borrowed_tests parts.now)
        (borrowed_tests own.items)) }
{
    let mut own = Vec::new(alloc);
    for part in parts {
        if is_settled(alloc, columns, part, 0, columns.len())? {
            own.push(*part)?;
        }
    }
    Ok(own)
}

/// The rows that meet all of the conditions, in their order. They move down in place.
pub(crate) fn passing<'a>(
    alloc: Global,
    columns: &[Column],
    conds: &[&Cond],
    rows: TimedRows<'a>,
) -> Result<TimedRows<'a>, NoMemory>
    requires { AllValid (entries_of rows.items) }
    ensures { IfOk result (λ kept. kept.items
        ≡ filter (λ (t : OneRow). meets_all columns.now (borrowed_tests conds.now)
        (entry_of t).item) rows.entry.items) }
{
    let mut rows = rows;
    let mut kept = 0;
    let mut next = 0;
    'rows: while next < rows.len() {
        if all_met(alloc, conds, columns, rows.values(next))? {
            rows.swap(kept, next);
            kept += 1;
        }
        next += 1;
    }
    rows.truncate(kept);
    Ok(rows)
}

// The atom with those of its rows that meet the parts that speak of it alone.
fn pruned<'a>(alloc: Global, parts: &[&Cond], atom: Atom<'a>) -> Result<Atom<'a>, NoMemory>
    ensures borrowed { (which : BorrowedValues)
        → RowsBorrow which atom.entry.columns.items atom.entry.rows.items
        → IfOk result (λ a. RowsBorrow which a.columns.items a.rows.items) }
    ensures pruned { (m : ℕ) → IfOk result (λ a.
        IsPruned (borrowed_tests parts.now) (block_of m atom.entry) (block_of m a)) }
{
    let own = own_parts(alloc, &atom.columns, parts)?;
    if own.is_empty() {
        return Ok(atom);
    }
    let Atom {
        number,
        columns,
        rows,
    } = atom;
    let rows = passing(alloc, &columns, &own, rows)?;
    Ok(Atom {
        number,
        columns,
        rows,
    })
}

/// The atoms with those of their rows that meet the parts that speak of one atom alone.
pub(crate) fn pruned_atoms<'a>(
    alloc: Global,
    parts: &[&Cond],
    atoms: Vec<Atom<'a>>,
) -> Result<Vec<Atom<'a>>, NoMemory>
    requires { AreNumbered atoms.items }
    ensures numbered { IfOk result (λ r. AreNumbered r.items) }
    ensures borrowed { (which : BorrowedValues) → AtomsBorrow which atoms.entry.items
        → IfOk result (λ r. AtomsBorrow which r.items) }
    ensures same { (outs : List Tree) → (cond : Test) → borrowed_tests parts.now ≡ parts_of cond
        → (m : ℕ) → IfOk result (λ r. answered outs cond (blocks_of m r.items)
        ≡ answered outs cond (blocks_of m atoms.entry.items)) }
{
    let mut done = Vec::new(alloc);
    for atom in atoms {
        done.push(pruned(alloc, parts, atom)?)?;
    }
    Ok(done)
}
