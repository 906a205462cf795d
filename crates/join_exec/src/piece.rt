//! A piece of a rewritten query, run over the stored tables of a version.

ghost use Rattle.std.specs.Prelude.{◌≡◌, ℕ, ◌+◌, ◌≤◌, [], true, false, IfOk, length, map};
ghost use Rattle.relations_spec.specs.Sets.{set_of};
ghost use Rattle.relations_spec.specs.Spans.{covers};
ghost use Rattle.prima_base.specs.Order.{row_cmp};
ghost use Rattle.prima_base.specs.Timed.{rows_at};
ghost use Rattle.cond_expr.specs.Seen.{tree, test};
ghost use Rattle.smo_ops_spec.specs.Past.{Past, tables_of, database_at};
ghost use Rattle.smo_ops_types.specs.Changes.{sets_of};
ghost use Rattle.version_groups.specs.Representation.{Represents, IsInForce};
ghost use Rattle.plain_answers_spec.specs.Choosing.{answers_over};
ghost use Rattle.plain_answers_spec.specs.Naming.{all_references};
ghost use Rattle.piece_ir_spec.specs.Pieces.{means, out_trees};
ghost use Rattle.piece_ir_spec.specs.Typed.{IsTyped};
ghost use Rattle.piece_ir.specs.Shown.{piece_of};
ghost use Rattle.join_exec_spec.specs.BorrowedOutputs.{all_values, AllStayBorrowed};
ghost use Rattle.join_exec.specs.Pieces.{stored_columns, stored_rows, stored_meaning, atoms_read};
ghost use Rattle.join_exec.specs.Pieces.{piece_reads};
ghost use Rattle.join_exec.specs.Atoms.{AreReadable};

use crate::atom::gather_atoms;
use cond_expr::{Cond, Expr, gather_references};
use join_exec_engine::answer_choices;
use piece_ir::Piece;
use prima_base::{Name, NoMemory, Period, Steps};
use prima_base_rows::TimedRows;
use std::alloc::Global;
use std::sync::ledger::Ledger;
use version_groups::Groups;

// Equal outputs, without their names.
fn copy_trees(alloc: Global, outs: &[(Name, Expr)]) -> Result<Vec<Expr>, NoMemory>
    ensures { IfOk result (λ v. map tree v.items ≡ out_trees (sets_of outs.now)) }
{
    let mut copied = Vec::with_capacity(alloc, outs.len())?;
    for out in outs {
        copied.push(out.1.copy(alloc)?)?;
    }
    Ok(copied)
}

// What outputs and a condition answer of choices of one row of each of these stored tables.
fn answer_tables<'a, L: Ledger>(
    alloc: Global,
    groups: &'a Groups,
    version: u32,
    tables: &[Name],
    outs: &[Expr],
    cond: &Cond,
    slice: Period,
    steps: &mut Steps<L>,
) -> Result<TimedRows<'a>, NoMemory>
    requires { AreReadable groups.now version (all_references (map tree outs.now) (test cond.now)) 0
        tables.now }
    ensures rows { (m : ℕ) → covers slice m ≡ true → IfOk result (λ rows. rows_at rows.items m
        ≡ set_of row_cmp (answers_over (stored_columns groups.now version tables.now)
        (stored_rows groups.now version tables.now m) (map tree outs.now) (test cond.now))) }
    ensures inside { (m : ℕ) → covers slice m ≡ false
        → IfOk result (λ rows. rows_at rows.items m ≡ []) }
    ensures borrowed { IfOk result (λ rows.
        AllStayBorrowed all_values (map tree outs.now) rows.items) }
    ensures cost { steps.new ≤ steps.old + atoms_read groups.now version
        (all_references (map tree outs.now) (test cond.now)) 0 tables.now }
    ensures counted { IfOk result (λ _. steps.new
        ≡ steps.old + atoms_read groups.now version
        (all_references (map tree outs.now) (test cond.now)) 0 tables.now) }
    ensures rises { steps.old ≤ steps.new }
{
    let mut references = Vec::new(alloc);
    gather_references(&mut references, outs, cond)?;
    let atoms = gather_atoms(alloc, groups, version, tables, &references, slice, steps)?;
    answer_choices(alloc, outs, cond, atoms, slice)
}

/// What a piece over the tables of a version answers at each moment of the slice: rows with the
/// periods in which they hold, all inside the slice, in no order; a row may stand several times. At
/// each moment of the slice these are what the piece means over what is stored of its tables then;
/// where the version is in force, over the database then. The texts of plain columns are borrowed
/// by the tables (PRIMA 2008).
///
/// The version is one of the groups, and the piece well-typed over its tables. It takes as many
/// steps as there are keys of each atom, and entries of the columns that the piece names of it, and
/// fewer only where memory runs out, which is the one error, `NoMemory`.
pub fn run_piece<'a, L: Ledger>(
    alloc: Global,
    groups: &'a Groups,
    version: u32,
    piece: &Piece,
    slice: Period,
    steps: &mut Steps<L>,
) -> Result<TimedRows<'a>, NoMemory>
    requires { (past : Past) × Represents groups.now past × (version ≤ length past.versions)
        × IsTyped (tables_of past version) (piece_of piece.now) }
    ensures rows { (past : Past) → Represents groups.now past → (m : ℕ) → covers slice m ≡ true
        → IsInForce past.versions version m
        → IfOk result (λ rows. rows_at rows.items m
        ≡ means (tables_of past version) (database_at past m) (piece_of piece.now)) }
    ensures stored { (m : ℕ) → covers slice m ≡ true
        → IfOk result (λ rows. rows_at rows.items m
        ≡ stored_meaning groups.now version (piece_of piece.now) m) }
    ensures inside { (m : ℕ) → covers slice m ≡ false
        → IfOk result (λ rows. rows_at rows.items m ≡ []) }
    ensures borrowed { IfOk result (λ rows. AllStayBorrowed all_values
        (out_trees (piece_of piece.now).outs) rows.items) }
    ensures cost { steps.new ≤ steps.old + piece_reads groups.now version (piece_of piece.now) }
    ensures counted { IfOk result (λ _. steps.new
        ≡ steps.old + piece_reads groups.now version (piece_of piece.now)) }
    ensures rises { steps.old ≤ steps.new }
{
    let outs = copy_trees(alloc, &piece.outs)?;
    answer_tables(
        alloc,
        groups,
        version,
        &piece.atoms,
        &outs,
        &piece.cond,
        slice,
        steps,
    )
}
