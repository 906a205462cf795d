ghost use Rattle.std.specs.Prelude.{◌≡◌, ℕ, true, false, List, [], IfOk, map};
ghost use Rattle.relations_spec.specs.Sets.{set_of};
ghost use Rattle.relations_spec.specs.Spans.{covers};
ghost use Rattle.prima_base.specs.Columns.{Column as TableColumn};
ghost use Rattle.prima_base.specs.Order.{row_cmp};
ghost use Rattle.prima_base.specs.Timed.{rows_at};
ghost use Rattle.cond_expr.specs.Seen.{tree, test};
ghost use Rattle.plain_answers_spec.specs.Choosing.{answers_over};
ghost use Rattle.join_exec_spec.specs.BorrowedOutputs.{BorrowedValues, AllStayBorrowed};
ghost use Rattle.join_exec_spec.specs.Blocks.{answered};
ghost use Rattle.join_exec_engine.specs.Atoms.{AtomsBorrow, atom_rows, blocks_of, AreNumbered};
ghost use Rattle.join_exec_engine.specs.Atoms.{HaveAtoms};

use crate::atom::Atom;
use crate::order::join_in_order;
use crate::single_atom::answer_atom;
use cond_expr::{Cond, Expr};
use prima_base::{NoMemory, Period};
use prima_base_rows::TimedRows;
use std::alloc::Global;

// What outputs answer of the choices of one row of each atom that hold together and meet the
// condition. Where there is one atom alone nothing is joined.
fn answer_atoms<'a>(
    alloc: Global,
    outs: &[Expr],
    cond: &Cond,
    atoms: Vec<Atom<'a>>,
    slice: Period,
) -> Result<TimedRows<'a>, NoMemory>
    requires { AreNumbered atoms.items }
    ensures borrowed { (which : BorrowedValues) → AtomsBorrow which atoms.entry.items
        → IfOk result (λ rows. AllStayBorrowed which (map tree outs.now) rows.items) }
    ensures inside { (m : ℕ) → covers slice m ≡ false
        → IfOk result (λ rows. rows_at rows.items m ≡ []) }
    ensures rows { (m : ℕ) → covers slice m ≡ true
        → IfOk result (λ rows. rows_at rows.items m
        ≡ answered (map tree outs.now) (test cond.now) (blocks_of m atoms.entry.items)) }
{
    let mut atoms = atoms;
    if atoms.len() == 1
        && let Some(atom) = atoms.pop()
    {
        return answer_atom(alloc, outs, cond, atom, slice);
    }
    join_in_order(alloc, outs, cond, atoms, slice)
}

/// What outputs and a condition answer over one list of rows with periods for each atom, at each
/// moment of the slice: the outputs of the choices of one row of each that hold together and meet
/// the condition. A reference is to the atom of its number, whatever place that has; where the
/// numbers are those of the places, the answers are those over relations (clause `rows`). The rows
/// have the periods in which they hold, all inside the slice, in no order; a row may stand several
/// times. Whatever texts of a column are borrowed in each row that has them, the same texts stay
/// borrowed in outputs that are the column.
pub fn answer_choices<'a>(
    alloc: Global,
    outs: &[Expr],
    cond: &Cond,
    atoms: Vec<Atom<'a>>,
    slice: Period,
) -> Result<TimedRows<'a>, NoMemory>
    requires { AreNumbered atoms.items }
    ensures borrowed { (which : BorrowedValues) → AtomsBorrow which atoms.entry.items
        → IfOk result (λ rows. AllStayBorrowed which (map tree outs.now) rows.items) }
    ensures inside { (m : ℕ) → covers slice m ≡ false
        → IfOk result (λ rows. rows_at rows.items m ≡ []) }
    ensures numbered { (m : ℕ) → covers slice m ≡ true
        → IfOk result (λ rows. rows_at rows.items m
        ≡ answered (map tree outs.now) (test cond.now) (blocks_of m atoms.entry.items)) }
    ensures rows { (columns : List (List TableColumn)) → HaveAtoms 0 columns atoms.entry.items
        → (m : ℕ) → covers slice m ≡ true
        → IfOk result (λ rows. rows_at rows.items m
        ≡ set_of row_cmp (answers_over columns (atom_rows atoms.entry.items m)
        (map tree outs.now) (test cond.now))) }
{
    answer_atoms(alloc, outs, cond, atoms, slice)
}
