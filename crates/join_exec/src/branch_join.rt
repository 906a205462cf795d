//! The items of a branch of a query, joined.

ghost use Rattle.std.specs.Prelude.{◌≡◌, ℕ, true, false, List, [], IfOk};
ghost use Rattle.relations_spec.specs.Sets.{set_of};
ghost use Rattle.relations_spec.specs.Spans.{covers};
ghost use Rattle.prima_base.specs.Columns.{Column as TableColumn};
ghost use Rattle.prima_base.specs.Order.{row_cmp};
ghost use Rattle.prima_base.specs.Timed.{rows_at};
ghost use Rattle.plain_answers_spec.specs.Choosing.{answers_over};
ghost use Rattle.temporal_lang_types.specs.Branches.{branch_of};
ghost use Rattle.join_exec_spec.specs.BorrowedOutputs.{BorrowedValues, AllStayBorrowed};
ghost use Rattle.join_exec_engine.specs.Atoms.{AtomsBorrow, atom_rows, AreNumbered, HaveAtoms};

use join_exec_engine::{Atom, answer_choices};
use prima_base::{NoMemory, Period};
use prima_base_rows::TimedRows;
use std::alloc::Global;
use temporal_lang_types::Branch;

/// What a branch answers over its items: an atom for each of them, that is the types of its columns
/// and its list of rows with periods. At each moment of the slice the rows that hold are the
/// outputs of the choices, one row of each list, that hold together and meet the branch's
/// condition. They have the periods in which they hold, all inside the slice, in no order; a row
/// may stand several times. Whatever texts of a column are borrowed in each row that has them stay
/// borrowed in outputs that are the column. Each atom has a number of its own; for what is answered
/// it is that of the item's place. The one error is `NoMemory`, where memory runs out.
pub fn join_atoms<'a>(
    alloc: Global,
    branch: &Branch,
    atoms: Vec<Atom<'a>>,
    slice: Period,
) -> Result<TimedRows<'a>, NoMemory>
    requires { AreNumbered atoms.items }
    ensures rows { (columns : List (List TableColumn)) → HaveAtoms 0 columns atoms.entry.items
        → (m : ℕ) → covers slice m ≡ true
        → IfOk result (λ rows. rows_at rows.items m
        ≡ set_of row_cmp (answers_over columns (atom_rows atoms.entry.items m)
        (branch_of branch.now).outs (branch_of branch.now).cond)) }
    ensures inside { (m : ℕ) → covers slice m ≡ false
        → IfOk result (λ rows. rows_at rows.items m ≡ []) }
    ensures borrowed { (which : BorrowedValues) → AtomsBorrow which atoms.entry.items
        → IfOk result (λ rows. AllStayBorrowed which (branch_of branch.now).outs rows.items) }
{
    answer_choices(alloc, &branch.outs, &branch.cond, atoms, slice)
}
