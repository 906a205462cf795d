//! Joins in an order in which each list is looked up by what came before it, where an equality
//! allows that.

ghost use Rattle.std.specs.Prelude.{◌≡◌, ◌<◌, ◌+◌, ◌++◌, ◌∷◌, ℕ, true, false, List, [], map};
ghost use Rattle.std.specs.Prelude.{length, IfOk, IfSome, OnOk};
ghost use Rattle.std.specs.List.{sum_by};
ghost use Rattle.join_exec_levels.specs.declared.source.Source.{Source as OneSource};
ghost use Rattle.relations_spec.specs.Spans.{covers};
ghost use Rattle.prima_base.specs.Timed.{rows_at};
ghost use Rattle.join_exec_spec.specs.BorrowedOutputs.{BorrowedValues, RowsBorrow, AllStayBorrowed};
ghost use Rattle.cond_expr.specs.Trees.{Tree, Test};
ghost use Rattle.cond_expr.specs.Seen.{tree, test};
ghost use Rattle.join_exec_spec.specs.Blocks.{answered, rows_of};
ghost use Rattle.join_exec_levels.specs.Sources.{SourcesBorrow, relations_of};
ghost use Rattle.join_exec_engine.specs.Atoms.{AtomsBorrow, blocks_of};
ghost use Rattle.join_exec_engine.specs.Atoms.{columns_of_atoms, AreNumbered};

use crate::atom::Atom;
use crate::listed_rows::listed;
use crate::own_part::pruned_atoms;
use cond_expr::{CmpOp, ColRef, Column, Cond, Expr};
use join_exec_levels::{Source, gather_parts, in_turn, join_rows, place_of};
use prima_base::{NoMemory, Period};
use prima_base_rows::TimedRows;
use std::alloc::Global;
use std::collections::VecDeque;

// Whether one of the atoms has the column.
fn is_there(atoms: &[Atom<'_>], reference: &ColRef) -> bool {
    for atom in atoms {
        if place_of(&atom.columns, reference).is_some() {
            return true;
        }
    }
    false
}

// Whether the first reference is to one of these columns, and the second to another atom's, which
// is one of these.
fn is_between(atoms: &[Atom<'_>], columns: &[Column], own: &ColRef, other: &ColRef) -> bool {
    place_of(columns, own).is_some() && place_of(columns, other).is_none() && is_there(atoms, other)
}

// Whether the part says that one of these columns and a column of another of these atoms are equal.
fn is_link(atoms: &[Atom<'_>], columns: &[Column], part: &Cond) -> bool {
    match part {
        Cond::Cmp(CmpOp::Eq, first, second) => match (&**first, &**second) {
            (Expr::Col(a), Expr::Col(b)) => is_between(atoms, columns, a, b)
                || is_between(atoms, columns, b, a),
            _ => false,
        },
        _ => false,
    }
}

fn is_linked(parts: &[&Cond], atoms: &[Atom<'_>], columns: &[Column]) -> bool {
    for part in parts {
        if is_link(atoms, columns, part) {
            return true;
        }
    }
    false
}

// The first of the atoms that are left that a part links to another one of these atoms.
fn first_linked<'a>(parts: &[&Cond], atoms: &[Atom<'a>], left: &[Atom<'a>]) -> Option<usize>
    ensures { IfSome result (λ i. i < length left.now) }
{
    for (i, atom) in left.iter().enumerate() {
        if is_linked(parts, atoms, &atom.columns) {
            return Some(i);
        }
    }
    None
}

// The first of the atoms that are left that a part links to one of those before. Where none is, the
// first that is linked to another one that is left: of two lists that no part links, no choices are
// made before the linked ones. Else the first.
fn next_of<'a>(parts: &[&Cond], done: &[Atom<'a>], left: &[Atom<'a>]) -> usize
    requires { 0 < length left.now }
    ensures { result < length left.now }
{
    if let Some(i) = first_linked(parts, done, left) {
        return i;
    }
    match first_linked(parts, left, left) {
        Some(i) => i,
        None => 0,
    }
}

// The atoms in an order in which each is linked to one before it, where one that is left is, and
// those that no part links are last.
fn in_order<'a>(
    alloc: Global,
    parts: &[&Cond],
    mut left: Vec<Atom<'a>>,
) -> Result<Vec<Atom<'a>>, NoMemory>
    requires { AreNumbered left.items }
    ensures borrowed { (which : BorrowedValues) → AtomsBorrow which left.entry.items
        → IfOk result (λ atoms. AtomsBorrow which atoms.items) }
    ensures same { (outs : List Tree) → (cond : Test) → (m : ℕ)
        → IfOk result (λ atoms. answered outs cond (blocks_of m atoms.items)
        ≡ answered outs cond (blocks_of m left.entry.items)) }
{
    let mut done = Vec::new(alloc);
    'atoms: while !left.is_empty() {
        let i = next_of(parts, &done, &left);
        let atom = left.remove(i);
        done.push(atom)?;
    }
    Ok(done)
}

// Puts the atom's columns and its rows, in the order of their starts, after those of the others.
fn put_apart<'a>(
    alloc: Global,
    types: &mut Vec<Column>,
    sources: &mut VecDeque<Source<'a>>,
    atom: Atom<'a>,
) -> Result<(), NoMemory>
    ensures borrowed { (which : BorrowedValues)
        → SourcesBorrow which types.old.items sources.old.items
        → RowsBorrow which atom.entry.columns.items atom.entry.rows.items
        → OnOk result (SourcesBorrow which types.new.items sources.new.items) }
    ensures types { OnOk result (types.new.items ≡ types.old.items ++ atom.entry.columns.items) }
    ensures rows { (m : ℕ) → OnOk result (relations_of sources.new.items m
        ≡ relations_of sources.old.items m ++ rows_at atom.entry.rows.items m ∷ []) }
    ensures widths { OnOk result (sum_by (λ (s : OneSource). s.width) sources.new.items
        ≡ sum_by (λ (s : OneSource). s.width) sources.old.items + length atom.entry.columns.items) }
{
    let Atom {
        number: _,
        mut columns,
        rows,
    } = atom;
    let width = columns.len();
    types.append(&mut columns)?;
    sources.push_back(Source {
        width,
        rows: in_turn(listed(alloc, &rows)?),
    })?;
    Ok(())
}

// The columns of the atoms, one atom's after the other's, and their rows.
fn taken_apart<'a>(
    alloc: Global,
    atoms: Vec<Atom<'a>>,
) -> Result<(Vec<Column>, VecDeque<Source<'a>>), NoMemory>
    ensures borrowed { (which : BorrowedValues) → AtomsBorrow which atoms.entry.items
        → IfOk result (λ r. SourcesBorrow which r.0.items r.1.items) }
    ensures types { IfOk result (λ r. r.0.items ≡ columns_of_atoms atoms.entry.items) }
    ensures rows { (m : ℕ) → IfOk result (λ r.
        relations_of r.1.items m ≡ rows_of (blocks_of m atoms.entry.items)) }
    ensures widths { IfOk result (λ r. sum_by (λ (s : OneSource). s.width) r.1.items
        ≡ length r.0.items) }
{
    let mut types = Vec::new(alloc);
    let mut sources = VecDeque::new(alloc);
    for atom in atoms {
        put_apart(alloc, &mut types, &mut sources, atom)?;
    }
    Ok((types, sources))
}

/// What outputs answer of the choices of one row of each atom that hold together and meet the
/// condition: at each moment of the slice just these rows, and at no other moment any. A row may
/// stand several times.
pub(crate) fn join_in_order<'a>(
    alloc: Global,
    outs: &[Expr],
    cond: &Cond,
    atoms: Vec<Atom<'a>>,
    slice: Period,
) -> Result<TimedRows<'a>, NoMemory>
    requires { AreNumbered atoms.items }
    ensures borrowed { (which : BorrowedValues) → AtomsBorrow which atoms.entry.items
        → IfOk result (λ rows. AllStayBorrowed which (map tree outs.now) rows.items) }
    ensures inside { (m : ℕ) → covers slice m ≡ false
        → IfOk result (λ rows. rows_at rows.items m ≡ []) }
    ensures rows { (m : ℕ) → covers slice m ≡ true
        → IfOk result (λ rows. rows_at rows.items m
        ≡ answered (map tree outs.now) (test cond.now) (blocks_of m atoms.entry.items)) }
{
    let mut parts = Vec::new(alloc);
    gather_parts(&mut parts, cond)?;
    let left = pruned_atoms(alloc, &parts, atoms)?;
    let atoms = in_order(alloc, &parts, left)?;
    let (types, sources) = taken_apart(alloc, atoms)?;
    join_rows(alloc, outs, cond, &types, sources, slice)
}
