//! Stored tables of a version, read inside a slice as the atoms of a join.

ghost use Rattle.std.specs.Prelude.{◌≡◌, ◌+◌, ◌≤◌, IfOk};
ghost use Rattle.std.specs.Option.{option_copied};
ghost use Rattle.relations_spec.specs.Sets.{Ascends};
ghost use Rattle.prima_base.specs.Order.{bytes_cmp};
ghost use Rattle.cond_expr.specs.References.{borrowed};
ghost use Rattle.join_exec.specs.Reading.{AreNames, reads};
ghost use Rattle.join_exec.specs.Pieces.{reads_stored, atoms_read};
ghost use Rattle.join_exec.specs.Atoms.{IsRead, IsReadOf, AreRead, IsReadable, AreReadable};

use crate::gather;
use crate::name::names_at;
use cond_expr::{ColRef, columns_at};
use history_store::StoredTable;
use join_exec_engine::Atom;
use prima_base::{Name, NoMemory, Period, Steps};
use smo_ops_columns::columns_named;
use std::alloc::Global;
use std::sync::ledger::Ledger;
use version_groups::Groups;

// What a table has in these columns inside the slice, as the atom with this number.
fn atom_of<'a, L: Ledger>(
    alloc: Global,
    table: &'a StoredTable,
    number: u32,
    names: Vec<Name>,
    slice: Period,
    steps: &mut Steps<L>,
) -> Result<Atom<'a>, NoMemory>
    requires known { AreNames table.now.columns names.items }
    requires ascending { Ascends bytes_cmp names.items }
    ensures atom { IfOk result (IsRead table.now slice number names.items) }
    ensures cost { steps.new ≤ steps.old + reads table.now names.items }
    ensures counted { IfOk result (λ _. steps.new ≡ steps.old + reads table.now names.items) }
    ensures rises { steps.old ≤ steps.new }
{
    let rows = gather(alloc, table, &names, slice, steps)?;
    let read = columns_named(alloc, table.columns(), &names)?;
    let columns = columns_at(alloc, number, &read)?;
    Ok(Atom {
        number,
        columns,
        rows,
    })
}

// The same of a table that is stored.
fn read_atom<'a, L: Ledger>(
    alloc: Global,
    table: Option<&'a StoredTable>,
    number: u32,
    names: Vec<Name>,
    slice: Period,
    steps: &mut Steps<L>,
) -> Result<Atom<'a>, NoMemory>
    requires readable { IsReadable (option_copied table) names.items }
    requires ascending { Ascends bytes_cmp names.items }
    ensures atom { IfOk result (IsReadOf (option_copied table.entry) slice number names.items) }
    ensures cost { steps.new ≤ steps.old + reads_stored (option_copied table.entry) names.items }
    ensures counted { IfOk result (λ _. steps.new
        ≡ steps.old + reads_stored (option_copied table.entry) names.items) }
    ensures rises { steps.old ≤ steps.new }
{
    match table {
        Some(table) => atom_of(alloc, table, number, names, slice, steps),
        // each table of a piece that may be run is stored, as `IsReadable` says
        None => unreachable!(),
    }
}

/// What the tables of a version have inside the slice in the columns that are named of them, as
/// atoms with the numbers of their places. It reads the keys of each and the entries of these
/// columns, once each.
pub(crate) fn gather_atoms<'a, L: Ledger>(
    alloc: Global,
    groups: &'a Groups,
    version: u32,
    tables: &[Name],
    references: &[&ColRef],
    slice: Period,
    steps: &mut Steps<L>,
) -> Result<Vec<Atom<'a>>, NoMemory>
    requires { AreReadable groups.now version (borrowed references.now) 0 tables.now }
    ensures atoms { IfOk result (λ atoms. AreRead groups.now version slice
        (borrowed references.now) 0 tables.now atoms.items) }
    ensures cost { steps.new ≤ steps.old + atoms_read groups.now version (borrowed references.now) 0
        tables.now }
    ensures counted { IfOk result (λ _. steps.new
        ≡ steps.old + atoms_read groups.now version (borrowed references.now) 0 tables.now) }
    ensures rises { steps.old ≤ steps.new }
{
    let mut atoms = Vec::new(alloc);
    let mut number: u32 = 0;
    for name in tables {
        let names = names_at(alloc, references, number)?;
        let table = groups.table(version, name);
        let atom = read_atom(alloc, table, number, names, slice, steps)?;
        atoms.push(atom)?;
        // a reference has 32 bits for its atom, and no type keeps the list of a piece's atoms to
        // what these can number
        number = number.checked_add(1).ok_or(NoMemory)?;
    }
    Ok(atoms)
}
