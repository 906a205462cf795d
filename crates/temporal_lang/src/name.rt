ghost use Rattle.std.specs.Prelude.{◌≡◌, map};
ghost use Rattle.smo_ops_spec.specs.First.{first_refusal};
ghost use Rattle.temporal_lang_types.specs.Branches.{branch_of, branches_of};
ghost use Rattle.temporal_lang_spec.specs.Atoms.{sources_of};
ghost use Rattle.prima_base.specs.Faults.{IsTested};
ghost use Rattle.temporal_lang_spec.specs.Checking.{whose_fault, column_fault, reference_test};
ghost use Rattle.temporal_lang_spec.specs.Checking.{branch_names, names_tests};
ghost use Rattle.cond_expr.specs.References.{borrowed};

use crate::item::{alias_place, check_items, has_column, holders_of};
use crate::reference::gather_branch;
use crate::{Branch, QueryFault};
use cond_expr::{ColRef, Whose};
use prima_base::{Name, Refusal};
use schema_catalog::Schema;
use std::alloc::Global;

// A column of any item.
fn check_column(schema: &Schema, from: &[(Name, Name)], name: &Name) -> Result<(), QueryFault>
    ensures { IsTested (whose_fault (sources_of schema.now from.now) Whose.Free name.now) result }
{
    let count = holders_of(schema, from, name);
    if count == 0 {
        return Err(QueryFault::Refused(Refusal::NoColumn(name.copy()?)));
    }
    if count > 1 {
        return Err(QueryFault::Refused(Refusal::Ambiguous(name.copy()?)));
    }
    Ok(())
}

// A column of the item with the alias.
fn check_alias(
    schema: &Schema,
    from: &[(Name, Name)],
    alias: &Name,
    name: &Name,
) -> Result<(), QueryFault>
    ensures { IsTested (whose_fault (sources_of schema.now from.now) (Whose.Alias alias.now)
        name.now) result }
{
    let place = alias_place(from, alias);
    if place == from.len() {
        return Err(QueryFault::Refused(Refusal::NoTable(alias.copy()?)));
    }
    if !has_column(schema, &from[place].0, name) {
        return Err(QueryFault::Refused(Refusal::NoColumn(name.copy()?)));
    }
    Ok(())
}

fn check_reference(
    schema: &Schema,
    from: &[(Name, Name)],
    reference: &ColRef,
) -> Result<(), QueryFault>
    ensures { IsTested (reference_test (sources_of schema.now from.now) reference.now) result }
{
    match &reference.whose {
        Whose::Free => check_column(schema, from, &reference.name),
        Whose::Alias(alias) => check_alias(schema, from, alias, &reference.name),
        Whose::Atom(_) => Err(QueryFault::Refused(Refusal::NoColumn(reference.name.copy()?))),
    }
}

fn check_references(
    schema: &Schema,
    from: &[(Name, Name)],
    references: &[&ColRef],
) -> Result<(), QueryFault>
    ensures { IsTested (first_refusal (map (reference_test (sources_of schema.now from.now))
        (borrowed references.now))) result }
{
    for reference in references {
        check_reference(schema, from, reference)?;
    }
    Ok(())
}

// Of a branch the items of its FROM, and then its references, from left to right.
fn check_branch_names(alloc: Global, schema: &Schema, branch: &Branch) -> Result<(), QueryFault>
    ensures { IsTested (first_refusal (branch_names schema.now (branch_of branch.now))) result }
{
    check_items(schema, &branch.from)?;
    let mut references = Vec::new(alloc);
    gather_branch(&mut references, branch)?;
    check_references(schema, &branch.from, &references)
}

/// Names, branch after branch.
pub(crate) fn check_names(
    alloc: Global,
    schema: &Schema,
    branches: &[Branch],
) -> Result<(), QueryFault>
    ensures { IsTested (first_refusal (names_tests schema.now (branches_of branches.now))) result }
{
    for branch in branches {
        check_branch_names(alloc, schema, branch)?;
    }
    Ok(())
}
