ghost use Rattle.std.specs.Prelude.{◌≡◌, ◌≤◌, length, map, Some};
ghost use Rattle.std.specs.FinMap.{contains_key};
ghost use Rattle.prima_base.specs.Columns.{names_of};
ghost use Rattle.schema_catalog.specs.Tables.{Tables};
ghost use Rattle.smo_ops_spec.specs.Effects.{columns_of};
ghost use Rattle.smo_ops_spec.specs.Preconditions.{among};
ghost use Rattle.smo_ops_spec.specs.First.{first_refusal};
ghost use Rattle.temporal_lang_types.specs.Branches.{aliases_of};
ghost use Rattle.temporal_lang_spec.specs.Atoms.{sources_of, place_of_column, place_of_alias};
ghost use Rattle.temporal_lang_spec.specs.Checking.{item_tests, holders};
ghost use Rattle.prima_base.specs.Faults.{IsTested};

use crate::QueryFault;
use prima_base::{Name, Refusal};
use schema_catalog::Schema;
use smo_ops_columns::has_name;

/// Whether the table has the column; false where there is no such table.
pub(crate) fn has_column(schema: &Schema, table: &Name, name: &Name) -> bool
    ensures { result ≡ among name.now (names_of (columns_of schema.now table.now)) }
{
    has_name(schema.columns_of(table), name)
}

// Whether one of the items has the alias.
fn has_alias(from: &[(Name, Name)], alias: &Name) -> bool
    ensures { result ≡ among alias.now (aliases_of from.now) }
{
    for (_, other) in from {
        if alias == other {
            return true;
        }
    }
    false
}

fn is_there(schema: &Schema, table: &Name) -> bool
    ensures { result ≡ contains_key schema.now table.now }
{
    match schema.table(table) {
        Some(_) => true,
        None => false,
    }
}

/// Of each item its table, and then its alias where that stood before.
pub(crate) fn check_items(schema: &Schema, from: &[(Name, Name)]) -> Result<(), QueryFault>
    ensures { IsTested (first_refusal (item_tests schema.now from.now)) result }
{
    for (i, (table, alias)) in from.iter().enumerate() {
        if !is_there(schema, table) {
            return Err(QueryFault::Refused(Refusal::NoTable(table.copy()?)));
        }
        if has_alias(&from[..i], alias) {
            return Err(QueryFault::Refused(Refusal::Ambiguous(alias.copy()?)));
        }
    }
    Ok(())
}

/// How many items have the column.
pub(crate) fn holders_of(schema: &Schema, from: &[(Name, Name)], name: &Name) -> usize
    ensures count { result ≡ holders (sources_of schema.now from.now) name.now }
    ensures few { result ≤ length from.now }
{
    let mut count = 0usize;
    for (table, _) in from {
        if has_column(schema, table, name) {
            count += 1;
        }
    }
    count
}

/// The place of the first item that has the column, or the number of items.
pub(crate) fn column_place(schema: &Schema, from: &[(Name, Name)], name: &Name) -> usize
    ensures value { result ≡ place_of_column (sources_of schema.now from.now) name.now }
    ensures within { result ≤ length from.now }
{
    for (i, (table, _)) in from.iter().enumerate() {
        if has_column(schema, table, name) {
            return i;
        }
    }
    from.len()
}

/// The place of the item with the alias, or the number of items.
pub(crate) fn alias_place(from: &[(Name, Name)], alias: &Name) -> usize
    ensures value { (tables : Tables) → result
        ≡ place_of_alias (sources_of tables from.now) alias.now }
    ensures within { result ≤ length from.now }
{
    for (i, (_, other)) in from.iter().enumerate() {
        if other == alias {
            return i;
        }
    }
    from.len()
}
