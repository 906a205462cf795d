//! Where the values of a made row come from: found once for an operator, and then used for each
//! row.

ghost use Rattle.std.specs.Prelude.{◌≡◌, IfOk, map};
ghost use Rattle.smo_maps.specs.Picking.{place_of, source_of, value_at, picked_value, picked_row};

use prima_base::{ColType, Name, NoMemory, Row, Value};
use std::alloc::Global;

/// The places of one name in the columns of two rows. The first row's is taken where there is one.
#[derive(Clone, Copy)]
pub(crate) struct Source {
    pub(crate) first: Option<usize>,
    pub(crate) second: Option<usize>,
}

// The place of the column with the name. A table has few columns, so they are looked through.
fn place_of(columns: &[(Name, ColType)], name: &Name) -> Option<usize>
    ensures { result ≡ place_of columns.now name.now }
{
    for (i, (column, _)) in columns.iter().enumerate() {
        if column == name {
            return Some(i);
        }
    }
    None
}

/// Where the columns of two rows have the name.
pub(crate) fn source_of(
    first: &[(Name, ColType)],
    second: &[(Name, ColType)],
    name: &Name,
) -> Source
    ensures { result ≡ source_of first.now second.now name.now }
{
    Source {
        first: place_of(first, name),
        second: place_of(second, name),
    }
}

/// Where the columns of two rows have each name.
pub(crate) fn sources_of(
    alloc: Global,
    first: &[(Name, ColType)],
    second: &[(Name, ColType)],
    names: &[Name],
) -> Result<Vec<Source>, NoMemory>
    ensures { IfOk result (λ v. v.items ≡ map (source_of first.now second.now) names.now) }
{
    let mut sources = Vec::with_capacity(alloc, names.len())?;
    for name in names {
        sources.push(source_of(first, second, name))?;
    }
    Ok(sources)
}

// An equal value to the one at the place.
fn value_at(values: &[Value], place: Option<usize>) -> Result<Value, NoMemory>
    ensures { IfOk result (λ v. v ≡ value_at values.now place) }
{
    let Some(i) = place else {
        return Ok(Value::Int(0));
    };
    match values.get(i) {
        Some(value) => value.copy(),
        None => Ok(Value::Int(0)),
    }
}

// An equal value to the one at the source.
fn picked_value(first: &[Value], second: &[Value], source: &Source) -> Result<Value, NoMemory>
    ensures { IfOk result (λ v. v ≡ picked_value first.now second.now source.now) }
{
    match source.first {
        Some(_) => value_at(first, source.first),
        None => value_at(second, source.second),
    }
}

/// The row of equal values to those at the sources.
pub(crate) fn picked_row(
    alloc: Global,
    sources: &[Source],
    first: &[Value],
    second: &[Value],
) -> Result<Row, NoMemory>
    ensures { IfOk result (λ row. row ≡ picked_row sources.now first.now second.now) }
{
    let mut values = Vec::with_capacity(alloc, sources.len())?;
    for source in sources {
        values.push(picked_value(first, second, source)?)?;
    }
    Ok(Row::new(alloc, values))
}
