ghost use Rattle.std.specs.Prelude.{◌≡◌, false, MatchOption, None};
ghost use Rattle.std.specs.Option.{option_copied};
ghost use Rattle.version_groups_tables.specs.Stored.{stored_as};
ghost use Rattle.version_groups_tables.specs.Places.{at_places, IsFound};

use history_store::StoredTable;
use prima_base::Name;

/// A table over its lifeline, the versions in which no operator makes or consumes it, and its
/// history. Its lifeline goes from `first` to `last`: none while it lives.
#[derive(Drop)]
pub struct MadeTable {
    pub name: Name,
    pub first: u32,
    pub last: Option<u32>,
    pub store: StoredTable,
}

/// The table with this name, of those at these places, and its place: `None` exactly where there is
/// none. It takes no memory.
pub fn find_table<'a>(
    tables: &'a [MadeTable],
    places: &[usize],
    name: &Name,
) -> Option<(usize, &'a MadeTable)>
    ensures { MatchOption result (stored_as name.now (at_places tables.now places.now) ≡ None)
        (λ f. IsFound tables.now places.now name.now f.0 f.1.now) }
{
    for place in places {
        if let Some(table) = tables.get(*place) {
            if &table.name == name {
                return Some((*place, table));
            }
        }
    }
    None
}

/// The table that goes on under the name, of those at these places, and its place: `None` where the
/// table with this name is made, and where there is none. It takes no memory.
pub(crate) fn kept_table<'a>(
    tables: &'a [MadeTable],
    places: &[usize],
    name: &Name,
    is_made: bool,
) -> Option<(usize, &'a MadeTable)>
    ensures { MatchOption result
        (is_made ≡ false → stored_as name.now (at_places tables.now places.now) ≡ None)
        (λ f. (is_made ≡ false) × IsFound tables.now places.now name.now f.0 f.1.now) }
{
    if is_made {
        return None;
    }
    find_table(tables, places, name)
}

/// What is stored under the name, in the tables at these places. It takes no memory.
pub fn find_stored<'a>(
    tables: &'a [MadeTable],
    places: &[usize],
    name: &Name,
) -> Option<&'a StoredTable>
    ensures { option_copied result ≡ stored_as name.now (at_places tables.now places.now) }
{
    match find_table(tables, places, name) {
        Some((_, table)) => Some(&table.store),
        None => None,
    }
}
