//! Lifelines that end.

ghost use Rattle.std.specs.Prelude.{◌≡◌, map, length};
ghost use Rattle.std.specs.Option.{option_copied};
ghost use Rattle.relations_spec.specs.Sets.{Ascends};
ghost use Rattle.prima_base.specs.Order.{bytes_cmp};
ghost use Rattle.schema_catalog.specs.Tables.{Tables};
ghost use Rattle.smo_ops_types.specs.Operators.{evolution_of};
ghost use Rattle.smo_ops_spec.specs.Evolutions.{one_consumes};
ghost use Rattle.version_groups_tables.specs.Stored.{stored_names};
ghost use Rattle.version_groups_tables.specs.Ending.{table_after, AreLiving, AreEnding};
ghost use Rattle.version_groups_tables.specs.Places.{at_places, AreWithin};
ghost use Rattle.version_groups_tables.specs.NewestTables.{is_name};

use crate::made_table::{MadeTable, find_table};
use prima_base::Name;
use smo_ops::{Op, consumed};

// Ends the lifeline of the table with this name, of those at these places, with a version. It takes
// no memory.
fn end_named(tables: &mut [MadeTable], places: &[usize], name: Option<&Name>, last: u32)
    requires there { AreWithin places.now (length tables.old) }
    requires ordered { Ascends bytes_cmp (stored_names (at_places tables.old places.now)) }
    requires ending { AreEnding last tables.old places.now }
    ensures { tables.new ≡ map (table_after (is_name (option_copied name.entry)) last) tables.old }
{
    let Some(name) = name else {
        return;
    };
    let place = match find_table(tables, places, name) {
        Some((place, _)) => place,
        None => return,
    };
    tables[place].last = Some(last);
}

/// Ends the lifelines of the tables that the operator consumes, which are at most two, with a
/// version. It takes no memory.
pub fn end_consumed(tables: &mut [MadeTable], places: &[usize], op: &Op, last: u32)
    requires there { AreWithin places.now (length tables.old) }
    requires ordered { Ascends bytes_cmp (stored_names (at_places tables.old places.now)) }
    requires living { AreLiving tables.old places.now }
    ensures { (before : Tables) → tables.new ≡ map
        (table_after (one_consumes before (evolution_of op.now)) last) tables.old }
{
    let names = consumed(op);
    end_named(tables, places, names.first, last);
    end_named(tables, places, names.second, last);
}
