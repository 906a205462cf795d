//! What begins and what ends in the tables of the exported version, in the order of moments.

ghost use Rattle.std.specs.Prelude.{◌≡◌, ◌++◌, ◌∷◌, [], map, OnOk, IfOk};
ghost use Rattle.std.specs.Ordering.{nat_cmp};
ghost use Rattle.std.specs.List.Sorted.{IsSortedByKey, IsStableByKey};
ghost use Rattle.prima_base.specs.Timed.{entries_of};
ghost use Rattle.version_export.specs.ByListings.{listed_of, all_listed_of, is_later};
ghost use Rattle.version_export.specs.ByListings.{commands_listed};
ghost use Rattle.version_export.specs.Turns.{turn_of, moment_of, later_turns, end_turns};
ghost use Rattle.version_export.specs.Turns.{start_turns, table_turns, turns_of, commands_of};
ghost use Rattle.version_export.specs.Turns.{Rises};

use crate::seen_table::SeenTable;
use prima_base::{FOREVER, NoMemory, TimedRow, Val};
use schema_catalog::Table;
use std::alloc::Global;

/// A row of a table begins to hold at a moment, or ends.
#[derive(Clone, Copy)]
pub(crate) struct RowTurn<'t, 'a> {
    pub(crate) moment: u64,
    pub(crate) begins: bool,
    pub(crate) table: &'t Table,
    pub(crate) values: &'t [Val<'a>],
}

// A moment after the first one, and before the end of time.
fn is_later(first: u64, moment: u64) -> bool
    ensures { result ≡ is_later first moment }
{
    first < moment && moment < FOREVER
}

// The turn, where its moment is a later one.
fn push_turn<'t, 'a>(
    turns: &mut Vec<RowTurn<'t, 'a>>,
    first: u64,
    turn: RowTurn<'t, 'a>,
) -> Result<(), NoMemory>
    ensures { OnOk result (map turn_of turns.new.items
        ≡ map turn_of turns.old.items ++ later_turns first (turn_of turn.entry ∷ [])) }
{
    if is_later(first, turn.moment) {
        turns.push(turn)?;
    }
    Ok(())
}

// The ends of a table's rows.
fn push_ends<'t, 'a>(
    turns: &mut Vec<RowTurn<'t, 'a>>,
    first: u64,
    table: &'t Table,
    rows: &'t [TimedRow<'a>],
) -> Result<(), NoMemory>
    ensures { OnOk result (map turn_of turns.new.items ≡ map turn_of turns.old.items
        ++ later_turns first (end_turns (table.now, entries_of rows.now))) }
{
    for row in rows {
        let turn = RowTurn {
            moment: row.period.end(),
            begins: false,
            table,
            values: &row.values,
        };
        push_turn(turns, first, turn)?;
    }
    Ok(())
}

// The starts of a table's rows.
fn push_starts<'t, 'a>(
    turns: &mut Vec<RowTurn<'t, 'a>>,
    first: u64,
    table: &'t Table,
    rows: &'t [TimedRow<'a>],
) -> Result<(), NoMemory>
    ensures { OnOk result (map turn_of turns.new.items ≡ map turn_of turns.old.items
        ++ later_turns first (start_turns (table.now, entries_of rows.now))) }
{
    for row in rows {
        let turn = RowTurn {
            moment: row.period.start(),
            begins: true,
            table,
            values: &row.values,
        };
        push_turn(turns, first, turn)?;
    }
    Ok(())
}

// What ends in a table, and then what begins.
fn push_table<'t, 'a>(
    turns: &mut Vec<RowTurn<'t, 'a>>,
    first: u64,
    table: &'t SeenTable<'a>,
) -> Result<(), NoMemory>
    ensures { OnOk result (map turn_of turns.new.items ≡ map turn_of turns.old.items
        ++ later_turns first (table_turns (listed_of table.now))) }
{
    push_ends(turns, first, table.table, &table.rows)?;
    push_starts(turns, first, table.table, &table.rows)
}

// What ends and what begins, table by table.
fn turns_by_table<'t, 'a>(
    alloc: Global,
    first: u64,
    tables: &'t [SeenTable<'a>],
) -> Result<Vec<RowTurn<'t, 'a>>, NoMemory>
    ensures { IfOk result (λ v. map turn_of v.items
        ≡ turns_of first (all_listed_of tables.now)) }
{
    let mut turns = Vec::new(alloc);
    for table in tables {
        push_table(&mut turns, first, table)?;
    }
    Ok(turns)
}

// The turns in the order of their moments; those of one moment keep the order that they have.
fn put_in_order(turns: &mut Vec<RowTurn<'_, '_>>) -> Result<(), NoMemory>
    ensures order { OnOk result (IsSortedByKey moment_of nat_cmp turns.new.items) }
    ensures stable { OnOk result (IsStableByKey moment_of nat_cmp turns.old.items
        turns.new.items) }
{
    turns.sort_by_key(|turn| turn.moment)?;
    Ok(())
}

/// What begins and what ends after the first moment and before the end of time, in the order of
/// moments; at each moment by tables, in each first what ends.
pub(crate) fn turns_in_order<'t, 'a>(
    alloc: Global,
    first: u64,
    tables: &'t [SeenTable<'a>],
) -> Result<Vec<RowTurn<'t, 'a>>, NoMemory>
    ensures order { IfOk result (λ v. Rises 0 v.items) }
    ensures commands { IfOk result (λ v. commands_of (map turn_of v.items)
        ≡ commands_listed first (all_listed_of tables.now)) }
{
    let mut turns = turns_by_table(alloc, first, tables)?;
    put_in_order(&mut turns)?;
    Ok(turns)
}
