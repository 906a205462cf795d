//! The text of the change by which a row of a table begins or ends.

ghost use Rattle.std.specs.Prelude.{◌≡◌, ◌++◌, codes, false, true, map, OnOk};
ghost use Rattle.prima_base.specs.Order.{shown};
ghost use Rattle.smo_ops_spec.specs.Checks.{pair_names};
ghost use Rattle.smo_parse.specs.TreeTexts.{test_text, more_tests_text, value_text};
ghost use Rattle.smo_parse.specs.Texts.{listed, more_listed, part_text, cond_text};
ghost use Rattle.version_export_past_spec.specs.Rows.{row_cells, has_cell, have_cells, is_row_of};
ghost use Rattle.version_export_past_spec.specs.Rows.{ending, beginning};
ghost use Rattle.version_export_lines_spec.specs.Lines.{change_text, cell_values};
ghost use Rattle.version_export.specs.RowTexts.{shown_row};

use crate::value::write_val;
use prima_base::{ColType, Name, NoMemory, Val};
use schema_catalog::Table;
use smo_parse::put;

// The names of the columns that have a value, each after a comma.
fn write_more_names(
    out: &mut Vec<u8>,
    columns: &[(Name, ColType)],
    values: &[Val<'_>],
) -> Result<(), NoMemory>
    ensures { OnOk result (out.new.items ≡ out.old.items
        ++ more_listed (pair_names (row_cells columns.now (shown_row values.now)))) }
{
    match columns {
        [] => Ok(()),
        [(name, _), more_columns @ ..] => match values {
            [] => Ok(()),
            [_, more_values @ ..] => {
                put(out, b", ")?;
                put(out, name.bytes())?;
                write_more_names(out, more_columns, more_values)
            }
        },
    }
}

// The names of the columns that have a value, with commas between them.
fn write_names(
    out: &mut Vec<u8>,
    columns: &[(Name, ColType)],
    values: &[Val<'_>],
) -> Result<(), NoMemory>
    ensures { OnOk result (out.new.items ≡ out.old.items
        ++ listed (pair_names (row_cells columns.now (shown_row values.now)))) }
{
    match columns {
        [] => Ok(()),
        [(name, _), more_columns @ ..] => match values {
            [] => Ok(()),
            [_, more_values @ ..] => {
                put(out, name.bytes())?;
                write_more_names(out, more_columns, more_values)
            }
        },
    }
}

// The values of these columns, each after a comma.
fn write_more_values(
    out: &mut Vec<u8>,
    columns: &[(Name, ColType)],
    values: &[Val<'_>],
) -> Result<(), NoMemory>
    ensures { OnOk result (out.new.items ≡ out.old.items ++ more_listed
        (map value_text (cell_values (row_cells columns.now (shown_row values.now))))) }
{
    match columns {
        [] => Ok(()),
        [_, more_columns @ ..] => match values {
            [] => Ok(()),
            [value, more_values @ ..] => {
                put(out, b", ")?;
                write_val(out, value)?;
                write_more_values(out, more_columns, more_values)
            }
        },
    }
}

// The values of these columns, with commas between them.
fn write_values(
    out: &mut Vec<u8>,
    columns: &[(Name, ColType)],
    values: &[Val<'_>],
) -> Result<(), NoMemory>
    ensures { OnOk result (out.new.items ≡ out.old.items ++ listed
        (map value_text (cell_values (row_cells columns.now (shown_row values.now))))) }
{
    match columns {
        [] => Ok(()),
        [_, more_columns @ ..] => match values {
            [] => Ok(()),
            [value, more_values @ ..] => {
                write_val(out, value)?;
                write_more_values(out, more_columns, more_values)
            }
        },
    }
}

// A table's name and, in brackets, the names of the columns that have a value.
fn write_part(out: &mut Vec<u8>, table: &Table, values: &[Val<'_>]) -> Result<(), NoMemory>
    ensures { OnOk result (out.new.items ≡ out.old.items
        ++ part_text table.now.0 (pair_names (row_cells table.now.1 (shown_row values.now)))) }
{
    put(out, table.name().bytes())?;
    put(out, b" (")?;
    write_names(out, table.columns(), values)?;
    put(out, b")")
}

// VALUES and, in brackets, the values of these columns.
fn write_row(
    out: &mut Vec<u8>,
    columns: &[(Name, ColType)],
    values: &[Val<'_>],
) -> Result<(), NoMemory>
    ensures { OnOk result (out.new.items ≡ out.old.items ++ (codes " VALUES (" ++ listed
        (map value_text (cell_values (row_cells columns.now (shown_row values.now))))
        ++ codes ")")) }
{
    put(out, b" VALUES (")?;
    write_values(out, columns, values)?;
    put(out, b")")
}

/// Writes the INSERT of a row of the table after what is there.
pub(crate) fn write_beginning(
    out: &mut Vec<u8>,
    table: &Table,
    values: &[Val<'_>],
) -> Result<(), NoMemory>
    ensures { OnOk result (out.new.items ≡ out.old.items
        ++ change_text (beginning table.now (shown_row values.now))) }
{
    put(out, b"INSERT INTO ")?;
    write_part(out, table, values)?;
    write_row(out, table.columns(), values)
}

// COLUMN = VALUE
fn write_cell(out: &mut Vec<u8>, column: &Name, value: &Val<'_>) -> Result<(), NoMemory>
    ensures { OnOk result (out.new.items ≡ out.old.items
        ++ test_text false true (has_cell (column.now, shown value.now))) }
{
    put(out, column.bytes())?;
    put(out, b" = ")?;
    write_val(out, value)
}

// COLUMN = VALUE for the columns that have a value, each after AND.
fn write_more_cells(
    out: &mut Vec<u8>,
    columns: &[(Name, ColType)],
    values: &[Val<'_>],
) -> Result<(), NoMemory>
    ensures { OnOk result (out.new.items ≡ out.old.items ++ more_tests_text false (codes " AND ")
        (have_cells (row_cells columns.now (shown_row values.now)))) }
{
    match columns {
        [] => Ok(()),
        [(name, _), more_columns @ ..] => match values {
            [] => Ok(()),
            [value, more_values @ ..] => {
                put(out, b" AND ")?;
                write_cell(out, name, value)?;
                write_more_cells(out, more_columns, more_values)
            }
        },
    }
}

// COLUMN = VALUE for the columns that have a value, joined by AND.
#[tactic(auto, using(crate::proofs::CellTexts::row_text))]
fn write_cells(
    out: &mut Vec<u8>,
    columns: &[(Name, ColType)],
    values: &[Val<'_>],
) -> Result<(), NoMemory>
    ensures { OnOk result (out.new.items ≡ out.old.items
        ++ cond_text (is_row_of (row_cells columns.now (shown_row values.now)))) }
{
    match columns {
        [] => put(out, b"TRUE"),
        [(first, _), others @ ..] => match values {
            [] => put(out, b"TRUE"),
            [value, rest @ ..] => {
                write_cell(out, first, value)?;
                write_more_cells(out, others, rest)
            }
        },
    }
}

/// Writes the DELETE of a row of the table after what is there.
pub(crate) fn write_ending(
    out: &mut Vec<u8>,
    table: &Table,
    values: &[Val<'_>],
) -> Result<(), NoMemory>
    ensures { OnOk result (out.new.items ≡ out.old.items
        ++ change_text (ending table.now (shown_row values.now))) }
{
    put(out, b"DELETE FROM ")?;
    put(out, table.name().bytes())?;
    put(out, b" WHERE ")?;
    write_cells(out, table.columns(), values)
}
