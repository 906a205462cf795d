//! The lines of an export: for each moment at which rows end or begin, one statement.

ghost use Rattle.std.specs.Prelude.{◌≡◌, ◌≤◌, ◌<◌, ◌++◌, ◌∷◌, [], codes, decimal, length, map};
ghost use Rattle.std.specs.Prelude.{OnOk, IfOk};
ghost use Rattle.std.specs.List.{prefix_len};
ghost use Rattle.version_export_lines_spec.specs.Lines.{change_text, then_texts, changes_text};
ghost use Rattle.version_export.specs.Turns.{change_of, is_of, Rises};
ghost use Rattle.version_export.specs.Written.{text_at, row_statements, AddsFirst, AddsLines};

use crate::fault::ExportFault;
use crate::row_change::{write_beginning, write_ending};
use crate::row_turn::RowTurn;
use itoa::Buffer;
use prima_base::NoMemory;
use prima_base::limits::MAX_STATEMENT;
use smo_parse::put;
use std::alloc::Global;

/// A statement of an export, with its `;`.
pub type Line = Vec<u8>;

/// Adds the line of the statement with this stamp and this text. One that could not be read after
/// the LF of the line before is refused.
#[tactic(auto, using(crate::proofs::LineLaws::one_short, crate::proofs::LineLaws::one_long))]
pub(crate) fn push_line(lines: &mut Vec<Line>, stamp: u64, text: Vec<u8>) -> Result<(), ExportFault>
    ensures { AddsLines ((stamp, text.items) ∷ []) lines.old.items lines.new.items result }
{
    if text.len() >= MAX_STATEMENT {
        return Err(ExportFault::TooLong(stamp, text.len() as u64));
    }
    let mut line = text;
    line.push(b';')?;
    lines.push(line)?;
    Ok(())
}

/// AT and the moment.
pub(crate) fn start_text(alloc: Global, moment: u64) -> Result<Vec<u8>, NoMemory>
    ensures { IfOk result (λ v. v.items ≡ codes "AT " ++ decimal moment ++ codes " ") }
{
    let mut text = Vec::new(alloc);
    put(&mut text, b"AT ")?;
    put(&mut text, Buffer::new().format(moment).as_bytes())?;
    put(&mut text, b" ")?;
    Ok(text)
}

// The change by which a row begins or ends.
fn write_change(out: &mut Vec<u8>, turn: &RowTurn<'_, '_>) -> Result<(), NoMemory>
    ensures { OnOk result (out.new.items ≡ out.old.items ++ change_text (change_of turn.now)) }
{
    if turn.begins {
        write_beginning(out, turn.table, turn.values)
    } else {
        write_ending(out, turn.table, turn.values)
    }
}

// Changes, each after THEN.
fn write_more_changes(out: &mut Vec<u8>, turns: &[RowTurn<'_, '_>]) -> Result<(), NoMemory>
    ensures { OnOk result (out.new.items ≡ out.old.items
        ++ then_texts (map change_of turns.now)) }
{
    for turn in turns {
        put(out, b" THEN ")?;
        write_change(out, turn)?;
    }
    Ok(())
}

// Changes with THEN between them.
#[tactic(auto, using(crate::proofs::PartTexts::changes_cut))]
fn write_changes(out: &mut Vec<u8>, turns: &[RowTurn<'_, '_>]) -> Result<(), NoMemory>
    ensures { OnOk result (out.new.items ≡ out.old.items
        ++ changes_text (map change_of turns.now)) }
{
    match turns {
        [] => Ok(()),
        [turn, more @ ..] => {
            write_change(out, turn)?;
            write_more_changes(out, more)
        }
    }
}

// The statement of a moment.
fn text_of(alloc: Global, moment: u64, turns: &[RowTurn<'_, '_>]) -> Result<Vec<u8>, NoMemory>
    ensures { IfOk result (λ v. v.items ≡ text_at moment turns.now) }
{
    let mut text = start_text(alloc, moment)?;
    write_changes(&mut text, turns)?;
    Ok(text)
}

// Adds the line of a moment.
fn push_moment(
    alloc: Global,
    lines: &mut Vec<Line>,
    moment: u64,
    turns: &[RowTurn<'_, '_>],
) -> Result<(), ExportFault>
    ensures { AddsLines ((moment, text_at moment turns.now) ∷ []) lines.old.items lines.new.items
        result }
{
    match text_of(alloc, moment, turns) {
        Ok(text) => push_line(lines, moment, text),
        Err(NoMemory) => Err(ExportFault::NoMemory),
    }
}

// How many turns from the first one on are of this moment.
fn count_at(turns: &[RowTurn<'_, '_>], moment: u64) -> usize
    ensures value { result ≡ prefix_len (is_of moment) turns.now }
    ensures within { result ≤ length turns.now }
{
    turns
        .iter()
        .take_while(|turn| turn.moment == moment)
        .count()
}

// Adds the line of the first moment, and answers how many turns are of it.
fn push_first_run(
    alloc: Global,
    lines: &mut Vec<Line>,
    turns: &[RowTurn<'_, '_>],
) -> Result<usize, ExportFault>
    requires some { 0 < length turns.now }
    requires rise { Rises 0 turns.now }
    ensures added { AddsFirst turns.now lines.old.items lines.new.items result }
    ensures within { IfOk result (λ n. (0 < n) × (n ≤ length turns.now)) }
{
    let moment = turns[0].moment;
    let count = count_at(turns, moment);
    match push_moment(alloc, lines, moment, turns.split_at(count).0) {
        Ok(()) => Ok(count),
        Err(fault) => Err(fault),
    }
}

/// Adds a line for each moment of the turns, which stand in the order of their moments.
pub(crate) fn push_row_lines(
    alloc: Global,
    lines: &mut Vec<Line>,
    turns: &[RowTurn<'_, '_>],
) -> Result<(), ExportFault>
    requires { Rises 0 turns.now }
    ensures { AddsLines (row_statements turns.now) lines.old.items lines.new.items result }
{
    let mut start = 0;
    'moments: while start < turns.len() {
        match push_first_run(alloc, lines, turns.split_at(start).1) {
            Ok(count) => start += count,
            Err(fault) => return Err(fault),
        }
    }
    Ok(())
}
