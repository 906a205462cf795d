//! The lines of EXPLAIN: each piece that a query runs, with its moments, its branch, its atom and
//! its version.

ghost use Rattle.std.specs.Prelude.{◌≡◌, ◌++◌, Err, IfOk, OnOk, OnErr};
ghost use Rattle.std.specs.List.{flat_map};
ghost use Rattle.std.specs.Io.KnownBytes.{Appends};
ghost use Rattle.prima_io.specs.Moves.{AppendsPrefix, AppendsLess};
ghost use Rattle.piece_ir.specs.ExplainedPieces.{explained_of, all_explained};
ghost use Rattle.answer_text.specs.PieceTexts.{piece_text};
ghost use Rattle.answer_text.specs.Causes.{HasStopCause};
ghost use Rattle.answer_text.specs.declared.stop.PutStop.TheVariants as stop;
ghost use Rattle.answer_text.specs.Texts.{piece_head, explained_text, explain_text};

use crate::line::ReplyLine;
use crate::made_reply::{add_count, put_lines};
use crate::piece_text;
use crate::stop::PutStop;
use piece_ir::Explained;
use prima_base::NoMemory;
use prima_io::Sink;
use smo_parse::put;
use std::alloc::Global;

// What stands before the text of a piece.
#[tactic(auto, unfolding(crate::specs::Texts::piece_head))]
fn head_line(explained: &Explained) -> ReplyLine
    ensures { result ≡ piece_head (explained_of explained.now) }
{
    let mut line = ReplyLine::new();
    line.add(b"piece ");
    line.add_number(explained.period.start());
    line.add(b" ");
    line.add_end(explained.period.end());
    line.add(b" ");
    line.add_number(explained.branch as u64);
    line.add(b" ");
    line.add_number(explained.atom as u64);
    line.add(b" ");
    line.add_number(explained.version as u64);
    line.add(b" ");
    line
}

// The line of a piece.
fn add_explained(alloc: Global, lines: &mut Vec<u8>, explained: &Explained) -> Result<(), NoMemory>
    ensures { OnOk result (lines.new.items ≡ lines.old.items
        ++ explained_text (explained_of explained.now)) }
{
    let head = head_line(explained);
    put(lines, head.held())?;
    let text = piece_text(alloc, &explained.piece)?;
    put(lines, &text)?;
    put(lines, b"\n")
}

// The lines of all these pieces.
fn add_all(alloc: Global, lines: &mut Vec<u8>, list: &[Explained]) -> Result<(), NoMemory>
    ensures { OnOk result (lines.new.items ≡ lines.old.items
        ++ flat_map explained_text (all_explained list.now)) }
{
    for explained in list {
        add_explained(alloc, lines, explained)?;
    }
    Ok(())
}

/// A line for each piece, `piece START END BRANCH ATOM VERSION TEXT`, and then how many they are.
/// The one error is `NoMemory`, where memory runs out.
#[tactic(auto, unfolding(crate::specs::Texts::explain_text))]
pub fn explain_text(alloc: Global, list: &[Explained]) -> Result<Vec<u8>, NoMemory>
    ensures { IfOk result (λ lines. lines.items ≡ explain_text (all_explained list.now)) }
{
    let mut lines = Vec::new(alloc);
    add_all(alloc, &mut lines, list)?;
    add_count(&mut lines, list.len() as u64)?;
    Ok(lines)
}

/// Puts the lines of `explain_text`. A failing sink's count has risen; a prefix of the lines, and
/// not all of them, was then put. Where memory ran out nothing was put.
pub fn put_explained<K: Sink>(
    alloc: Global,
    sink: &mut K,
    list: &[Explained],
) -> Result<(), PutStop>
    ensures all { OnOk result (Appends (K.written sink.old) (K.written sink.new)
        (explain_text (all_explained list.now))) }
    ensures part { OnErr result (AppendsPrefix (K.written sink.old) (K.written sink.new)
        (explain_text (all_explained list.now))) }
    ensures less { result ≡ Err stop.WriteFault
        → AppendsLess (K.written sink.old) (K.written sink.new)
        (explain_text (all_explained list.now)) }
    ensures unsaid { result ≡ Err stop.NoMemory → K.written sink.new ≡ K.written sink.old }
    ensures cause { HasStopCause (K.faults sink.old) (K.faults sink.new) result }
{
    put_lines(sink, explain_text(alloc, list))
}
