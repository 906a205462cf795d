//! Replies that are made in memory before they are put.

ghost use Rattle.std.specs.Prelude.{◌≡◌, ◌++◌, ℕ, List, OnOk, OnErr, IfOk, Err};
ghost use Rattle.std.specs.Io.KnownBytes.{Appends};
ghost use Rattle.prima_io.specs.Moves.{AppendsPrefix, AppendsLess};
ghost use Rattle.answer_text.specs.Causes.{HasStopCause};
ghost use Rattle.answer_text.specs.declared.stop.PutStop.TheVariants as stop;
ghost use Rattle.answer_text.specs.Texts.{count_text};

use crate::line::ReplyLine;
use crate::stop::PutStop;
use prima_base::NoMemory;
use prima_io::{Failed, Sink, put_all};
use smo_parse::put;

/// Adds the line that counts the lines before it. The one error is `NoMemory`, where memory runs
/// out.
pub(crate) fn add_count(line: &mut Vec<u8>, count: u64) -> Result<(), NoMemory>
    ensures { OnOk result (line.new.items ≡ line.old.items ++ count_text count) }
{
    let text = ReplyLine::counting(count);
    put(line, text.held())
}

/// Puts lines that were made in memory, or stops where they were not. `WriteFault` comes only where
/// the sink's count of faults rose; a prefix of the lines, and not all of them, was then put. Of
/// lines that found no memory nothing was put.
pub(crate) fn put_lines<K: Sink>(
    sink: &mut K,
    lines: Result<Vec<u8>, NoMemory>,
) -> Result<(), PutStop>
    ensures all { (text : List ℕ) → IfOk lines (λ l. l.items ≡ text)
        → OnOk result (Appends (K.written sink.old) (K.written sink.new) text) }
    ensures part { (text : List ℕ) → IfOk lines (λ l. l.items ≡ text)
        → OnErr result (AppendsPrefix (K.written sink.old) (K.written sink.new) text) }
    ensures less { (text : List ℕ) → IfOk lines (λ l. l.items ≡ text) → result ≡ Err stop.WriteFault
        → AppendsLess (K.written sink.old) (K.written sink.new) text }
    ensures unsaid { result ≡ Err stop.NoMemory → K.written sink.new ≡ K.written sink.old }
    ensures cause { HasStopCause (K.faults sink.old) (K.faults sink.new) result }
{
    match lines {
        Ok(lines) => match put_all(sink, &lines) {
            Ok(()) => Ok(()),
            Err(Failed) => Err(PutStop::WriteFault),
        },
        Err(NoMemory) => Err(PutStop::NoMemory),
    }
}
