//! The lines of accepted commands and checkpoints, and those of wrong words and of a file that is
//! no journal.

ghost use Rattle.std.specs.Prelude.{◌≡◌, OnOk, OnErr};
ghost use Rattle.std.specs.Io.KnownBytes.{Appends};
ghost use Rattle.prima_io.specs.Causes.{HasCause};
ghost use Rattle.prima_io.specs.Moves.{AppendsLess};
ghost use Rattle.answer_text.specs.Texts.{changed_text, checkpoint_text, evolved_text};
ghost use Rattle.answer_text.specs.Texts.{not_a_journal_text, wrong_words_text};

use crate::line::ReplyLine;
use prima_io::{Failed, Sink, put_all};

#[tactic(auto, unfolding(crate::specs::Texts::changed_text))]
fn changed_line(stamp: u64, gained: u64, lost: u64) -> ReplyLine
    ensures { result ≡ changed_text stamp gained lost }
{
    let mut line = ReplyLine::new();
    line.add(b"ok ");
    line.add_number(stamp);
    line.add(b" +");
    line.add_number(gained);
    line.add(b" -");
    line.add_number(lost);
    line.add(b"\n");
    line
}

#[tactic(auto, unfolding(crate::specs::Texts::evolved_text))]
fn evolved_line(stamp: u64, version: u32) -> ReplyLine
    ensures { result ≡ evolved_text stamp version }
{
    let mut line = ReplyLine::new();
    line.add(b"ok ");
    line.add_number(stamp);
    line.add(b" version ");
    line.add_number(u64::from(version));
    line.add(b"\n");
    line
}

/// Puts the reply to a command of changes at this moment that gained and lost so many rows.
/// `Failed`, here and below, comes only where the sink's count of faults rose; a prefix of the
/// line, and not all of it, was then put.
pub fn put_changed<K: Sink>(sink: &mut K, stamp: u64, gained: u64, lost: u64) -> Result<(), Failed>
    ensures all { OnOk result (Appends (K.written sink.old) (K.written sink.new)
        (changed_text stamp gained lost)) }
    ensures part { OnErr result (AppendsLess (K.written sink.old) (K.written sink.new)
        (changed_text stamp gained lost)) }
    ensures cause { HasCause (K.faults sink.old) (K.faults sink.new) result }
{
    let mut line = changed_line(stamp, gained, lost);
    line.flush(sink)
}

/// Puts the reply to an operator that made this version at this moment.
pub fn put_evolved<K: Sink>(sink: &mut K, stamp: u64, version: u32) -> Result<(), Failed>
    ensures all { OnOk result (Appends (K.written sink.old) (K.written sink.new)
        (evolved_text stamp version)) }
    ensures part { OnErr result (AppendsLess (K.written sink.old) (K.written sink.new)
        (evolved_text stamp version)) }
    ensures cause { HasCause (K.faults sink.old) (K.faults sink.new) result }
{
    let mut line = evolved_line(stamp, version);
    line.flush(sink)
}

/// Puts the reply to a CHECKPOINT that was stored.
#[tactic(auto, unfolding(crate::specs::Texts::checkpoint_text))]
pub fn put_checkpoint<K: Sink>(sink: &mut K) -> Result<(), Failed>
    ensures all { OnOk result (Appends (K.written sink.old) (K.written sink.new) checkpoint_text) }
    ensures part { OnErr result (AppendsLess (K.written sink.old) (K.written sink.new)
        checkpoint_text) }
    ensures cause { HasCause (K.faults sink.old) (K.faults sink.new) result }
{
    put_all(sink, b"ok checkpoint\n")
}

/// Puts the fault line of a call by wrong words.
#[tactic(auto, unfolding(crate::specs::Texts::wrong_words_text))]
pub fn put_wrong_words<K: Sink>(sink: &mut K) -> Result<(), Failed>
    ensures all { OnOk result (Appends (K.written sink.old) (K.written sink.new) wrong_words_text) }
    ensures part { OnErr result (AppendsLess (K.written sink.old) (K.written sink.new)
        wrong_words_text) }
    ensures cause { HasCause (K.faults sink.old) (K.faults sink.new) result }
{
    put_all(sink, b"fault 2\n")
}

#[tactic(auto, unfolding(crate::specs::Texts::not_a_journal_text))]
fn not_a_journal_line(place: u64) -> ReplyLine
    ensures { result ≡ not_a_journal_text place }
{
    let mut line = ReplyLine::new();
    line.add(b"fault 6 ");
    line.add_number(place);
    line.add(b"\n");
    line
}

/// Puts the fault line of a file that is no journal: it is damaged at this place.
pub fn put_not_a_journal<K: Sink>(sink: &mut K, place: u64) -> Result<(), Failed>
    ensures all { OnOk result (Appends (K.written sink.old) (K.written sink.new)
        (not_a_journal_text place)) }
    ensures part { OnErr result (AppendsLess (K.written sink.old) (K.written sink.new)
        (not_a_journal_text place)) }
    ensures cause { HasCause (K.faults sink.old) (K.faults sink.new) result }
{
    let mut line = not_a_journal_line(place);
    line.flush(sink)
}
