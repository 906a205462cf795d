//! A word of a call, and the line for wrong ones.

ghost use Rattle.std.specs.Prelude.{◌≡◌, ◌≤◌};
ghost use Rattle.answer_text.specs.Texts.{wrong_words_text};
ghost use Rattle.script_cli.specs.Runs.{PutsLine};
ghost use Rattle.script_cli.specs.declared.status.Status.TheVariants as Status;

use crate::status::Status;
use answer_text::put_wrong_words;
use prima_io::{Failed, Sink};

/// One word of the command line after the program's name.
pub type Word = String;

/// Puts the line for wrong words. The status is the same where the sink fails.
pub(crate) fn refuse_words<K: Sink>(sink: &mut K) -> Status
    ensures status { result ≡ Status.Words }
    ensures later { K.faults sink.old ≤ K.faults sink.new }
    ensures wrote { PutsLine wrong_words_text (K.written sink.old) (K.written sink.new)
        (K.faults sink.old) (K.faults sink.new) }
{
    match put_wrong_words(sink) {
        Ok(()) => Status::Words,
        Err(Failed) => Status::Words,
    }
}
