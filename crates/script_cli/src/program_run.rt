//! A run or a sample: from the words, the bytes of the script, what the sink takes and the file on
//! the disk to a status.

ghost use Rattle.std.specs.Prelude.{◌≡◌, ◌⊎◌, List, ℕ, IsTrue, Option, Some, None, map};
ghost use Rattle.std.specs.Prelude.{string_bytes};
ghost use Rattle.disk_model.specs.Meaning.{IfKnown};
ghost use Rattle.disk_model.specs.Moments.{GoesOn};
ghost use Rattle.script_cli_statement.specs.ArchiveOnDisk.{book_meaning};
ghost use Rattle.archive_core_file_spec.specs.LogRecords.{LogRecord};
ghost use Rattle.archive_core_file_spec.specs.Opening.{Opens, Damages};
ghost use Rattle.script_cli_arguments.specs.Arguments.{asked, asked_for, limit_of_run};
ghost use Rattle.script_cli_arguments.specs.declared.request.Mode.TheVariants.{Sample};
ghost use Rattle.script_cli_statement.specs.Replies.{recorded};
ghost use Rattle.script_cli.specs.Laws.{OutputLaws};
ghost use Rattle.script_cli.specs.Promises.{RunOutcome, SampleOutcome};
ghost use Rattle.script_cli.specs.Runs.{IsUntouched, RunsOver, RefusedWords, given_by};
ghost use Rattle.script_cli.specs.Runs.{KeepsAnswered, StaysUnanswered};
ghost use Rattle.script_cli.specs.Runs.{SourceCounted, SinkCounted, DiskCounted};
ghost use Rattle.script_cli.specs.Sampling.{AsksSample, SamplesOver};
ghost use Rattle.script_cli.specs.declared.status.Status.TheVariants as Status;

use crate::disk_run::run_over;
use crate::sample::sample_over;
use crate::status::Status;
use crate::word::{Word, refuse_words};
use archive_core_file_spec::a_file_opens_or_is_damaged;
use disk_model::Disk;
use period_join::related_entries_are_all;
use prima_base::NoMemory;
use prima_io::{Sink, Source};
use query_pieces_spec::an_accepted_query_asks_questions;
use script_cli_arguments::{Mode, Request, asked};
use script_cli_statement::{Rule, RuleBook};
use script_parse::{
    limits_are_kept, readings_are_of_the_grammar, readings_are_one, statements_are_read,
    texts_are_lexed,
};
use script_parse_laws::{a_script_is_read_in_one_way, a_statement_has_no_open_text};
use sessions::{
    cursors_keep_their_answers, only_commits_change, sessions_are_apart, transactions_are_whole,
};
use smo_ops::a_command_is_seen_from_its_stamp_on;
use std::alloc::Global;
use store_image_spec::an_image_shows_a_past;
use temporal_lang_losses_spec::{databases_agree_up_to_losses, no_answer_shows_a_filling};
use temporal_lang_spec::{
    a_query_is_refused_for_want_of_an_inverse_alone, listing_is_the_one_list,
};

// The run over a disk that is borrowed.
fn run_borrowed<S: Source, K: Sink, D: Disk, R: Rule>(
    alloc: Global,
    limit: u64,
    book: &RuleBook<R>,
    source: &mut S,
    sink: &mut K,
    disk: &mut D,
) -> Status
    ensures goes { GoesOn (D.meaning disk.old) (D.meaning disk.new) }
    ensures runs { RunsOver (given_by limit (book_meaning R.Rule book.now))
        result (S.left source.old) (S.left source.new) (K.written sink.old) (K.written sink.new)
        (K.faults sink.old) (K.faults sink.new) (D.meaning disk.old) (D.meaning disk.new) }
    ensures source { SourceCounted result (S.faults source.old) (S.faults source.new) }
    ensures sink { SinkCounted result (K.faults sink.old) (K.faults sink.new) }
    ensures disk { DiskCounted result (D.meaning disk.old).faults (D.meaning disk.new).faults }
{
    let ended = run_over(alloc, limit, book, source, sink, &mut *disk);
    ended.0
}

// The sample over a disk that is borrowed.
fn sample_borrowed<K: Sink, D: Disk, R: Rule>(
    alloc: Global,
    limit: u64,
    size: u32,
    book: &RuleBook<R>,
    sink: &mut K,
    disk: &mut D,
) -> Status
    ensures goes { GoesOn (D.meaning disk.old) (D.meaning disk.new) }
    ensures samples { (left : Option (List ℕ))
        → SamplesOver size (given_by limit (book_meaning R.Rule book.now))
        result left left (K.written sink.old) (K.written sink.new) (K.faults sink.old)
        (K.faults sink.new)
        (D.meaning disk.old) (D.meaning disk.new) }
    ensures sink { SinkCounted result (K.faults sink.old) (K.faults sink.new) }
    ensures disk { DiskCounted result (D.meaning disk.old).faults (D.meaning disk.new).faults }
{
    let ended = sample_over(alloc, limit, size, book, sink, &mut *disk);
    ended.0
}

// Does what the words ask for.
fn perform<S: Source, K: Sink, D: Disk, R: Rule>(
    alloc: Global,
    request: Request,
    book: &RuleBook<R>,
    source: &mut S,
    sink: &mut K,
    disk: &mut D,
) -> Status
    ensures arguments { result ≡ Status.Words → ⊥ }
    ensures runs { (limit : ℕ) → limit_of_run request ≡ Some limit
        → RunsOver (given_by limit (book_meaning R.Rule book.now)) result
        (S.left source.old) (S.left source.new) (K.written sink.old) (K.written sink.new)
        (K.faults sink.old) (K.faults sink.new) (D.meaning disk.old) (D.meaning disk.new) }
    ensures samples { (size : ℕ) → request.mode ≡ Sample size → (source.new ≡ source.old)
        × SamplesOver size (given_by request.journal_limit
        (book_meaning R.Rule book.now)) result (S.left source.old)
        (S.left source.new) (K.written sink.old) (K.written sink.new) (K.faults sink.old)
        (K.faults sink.new)
        (D.meaning disk.old) (D.meaning disk.new) }
    ensures goes { GoesOn (D.meaning disk.old) (D.meaning disk.new) }
    ensures source { SourceCounted result (S.faults source.old) (S.faults source.new) }
    ensures sink { SinkCounted result (K.faults sink.old) (K.faults sink.new) }
    ensures disk { DiskCounted result (D.meaning disk.old).faults (D.meaning disk.new).faults }
{
    match request.mode {
        Mode::Run => run_borrowed(alloc, request.journal_limit, book, source, sink, disk),
        Mode::Sample(size) => sample_borrowed(alloc, request.journal_limit, size, book, sink, disk),
    }
}

// The words are checked, and then what they ask for is done.
fn check_and_run<S: Source, K: Sink, D: Disk, R: Rule>(
    alloc: Global,
    arguments: &[Word],
    book: &RuleBook<R>,
    source: &mut S,
    sink: &mut K,
    disk: &mut D,
) -> Status
    ensures arguments { result ≡ Status.Words → asked (map string_bytes arguments.now) ≡ None }
    ensures refused { asked (map string_bytes arguments.now) ≡ None
        → RefusedWords result (S.left source.old) (S.left source.new) (K.written sink.old)
        (K.written sink.new) (K.faults sink.old) (K.faults sink.new) disk.old disk.new }
    ensures runs { (limit : ℕ) → asked_for (map string_bytes arguments.now) ≡ Some limit
        → IsUntouched result (S.left source.old) (S.left source.new) (K.written sink.old)
        (K.written sink.new) disk.old disk.new
        ⊎ RunsOver (given_by limit (book_meaning R.Rule book.now)) result
        (S.left source.old) (S.left source.new) (K.written sink.old) (K.written sink.new)
        (K.faults sink.old) (K.faults sink.new) (D.meaning disk.old) (D.meaning disk.new) }
    ensures quiet { (limit : ℕ) → (size : ℕ) → AsksSample (map string_bytes arguments.now) limit
        size
        → source.new ≡ source.old }
    ensures samples { (limit : ℕ) → (size : ℕ)
        → AsksSample (map string_bytes arguments.now) limit size
        → IsUntouched result (S.left source.old) (S.left source.new) (K.written sink.old)
        (K.written sink.new) disk.old disk.new
        ⊎ SamplesOver size (given_by limit (book_meaning R.Rule book.now))
        result (S.left source.old) (S.left source.new) (K.written sink.old) (K.written sink.new)
        (K.faults sink.old) (K.faults sink.new) (D.meaning disk.old) (D.meaning disk.new) }
    ensures goes { GoesOn (D.meaning disk.old) (D.meaning disk.new) }
    ensures source { SourceCounted result (S.faults source.old) (S.faults source.new) }
    ensures sink { SinkCounted result (K.faults sink.old) (K.faults sink.new) }
    ensures disk { DiskCounted result (D.meaning disk.old).faults (D.meaning disk.new).faults }
{
    match asked(alloc, arguments) {
        Ok(asked) => match asked {
            Some(request) => perform(alloc, request, book, source, sink, disk),
            None => refuse_words(sink),
        },
        Err(NoMemory) => Status::NoMemory,
    }
}

/// Runs a script over the archive on a disk: reads it from the source to its end, puts the records
/// of accepted commands and of checkpoints on the disk, and the replies into the sink, each
/// statement's when it ends. The words are checked first; then the disk is opened; then the script
/// is read. The first fault ends the run. By the book's rules queries are taken from version to
/// version. Where the words ask for a sample, the script is the one that is made from its size,
/// nothing is taken from the source, and the summary of the replies is put in their place.
///
/// `output` is defined over the script's bytes, however they are cut, and what stood after the
/// opening records: the replies to its statements in order, then the line for what stands after the
/// last `;`. What it is made of is said by the fields of `OutputLaws`.
pub fn run<S: Source, K: Sink, D: Disk, R: Rule>(
    alloc: Global,
    arguments: &[Word],
    book: &RuleBook<R>,
    source: &mut S,
    sink: &mut K,
    disk: &mut D,
) -> Status

    // Words comes exactly where they are not accepted, unless memory ran out; nothing is then
    // taken, and no disk called.
    ensures arguments { result ≡ Status.Words → asked (map string_bytes arguments.now) ≡ None }
    ensures refused { asked (map string_bytes arguments.now) ≡ None
        → RefusedWords result (S.left source.old) (S.left source.new) (K.written sink.old)
        (K.written sink.new) (K.faults sink.old) (K.faults sink.new) disk.old disk.new }

    // Where the words ask for a run: what is taken, written and left on the disk, by the status;
    // a prefix of the script's output, whatever happens, and all of it where the script was read to
    // its end; what a crash leaves wherever the run is stopped; and that sound files stay so.
    ensures runs { (limit : ℕ) → asked_for (map string_bytes arguments.now) ≡ Some limit
        → RunOutcome (given_by limit (book_meaning R.Rule book.now)) D.meaning
        result (S.left source.old) (S.left source.new) (K.written sink.old) (K.written sink.new)
        (K.faults sink.old) (K.faults sink.new) disk.old disk.new }

    // Where they ask for a sample: the same of its script, of which the summary is written. No
    // source is called.
    ensures samples { (limit : ℕ) → (size : ℕ)
        → AsksSample (map string_bytes arguments.now) limit size
        → SampleOutcome size (given_by limit (book_meaning R.Rule book.now))
        D.meaning result (S.left source.old) (S.left source.new) (K.written sink.old)
        (K.written sink.new) (K.faults sink.old) (K.faults sink.new) disk.old disk.new }
    ensures quiet { (limit : ℕ) → (size : ℕ) → AsksSample (map string_bytes arguments.now) limit
        size
        → source.new ≡ source.old }

    // What was acknowledged stays, where the file opens: either no byte of the script was taken and
    // none was written, and a crash leaves nothing worse than before; or each file that a crash may
    // leave at the exit opens as the opening records, those of all statements that were answered
    // whole, and at most one more.
    ensures acknowledged { (limit : ℕ) → (file : List ℕ) → (opening : List LogRecord)
        → asked_for (map string_bytes arguments.now) ≡ Some limit
        → IsTrue (D.meaning disk.old).is_honest → (D.meaning disk.old).seen ≡ Some file
        → Opens file opening
        → StaysUnanswered opening (S.left source.old) (S.left source.new) (K.written sink.old)
        (K.written sink.new) (D.meaning disk.old).may_leave (D.meaning disk.new).may_leave
        ⊎ KeepsAnswered (given_by limit (book_meaning R.Rule book.now))
        (recorded opening) opening (S.left source.old) (S.left source.new) (K.written sink.old)
        (K.written sink.new) (D.meaning disk.new).may_leave }

    // NotAJournal comes exactly where the file is damaged, at its place, unless the disk failed or
    // memory ran out.
    ensures damaged { (place : ℕ) → result ≡ Status.NotAJournal place
        → IfKnown (D.meaning disk.old).seen (λ file. Damages file place) }

    // A fault is answered only where the count of its object rose in this call, and with any
    // other status the count is as it was; but where the words are wrong or the file is no journal
    // the sink's may have risen, by the line that says so.
    ensures source { SourceCounted result (S.faults source.old) (S.faults source.new) }
    ensures sink { SinkCounted result (K.faults sink.old) (K.faults sink.new) }
    ensures disk { DiskCounted result (D.meaning disk.old).faults (D.meaning disk.new).faults }

    // Its moments join those of the disk before it.
    ensures goes { GoesOn (D.meaning disk.old) (D.meaning disk.new) }

    // What scripts, statements and replies are: how a script is cut, how a statement is read, what
    // a command changes, what a query lists and EXPLAIN tells, what becomes of cursors and
    // transactions between the statements of others, and which replies are errors.
    ensures laws { OutputLaws (book_meaning R.Rule book.now) }
{
    a_script_is_read_in_one_way();
    a_statement_has_no_open_text();
    texts_are_lexed();
    readings_are_of_the_grammar();
    statements_are_read();
    readings_are_one();
    limits_are_kept();
    a_command_is_seen_from_its_stamp_on();
    listing_is_the_one_list();
    a_query_is_refused_for_want_of_an_inverse_alone();
    an_accepted_query_asks_questions();
    related_entries_are_all();
    databases_agree_up_to_losses();
    no_answer_shows_a_filling();
    cursors_keep_their_answers();
    transactions_are_whole();
    only_commits_change();
    sessions_are_apart();
    a_file_opens_or_is_damaged();
    an_image_shows_a_past();
    book.known();
    check_and_run(alloc, arguments, book, source, sink, disk)
}
