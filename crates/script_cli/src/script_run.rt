//! A script that is being read: cut into statements, each answered as it ends.

ghost use Rattle.std.specs.Prelude.{◌≡◌, ◌<◌, ◌≤◌, ◌||◌, ℕ, List, [], true, false, length, OnOk};
ghost use Rattle.std.specs.Prelude.{OnErr, IfOk, IfErr, MatchResult, MatchOption, option_map};
ghost use Rattle.std.specs.Io.KnownBytes.{Appends};
ghost use Rattle.prima_io.specs.Causes.{HasCause};
ghost use Rattle.prima_io.specs.Moves.{AppendsPrefix};
ghost use Rattle.prima_base.specs.declared.refusal.Refusal.TheVariants as refusal;
ghost use Rattle.sessions.specs.SessionStates.{no_sessions};
ghost use Rattle.sessions.specs.Meaning.{sessions_of};
ghost use Rattle.script_parse.specs.Splitting.{fresh};
ghost use Rattle.script_cli_statement.specs.ArchiveOnDisk.{book_meaning, below};
ghost use Rattle.answer_text.specs.RefusalTexts.{refusal_text};
ghost use Rattle.script_cli_statement.specs.Given.{Given};
ghost use Rattle.script_cli_statement.specs.Replies.{Recorded, reply, refused};
ghost use Rattle.script_cli.specs.Output.{tail_text, tail_is_due};
ghost use Rattle.script_cli_statement.specs.StopReasons.{StopCounted};
ghost use Rattle.script_cli_statement.specs.Puts.{is_error};
ghost use Rattle.script_cli.specs.Taking.{Fed, Answered, Stopped, parts_after, ending_after};
ghost use Rattle.script_cli.specs.Taking.{RepresentsRun};
ghost use Rattle.script_cli_statement.specs.Responses.{StopsIn, TakesRecords};

use disk_model::Disk;
use prima_base::{NoMemory, Refusal};
use prima_io::{Failed, Sink};
use script_cli_statement::{Archive, ReplyKind, Rule, RuleBook, StopReason, refuse, respond};
use script_parse::{Cut, Splitter, Tail};
use sessions::Sessions;
use std::alloc::Global;

/// What cuts the script, the sessions that its statements have begun, whether an `error` line was
/// put, and how many commands were.
#[derive(Drop)]
pub(crate) struct ScriptRun {
    alloc: Global,
    splitter: Splitter,
    sessions: Sessions,
    refused: bool,
    puts: u64,
}

impl ScriptRun {
    /// A run that has read nothing.
    pub(crate) fn new(alloc: Global) -> ScriptRun
        ensures splitter { result.splitter ≡ fresh }
        ensures sessions { sessions_of result.sessions ≡ no_sessions }
        ensures refused { result.refused ≡ false }
        ensures puts { result.puts ≡ 0 }
    {
        ScriptRun {
            alloc,
            splitter: Splitter::new(alloc),
            sessions: Sessions::new(alloc),
            refused: false,
            puts: 0,
        }
    }

    /// How many commands were put.
    pub(crate) fn puts(&self) -> u64
        ensures { result ≡ self.now.puts }
    {
        self.puts
    }

    // Puts the reply to a statement. There is no memory for more commands than a number can count.
    fn answer<K: Sink, D: Disk, R: Rule>(
        &mut self,
        archive: &mut Archive<D>,
        book: &RuleBook<R>,
        sink: &mut K,
        text: &[u8],
    ) -> Result<(), StopReason>
        requires short { length text.now ≤ 1048576 }
        requires takes { TakesRecords archive.old }
        ensures answered { (limit : Given) → limit.book
            ≡ book_meaning R.Rule book.now → (now : Recorded)
            → RepresentsRun archive.old self.old limit now
            → OnOk result (Answered limit (reply limit now text.now) self.old self.new archive.old
            archive.new (K.written sink.old) (K.written sink.new)) }
        ensures stopped { (limit : Given) → limit.book
            ≡ book_meaning R.Rule book.now → (now : Recorded)
            → RepresentsRun archive.old self.old limit now
            → IfErr result (λ reason. StopsIn reason (reply limit now text.now) archive.old
            archive.new
            (K.written sink.old) (K.written sink.new)) }
        ensures splitter { self.new.splitter ≡ self.old.splitter }
        ensures takes { OnOk result (TakesRecords archive.new) }
        ensures counts { StopCounted result (K.faults sink.old) (K.faults sink.new)
            (below archive.old).faults (below archive.new).faults }
    {
        let Some(more) = self.puts.checked_add(1) else {
            return Err(StopReason::NoMemory);
        };
        match respond(self.alloc, archive, book, &mut self.sessions, sink, text) {
            Ok(put) => {
                self.refused = self.refused || put.is_error();
                if put.is_command() {
                    self.puts = more;
                }
                Ok(())
            }
            Err(reason) => Err(reason),
        }
    }

    // Puts the refusal of a statement that is too long.
    fn refuse_long<K: Sink>(&mut self, sink: &mut K) -> Result<(), Failed>
        ensures all { OnOk result (Appends (K.written sink.old) (K.written sink.new)
            (refusal_text refusal.TooLong)) }
        ensures part { OnErr result (AppendsPrefix (K.written sink.old) (K.written sink.new)
            (refusal_text refusal.TooLong)) }
        ensures refused { OnOk result (self.new.refused ≡ true) }
        ensures splitter { self.new.splitter ≡ self.old.splitter }
        ensures sessions { self.new.sessions ≡ self.old.sessions }
        ensures puts { self.new.puts ≡ self.old.puts }
        ensures cause { HasCause (K.faults sink.old) (K.faults sink.new) result }
    {
        match refuse(sink, &Refusal::TooLong) {
            Ok(_) => {
                self.refused = true;
                Ok(())
            }
            Err(Failed) => Err(Failed),
        }
    }

    // Takes the bytes up to the end of a statement, and puts its reply; answers what is left of
    // them, `None` where no statement ended.
    fn turn<'b, K: Sink, D: Disk, R: Rule>(
        &mut self,
        archive: &mut Archive<D>,
        book: &RuleBook<R>,
        sink: &mut K,
        bytes: &'b [u8],
    ) -> Result<Option<&'b [u8]>, StopReason>
        requires ready { self.old.splitter.spent ≡ false }
        requires takes { TakesRecords archive.old }
        ensures fed { (limit : Given) → limit.book
            ≡ book_meaning R.Rule book.now → (now : Recorded)
            → RepresentsRun archive.old self.old limit now
            → IfOk result (λ rest. MatchOption rest
            (Fed limit now self.old self.new archive.old archive.new bytes.now []
            (K.written sink.old) (K.written sink.new))
            (λ rest. Fed limit now self.old self.new archive.old archive.new bytes.now rest.now
            (K.written sink.old) (K.written sink.new))) }
        ensures halted { (limit : Given) → limit.book
            ≡ book_meaning R.Rule book.now → (now : Recorded)
            → RepresentsRun archive.old self.old limit now
            → IfErr result (λ reason. Stopped reason limit now (parts_after self.old bytes.now)
            archive.old archive.new (K.written sink.old) (K.written sink.new)) }
        ensures fewer { IfOk result (λ rest. MatchOption rest (Unit {0})
            (λ rest. length rest.now < length bytes.now)) }
        ensures ready { OnOk result (self.new.splitter.spent ≡ false) }
        ensures takes { OnOk result (TakesRecords archive.new) }
        ensures counts { StopCounted result (K.faults sink.old) (K.faults sink.new)
            (below archive.old).faults (below archive.new).faults }
    {
        match self.splitter.feed(bytes) {
            Ok((cut, rest)) => match cut {
                Cut::More => Ok(None),
                Cut::Text(text) => match self.answer(archive, book, sink, &text) {
                    Ok(()) => Ok(Some(rest)),
                    Err(reason) => Err(reason),
                },
                Cut::TooLong => match self.refuse_long(sink) {
                    Ok(()) => Ok(Some(rest)),
                    Err(Failed) => Err(StopReason::WriteFault),
                },
            },
            Err(NoMemory) => Err(StopReason::NoMemory),
        }
    }

    /// Takes the next chunk of the script, and puts the replies to the statements that end in it.
    /// The first fault stops it.
    pub(crate) fn feed<K: Sink, D: Disk, R: Rule>(
        &mut self,
        archive: &mut Archive<D>,
        book: &RuleBook<R>,
        sink: &mut K,
        chunk: &[u8],
    ) -> Result<(), StopReason>
        requires ready { self.old.splitter.spent ≡ false }
        requires takes { TakesRecords archive.old }
        ensures fed { (limit : Given) → limit.book
            ≡ book_meaning R.Rule book.now → (now : Recorded)
            → RepresentsRun archive.old self.old limit now
            → OnOk result (Fed limit now self.old self.new archive.old archive.new chunk.now []
            (K.written sink.old) (K.written sink.new)) }
        ensures halted { (limit : Given) → limit.book
            ≡ book_meaning R.Rule book.now → (now : Recorded)
            → RepresentsRun archive.old self.old limit now
            → IfErr result (λ reason. Stopped reason limit now (parts_after self.old chunk.now)
            archive.old archive.new (K.written sink.old) (K.written sink.new)) }
        ensures ready { OnOk result (self.new.splitter.spent ≡ false) }
        ensures takes { OnOk result (TakesRecords archive.new) }
        ensures counts { StopCounted result (K.faults sink.old) (K.faults sink.new)
            (below archive.old).faults (below archive.new).faults }
    {
        let mut rest = chunk;
        'turns: loop {
            match self.turn(archive, book, sink, rest) {
                Ok(left) => match left {
                    Some(left) => rest = left,
                    None => return Ok(()),
                },
                Err(reason) => return Err(reason),
            }
        }
    }

    /// Puts what is due at the script's end, and answers whether an `error` line was put or is.
    pub(crate) fn finish<K: Sink>(self, sink: &mut K) -> Result<ReplyKind, Failed>
        requires { self.splitter.spent ≡ false }
        ensures ok { IfOk result (λ put. is_error put
            ≡ (self.refused || tail_is_due (ending_after self []))) }
        ensures all { OnOk result (Appends (K.written sink.old) (K.written sink.new)
            (tail_text (ending_after self []))) }
        ensures part { OnErr result (AppendsPrefix (K.written sink.old) (K.written sink.new)
            (tail_text (ending_after self []))) }
        ensures cause { HasCause (K.faults sink.old) (K.faults sink.new) result }
    {
        let refused = self.refused;
        match self.splitter.finish() {
            Tail::Clean => Ok(ReplyKind::new(refused)),
            Tail::Unfinished => refuse(sink, &Refusal::Unfinished),
            Tail::TooLong => refuse(sink, &Refusal::TooLong),
        }
    }
}
