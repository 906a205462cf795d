//! The lines of refusals.

ghost use Rattle.std.specs.Prelude.{◌≡◌, ◌+◌, ◌≤◌, ◌++◌, length, codes, OnOk, OnErr};
ghost use Rattle.std.specs.List.{flat_map};
ghost use Rattle.std.specs.Io.KnownBytes.{Appends};
ghost use Rattle.prima_io.specs.Causes.{HasCause};
ghost use Rattle.prima_io.specs.Moves.{AppendsLess};
ghost use Rattle.answer_text.specs.RefusalTexts.{kept_text, what_word, kind_words, op_number};
ghost use Rattle.answer_text.specs.RefusalTexts.{op_kept, number_of, kept_of, refusal_text};
ghost use Rattle.answer_text.specs.KeptValues.{value_text};

use crate::line::ReplyLine;
use prima_base::{Name, OpKind, OpRefusal, Refusal, What};
use prima_io::{Failed, Sink};

/// A value that a refusal keeps, or none.
#[derive(Clone, Copy)]
pub(crate) enum Kept<'a> {
    Nothing,
    Number(u64),
    Name(&'a Name),
    What(What),
    Kind(OpKind),
}

fn what_word(what: What) -> &'static [u8]
    ensures word { result.now ≡ what_word what }
    ensures short { length result.now ≤ 63 }
{
    match what {
        What::Nodes => b"nodes",
        What::Depth => b"depth",
        What::Parts => b"parts",
        What::Tables => b"tables",
        What::Branches => b"branches",
        What::Outputs => b"outputs",
        What::Keeps => b"keeps",
        What::Changes => b"changes",
        What::Columns => b"columns",
        What::Inverse => b"inverse",
        What::Versions => b"versions",
    }
}

fn kind_words(kind: OpKind) -> &'static [u8]
    ensures words { result.now ≡ kind_words kind }
    ensures short { length result.now ≤ 63 }
{
    match kind {
        OpKind::Nop => b"NOP",
        OpKind::CreateTable => b"CREATE TABLE",
        OpKind::DropTable => b"DROP TABLE",
        OpKind::RenameTable => b"RENAME TABLE",
        OpKind::CopyTable => b"COPY TABLE",
        OpKind::MergeTable => b"MERGE TABLE",
        OpKind::PartitionTable => b"PARTITION TABLE",
        OpKind::DecomposeTable => b"DECOMPOSE TABLE",
        OpKind::JoinTable => b"JOIN TABLE",
        OpKind::AddColumn => b"ADD COLUMN",
        OpKind::DropColumn => b"DROP COLUMN",
        OpKind::RenameColumn => b"RENAME COLUMN",
    }
}

fn op_number(refusal: &OpRefusal) -> u64
    ensures { result ≡ op_number refusal.now }
{
    match refusal {
        OpRefusal::NoTable(_) => 22,
        OpRefusal::NoColumn(_, _) => 23,
        OpRefusal::WrongType(_) => 25,
        OpRefusal::Exists(_) => 26,
        OpRefusal::ColumnExists(_, _) => 27,
        OpRefusal::ColumnsDiffer(_, _) => 28,
        OpRefusal::BadCover(_) => 29,
        OpRefusal::LastColumn(_) => 30,
        OpRefusal::SameTable(_) => 31,
        OpRefusal::TooMany(_, _) => 38,
    }
}

fn number_of(refusal: &Refusal) -> u64
    ensures { result ≡ number_of refusal.now }
{
    match refusal {
        Refusal::Syntax(_) => 10,
        Refusal::Unfinished => 11,
        Refusal::TooLong => 12,
        Refusal::StampNotLater(_, _) => 20,
        Refusal::NoVersion(_, _) => 21,
        Refusal::NoTable(_) => 22,
        Refusal::NoColumn(_) => 23,
        Refusal::Ambiguous(_) => 24,
        Refusal::WrongType(_) => 25,
        Refusal::Exists(_) => 26,
        Refusal::ColumnExists(_, _) => 27,
        Refusal::ColumnsDiffer(_, _) => 28,
        Refusal::BadCover(_) => 29,
        Refusal::LastColumn(_) => 30,
        Refusal::SameTable(_) => 31,
        Refusal::InverseMisses(_) | Refusal::InverseOp(_, _) => 32,
        Refusal::NoInverse(_, _) => 33,
        Refusal::EmptyPeriod(_, _) => 34,
        Refusal::ColumnMissing(_, _) => 35,
        Refusal::Arity(_) => 36,
        Refusal::JournalFull(_, _, _) => 37,
        Refusal::TooMany(_, _) => 38,
        Refusal::TooWide(_) => 39,
        Refusal::SchemaMoved(_, _) => 50,
        Refusal::TooLongStamp(_, _) => 51,
        Refusal::Begun(_) => 52,
        Refusal::NotBegun(_) => 53,
        Refusal::CursorOpen(_, _) => 54,
        Refusal::NoCursor(_, _) => 55,
        Refusal::NoOutput(_, _) => 56,
        Refusal::NotANumber(_) => 57,
    }
}

// What an operator's refusal keeps.
fn op_values<'a>(refusal: &'a OpRefusal) -> (Kept<'a>, Kept<'a>)
    ensures { value_text result.0 ++ value_text result.1
        ≡ flat_map kept_text (op_kept refusal.now) }
{
    match refusal {
        OpRefusal::NoTable(table)
        | OpRefusal::Exists(table)
        | OpRefusal::BadCover(table)
        | OpRefusal::LastColumn(table)
        | OpRefusal::SameTable(table) => (Kept::Name(table), Kept::Nothing),
        OpRefusal::NoColumn(_, column) => (Kept::Name(column), Kept::Nothing),
        OpRefusal::WrongType(place) => (Kept::Number(u64::from(*place)), Kept::Nothing),
        OpRefusal::ColumnExists(table, column) => (Kept::Name(table), Kept::Name(column)),
        OpRefusal::ColumnsDiffer(left, right) => (Kept::Name(left), Kept::Name(right)),
        OpRefusal::TooMany(what, limit) => (Kept::What(*what), Kept::Number(*limit)),
    }
}

// What a refusal keeps of names alone, or of one number or word and a number.
fn values_of<'a>(refusal: &'a Refusal) -> (Kept<'a>, Kept<'a>, Kept<'a>, Kept<'a>)
    ensures { value_text result.0 ++ value_text result.1 ++ value_text result.2
        ++ value_text result.3 ≡ flat_map kept_text (kept_of refusal.now) }
{
    let none = Kept::Nothing;
    match refusal {
        Refusal::Unfinished | Refusal::TooLong => (none, none, none, none),
        Refusal::Syntax(number)
        | Refusal::WrongType(number)
        | Refusal::Arity(number)
        | Refusal::Begun(number)
        | Refusal::NotBegun(number)
        | Refusal::NotANumber(number) => (Kept::Number(u64::from(*number)), none, none, none),
        Refusal::NoTable(name)
        | Refusal::NoColumn(name)
        | Refusal::Ambiguous(name)
        | Refusal::Exists(name)
        | Refusal::BadCover(name)
        | Refusal::LastColumn(name)
        | Refusal::SameTable(name)
        | Refusal::InverseMisses(name) => (Kept::Name(name), none, none, none),
        Refusal::ColumnExists(first, second)
        | Refusal::ColumnsDiffer(first, second)
        | Refusal::ColumnMissing(first, second) => {
            (Kept::Name(first), Kept::Name(second), none, none)
        }
        Refusal::StampNotLater(first, second)
        | Refusal::EmptyPeriod(first, second)
        | Refusal::TooLongStamp(first, second) => {
            (Kept::Number(*first), Kept::Number(*second), none, none)
        }
        Refusal::NoVersion(first, second)
        | Refusal::SchemaMoved(first, second)
        | Refusal::NoOutput(first, second) => (
            Kept::Number(u64::from(*first)),
            Kept::Number(u64::from(*second)),
            none,
            none,
        ),
        Refusal::CursorOpen(session, cursor) | Refusal::NoCursor(session, cursor) => (
            Kept::Number(u64::from(*session)),
            Kept::Name(cursor),
            none,
            none,
        ),
        Refusal::InverseOp(at, why) => {
            let (first, second) = op_values(why);
            (
                Kept::Number(u64::from(*at)),
                Kept::Number(op_number(why)),
                first,
                second,
            )
        }
        Refusal::NoInverse(version, kind) => (
            Kept::Number(u64::from(*version)),
            Kept::Kind(*kind),
            none,
            none,
        ),
        Refusal::JournalFull(at, need, limit) => (
            Kept::Number(*at),
            Kept::Number(*need),
            Kept::Number(*limit),
            none,
        ),
        Refusal::TooMany(what, limit) => (Kept::What(*what), Kept::Number(*limit), none, none),
        Refusal::TooWide(measure) => (Kept::Number(*measure), none, none, none),
    }
}

// Adds a space and a word, for which there is room.
fn add_word(line: &mut ReplyLine, word: &[u8])
    requires short { length word.now ≤ 63 }
    requires room { length line.old + 64 ≤ 4096 }
    ensures added { line.new ≡ line.old ++ (codes " " ++ word.now) }
    ensures short { length line.new ≤ length line.old + 64 }
{
    line.add(b" ");
    line.add(word);
}

// Adds a space and the value, for which there is room.
fn add_kept(line: &mut ReplyLine, kept: Kept<'_>)
    requires room { length line.old + 64 ≤ 4096 }
    ensures added { line.new ≡ line.old ++ value_text kept.entry }
    ensures short { length line.new ≤ length line.old + 64 }
{
    match kept {
        Kept::Nothing => {}
        Kept::Number(number) => {
            line.add(b" ");
            line.add_number(number);
        }
        Kept::Name(name) => add_word(line, name.bytes()),
        Kept::What(what) => add_word(line, what_word(what)),
        Kept::Kind(kind) => add_word(line, kind_words(kind)),
    }
}

// The line of a refusal.
#[tactic(auto, unfolding(crate::specs::RefusalTexts::refusal_text))]
fn refusal_line(refusal: &Refusal) -> ReplyLine
    ensures { result ≡ refusal_text refusal.now }
{
    let mut line = ReplyLine::new();
    line.add(b"error ");
    line.add_number(number_of(refusal));
    let (first, second, third, fourth) = values_of(refusal);
    add_kept(&mut line, first);
    add_kept(&mut line, second);
    add_kept(&mut line, third);
    add_kept(&mut line, fourth);
    line.add(b"\n");
    line
}

/// Puts the line of a refusal. It takes no memory. `Failed` comes only where the sink's count of
/// faults rose; a prefix of the line, and not all of it, was then put.
pub fn put_refusal<K: Sink>(sink: &mut K, refusal: &Refusal) -> Result<(), Failed>
    ensures all { OnOk result (Appends (K.written sink.old) (K.written sink.new)
        (refusal_text refusal.now)) }
    ensures part { OnErr result (AppendsLess (K.written sink.old) (K.written sink.new)
        (refusal_text refusal.now)) }
    ensures cause { HasCause (K.faults sink.old) (K.faults sink.new) result }
{
    let mut line = refusal_line(refusal);
    line.flush(sink)
}
