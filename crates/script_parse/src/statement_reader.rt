//! Reading of statements from their texts.

ghost use Rattle.std.specs.Prelude.{◌≡◌, ◌≤◌, ◌<◌, ◌++◌, ◌∷◌, List, length, map};
ghost use Rattle.smo_ops_types.specs.Commands.{body_of};
ghost use Rattle.temporal_lang_types.specs.Queries.{query_of};
ghost use Rattle.temporal_lang_grammar_spec.specs.QueryReader as asking;
ghost use Rattle.prima_base.specs.declared.refusal.What.{What as Counted};
ghost use Rattle.lexer_spec.specs.Lexemes.{Lexeme};
ghost use Rattle.lexer_combinators.specs.Grammar.{Size};
ghost use Rattle.lexer_combinators.specs.Overflows.{IsFirstOverflow};
ghost use Rattle.lexer_combinators.specs.Reads.{Reads, ahead};
ghost use Rattle.script_parse.specs.declared.statement.ReadFault.TheVariants as fault;
ghost use Rattle.script_parse.specs.Lexing.{Placed, Tokens, lexed, placed, saying, fault_place};
ghost use Rattle.script_parse.specs.Statements.{PlainStatement, statement_of};
ghost use Rattle.script_parse.specs.Productions.{IsStatement};
ghost use Rattle.script_parse.specs.StatementOverflows.{statement_overflows};
ghost use Rattle.script_parse.specs.Reading.{Answers, Gives, IsOfPlace, IsOver, IsReadAs};
ghost use Rattle.script_parse.specs.Reading.{IsReading, Reading, place_before, read_as, reading};
ghost use Rattle.script_parse.specs.StatementReader as spec;

use crate::change_reader::changes;
use crate::inverse_reader::evolve_rest;
use crate::session_reader::request;
use crate::{ReadFault, Statement};
use lexer::{Cursor, LexFault, Stop, Token, limit_of, moment, small, tokens};
use smo_ops::{Body, Command};
use std::alloc::Global;
use temporal_lang::{Query, aggregates, ask, full_ask, relation};

// What a command does.
#[tactic(auto, using(crate::proofs::BodySteps::body_evolves, crate::proofs::BodySteps::body_changes))]
fn body(alloc: Global, c: &mut Cursor<'_, '_>) -> Result<Body, Stop>
    ensures { Reads body_of (spec.body c.old.nodes (ahead c.old)) result c.new }
{
    if c.sees_word(b"EVOLVE") {
        c.skip();
        return evolve_rest(alloc, c);
    }
    let list = changes(alloc, c)?;
    Ok(Body::Changes(list))
}

// What stands after AT.
#[tactic(auto, unfolding(crate::specs::StatementReader::write_rest))]
fn write_rest(alloc: Global, c: &mut Cursor<'_, '_>) -> Result<Statement, Stop>
    ensures { Reads statement_of (spec.write_rest c.old.nodes (ahead c.old)) result c.new }
{
    let stamp = moment(c)?;
    let body = body(alloc, c)?;
    Ok(Statement::Write(Command::of(stamp, body)))
}

// What stands after QUERY.
#[tactic(auto, unfolding(crate::specs::StatementReader::ask_rest))]
fn ask_rest(alloc: Global, c: &mut Cursor<'_, '_>) -> Result<Statement, Stop>
    ensures { Reads statement_of (spec.ask_rest c.old.nodes (ahead c.old)) result c.new }
{
    let query = ask(alloc, c)?;
    Ok(Statement::Ask(query))
}

// What stands after EXPLAIN.
#[tactic(auto, unfolding(crate::specs::StatementReader::explain_rest), using(lexer_combinators::proofs::ReadSteps::lead_seen, lexer_combinators::proofs::ReadSteps::lead_not))]
fn explain_rest(alloc: Global, c: &mut Cursor<'_, '_>) -> Result<Statement, Stop>
    ensures { Reads statement_of (spec.explain_rest c.old.nodes (ahead c.old)) result c.new }
{
    c.expect_word(b"QUERY")?;
    let query = ask(alloc, c)?;
    Ok(Statement::Explain(query))
}

// What stands after SHOW SCHEMA.
#[tactic(auto, unfolding(crate::specs::StatementReader::schema_rest))]
fn schema_rest(c: &mut Cursor<'_, '_>) -> Result<Statement, Stop>
    ensures { Reads statement_of (spec.schema_rest c.old.nodes (ahead c.old)) result c.new }
{
    let version = small(c)?;
    Ok(Statement::ShowSchema(version))
}

// What stands after SHOW.
#[tactic(auto, unfolding(crate::specs::StatementReader::show_rest), using(lexer_combinators::proofs::ReadSteps::choose_takes, lexer_combinators::proofs::ReadSteps::choose_no))]
fn show_rest(c: &mut Cursor<'_, '_>) -> Result<Statement, Stop>
    ensures { Reads statement_of (spec.show_rest c.old.nodes (ahead c.old)) result c.new }
{
    if c.sees_word(b"VERSIONS") {
        c.skip();
        return Ok(Statement::ShowVersions);
    }
    if c.sees_word(b"SCHEMA") {
        c.skip();
        return schema_rest(c);
    }
    if c.sees_word(b"SIZES") {
        c.skip();
        return Ok(Statement::ShowSizes);
    }
    if c.sees_word(b"CURSORS") {
        c.skip();
        return Ok(Statement::ShowCursors);
    }
    Err(Stop::Unexpected)
}

// A query in brackets.
#[tactic(auto, unfolding(crate::specs::StatementReader::in_brackets), using(lexer_combinators::proofs::ReadSteps::lead_seen, lexer_combinators::proofs::ReadSteps::lead_not))]
fn ask_in_brackets(alloc: Global, c: &mut Cursor<'_, '_>) -> Result<Query, Stop>
    ensures { Reads query_of (spec.in_brackets asking.ask c.old.nodes (ahead c.old)) result c.new }
{
    c.expect_sign(b"(")?;
    let query = ask(alloc, c)?;
    c.expect_sign(b")")?;
    Ok(query)
}

// A query in brackets that keeps each entry.
#[tactic(auto, unfolding(crate::specs::StatementReader::in_brackets), using(lexer_combinators::proofs::ReadSteps::lead_seen, lexer_combinators::proofs::ReadSteps::lead_not))]
fn full_ask_in_brackets(alloc: Global, c: &mut Cursor<'_, '_>) -> Result<Query, Stop>
    ensures { Reads query_of (spec.in_brackets asking.full_ask c.old.nodes (ahead c.old)) result
        c.new }
{
    c.expect_sign(b"(")?;
    let query = full_ask(alloc, c)?;
    c.expect_sign(b")")?;
    Ok(query)
}

// What stands after PAIRS.
#[tactic(auto, unfolding(crate::specs::StatementReader::pairs_rest))]
fn pairs_rest(alloc: Global, c: &mut Cursor<'_, '_>) -> Result<Statement, Stop>
    ensures { Reads statement_of (spec.pairs_rest c.old.nodes (ahead c.old)) result c.new }
{
    let left = ask_in_brackets(alloc, c)?;
    let related = relation(c)?;
    let right = ask_in_brackets(alloc, c)?;
    Ok(Statement::Pairs(left, related, right))
}

// What stands after AGGREGATE.
#[tactic(auto, unfolding(crate::specs::StatementReader::aggregate_rest), using(lexer_combinators::proofs::ReadSteps::lead_seen, lexer_combinators::proofs::ReadSteps::lead_not))]
fn aggregate_rest(alloc: Global, c: &mut Cursor<'_, '_>) -> Result<Statement, Stop>
    ensures { Reads statement_of (spec.aggregate_rest c.old.nodes (ahead c.old)) result c.new }
{
    let items = aggregates(alloc, c)?;
    c.expect_word(b"BY")?;
    let group = small(c)?;
    let query = full_ask_in_brackets(alloc, c)?;
    Ok(Statement::Aggregate(items, group, query))
}

// What stands after SESSION.
#[tactic(auto, unfolding(crate::specs::StatementReader::session_rest))]
fn session_rest(alloc: Global, c: &mut Cursor<'_, '_>) -> Result<Statement, Stop>
    ensures { Reads statement_of (spec.session_rest c.old.nodes (ahead c.old)) result c.new }
{
    let session = small(c)?;
    let asked = request(alloc, c)?;
    Ok(Statement::Session(session, asked))
}

// A statement.
#[tactic(auto, unfolding(crate::specs::StatementReader::statement), using(lexer_combinators::proofs::ReadSteps::choose_takes, lexer_combinators::proofs::ReadSteps::choose_no))]
fn statement(alloc: Global, c: &mut Cursor<'_, '_>) -> Result<Statement, Stop>
    ensures { Reads statement_of (spec.statement c.old.nodes (ahead c.old)) result c.new }
{
    if c.sees_word(b"AT") {
        c.skip();
        return write_rest(alloc, c);
    }
    if c.sees_word(b"QUERY") {
        c.skip();
        return ask_rest(alloc, c);
    }
    if c.sees_word(b"EXPLAIN") {
        c.skip();
        return explain_rest(alloc, c);
    }
    if c.sees_word(b"SHOW") {
        c.skip();
        return show_rest(c);
    }
    if c.sees_word(b"PAIRS") {
        c.skip();
        return pairs_rest(alloc, c);
    }
    if c.sees_word(b"AGGREGATE") {
        c.skip();
        return aggregate_rest(alloc, c);
    }
    if c.sees_word(b"SESSION") {
        c.skip();
        return session_rest(alloc, c);
    }
    if c.sees_word(b"CHECKPOINT") {
        c.skip();
        return Ok(Statement::Checkpoint);
    }
    Err(Stop::Unexpected)
}

// The place of the token before which so many are left, or the text's end where none is.
fn place_of(list: &[Token<'_>], left: usize, end: usize) -> u32
    requires fits { left ≤ length list.now }
    requires short { end ≤ 1048576 }
    ensures { result ≡ place_before (map placed list.now) left end }
{
    if left == 0 {
        return end as u32;
    }
    list[list.len() - left].at
}

// What the tokens of a text of so many bytes are read as.
fn read_tokens(
    alloc: Global,
    list: &[Token<'_>],
    end: usize,
) -> Result<Option<Statement>, ReadFault>
    requires { end ≤ 1048576 }
    ensures { Gives (read_as end (Tokens (map placed list.now))) result }
{
    if list.is_empty() {
        return Ok(None);
    }
    let mut cursor = Cursor {
        rest: list,
        nodes: 0,
    };
    let found = statement(alloc, &mut cursor);
    let left = cursor.rest.len();
    match found {
        Ok(whole) => {
            if left == 0 {
                Ok(Some(whole))
            } else {
                Err(ReadFault::Syntax(place_of(list, left, end)))
            }
        }
        Err(stop) => match stop {
            Stop::NoMemory => Err(ReadFault::NoMemory),
            Stop::Unexpected => Err(ReadFault::Syntax(place_of(list, left, end))),
            Stop::TooMany(what) => Err(ReadFault::TooMany(what, limit_of(what))),
        },
    }
}

// A lexical fault as one of reading.
fn lexical(fault: LexFault) -> ReadFault
    ensures { IsOfPlace (fault_place fault) result }
{
    match fault {
        LexFault::NoMemory => ReadFault::NoMemory,
        LexFault::BadByte(at)
        | LexFault::OpenQuote(at)
        | LexFault::BigNumber(at)
        | LexFault::LongText(at) => ReadFault::Syntax(at),
    }
}

/// The statement that a text of at most 1,048,576 bytes is; `None` exactly for blanks and comments
/// alone. A lexical fault anywhere in the text comes first, then the first token with which no
/// statement goes on or at which a count passes its limit; at one token `Syntax` comes first. Where
/// the tokens run out, the place is the text's length. Each expression and condition has the limits
/// of `parse_expr` and `parse_cond`, which begin anew in each of them, an inverse has at most eight
/// operators, and a query the limits of `parse_query`. `NoMemory` where memory runs out.
pub fn next_statement(alloc: Global, text: &[u8]) -> Result<Option<Statement>, ReadFault>
    requires { length text.now ≤ 1048576 }
    // What is answered is so by the grammar, and what is so by the grammar is answered.
    ensures read { Answers (IsReading text.now) result }
    ensures one { (r : Reading) → IsReading text.now r → Gives r result }
    // A statement within the limits is read as itself, and any other is refused for what is too
    // much.
    ensures only { (tokens : List Placed) (s : PlainStatement) (size : Size)
        → lexed text.now ≡ Tokens tokens → IsStatement s size (saying tokens)
        → Answers (IsReadAs s size) result }
    // A prefix that passes a limit at its last token is refused there for this count, whatever
    // stands after it.
    ensures over { (w : Counted) (tokens : List Placed) (prefix rest more : List Lexeme)
        (x : Lexeme) (s : PlainStatement) (size : Size)
        (h : IsStatement s size (prefix ++ x ∷ more)) → lexed text.now ≡ Tokens tokens
        → saying tokens ≡ prefix ++ x ∷ rest →
        IsFirstOverflow w (statement_overflows s size (prefix ++ x ∷ more) h) (length prefix)
        → Answers (IsOver w) result }
    ensures exact { Gives (reading text.now) result }
{
    match tokens(alloc, text) {
        Ok(list) => read_tokens(alloc, &list, text.len()),
        Err(fault) => Err(lexical(fault)),
    }
}
