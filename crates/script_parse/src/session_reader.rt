//! Reading of what a session asks for, from left to right.

ghost use Rattle.std.specs.Prelude.{◌≡◌};
ghost use Rattle.sessions.specs.Requests.{request_of};
ghost use Rattle.lexer_combinators.specs.Reads.{Reads, ahead};
ghost use Rattle.script_parse.specs.StatementReader as spec;

use crate::change_reader::changes;
use lexer::{Cursor, Stop, moment, name, small};
use sessions::SessionRequest;
use std::alloc::Global;
use temporal_lang::ask;

// What stands after DO.
#[tactic(auto, unfolding(crate::specs::StatementReader::do_rest))]
fn do_rest(alloc: Global, c: &mut Cursor<'_, '_>) -> Result<SessionRequest, Stop>
    ensures { Reads request_of (spec.do_rest c.old.nodes (ahead c.old)) result c.new }
{
    let list = changes(alloc, c)?;
    Ok(SessionRequest::Do(list))
}

// What stands after COMMIT.
#[tactic(auto, unfolding(crate::specs::StatementReader::commit_rest), using(lexer_combinators::proofs::ReadSteps::lead_seen, lexer_combinators::proofs::ReadSteps::lead_not))]
fn commit_rest(c: &mut Cursor<'_, '_>) -> Result<SessionRequest, Stop>
    ensures { Reads request_of (spec.commit_rest c.old.nodes (ahead c.old)) result c.new }
{
    c.expect_word(b"AT")?;
    let stamp = moment(c)?;
    Ok(SessionRequest::Commit(stamp))
}

// What stands after OPEN.
#[tactic(auto, unfolding(crate::specs::StatementReader::open_rest))]
fn open_rest(alloc: Global, c: &mut Cursor<'_, '_>) -> Result<SessionRequest, Stop>
    ensures { Reads request_of (spec.open_rest c.old.nodes (ahead c.old)) result c.new }
{
    let cursor = name(alloc, c)?;
    let query = ask(alloc, c)?;
    Ok(SessionRequest::Open(cursor, query))
}

// What stands after FETCH.
#[tactic(auto, unfolding(crate::specs::StatementReader::fetch_rest))]
fn fetch_rest(alloc: Global, c: &mut Cursor<'_, '_>) -> Result<SessionRequest, Stop>
    ensures { Reads request_of (spec.fetch_rest c.old.nodes (ahead c.old)) result c.new }
{
    let cursor = name(alloc, c)?;
    let count = small(c)?;
    Ok(SessionRequest::Fetch(cursor, count))
}

// What stands after CLOSE.
#[tactic(auto, unfolding(crate::specs::StatementReader::close_rest))]
fn close_rest(alloc: Global, c: &mut Cursor<'_, '_>) -> Result<SessionRequest, Stop>
    ensures { Reads request_of (spec.close_rest c.old.nodes (ahead c.old)) result c.new }
{
    let cursor = name(alloc, c)?;
    Ok(SessionRequest::Close(cursor))
}

/// What a session asks for.
#[tactic(auto, unfolding(crate::specs::StatementReader::request), using(lexer_combinators::proofs::ReadSteps::choose_takes, lexer_combinators::proofs::ReadSteps::choose_no))]
pub fn request(alloc: Global, c: &mut Cursor<'_, '_>) -> Result<SessionRequest, Stop>
    ensures { Reads request_of (spec.request c.old.nodes (ahead c.old)) result c.new }
{
    if c.sees_word(b"BEGIN") {
        c.skip();
        return Ok(SessionRequest::Begin);
    }
    if c.sees_word(b"DO") {
        c.skip();
        return do_rest(alloc, c);
    }
    if c.sees_word(b"COMMIT") {
        c.skip();
        return commit_rest(c);
    }
    if c.sees_word(b"ABORT") {
        c.skip();
        return Ok(SessionRequest::Abort);
    }
    if c.sees_word(b"OPEN") {
        c.skip();
        return open_rest(alloc, c);
    }
    if c.sees_word(b"FETCH") {
        c.skip();
        return fetch_rest(alloc, c);
    }
    if c.sees_word(b"CLOSE") {
        c.skip();
        return close_rest(alloc, c);
    }
    Err(Stop::Unexpected)
}
