//! Runs over sources and sinks in memory, with replies written by hand.
use cases_player::{Status, Word, run_with_rules};
use prima_io::{MemSink, MemSource, Sink, Source, SureSink, SureSource};
use std::alloc::{AllocError, Global};
use std::process::Abort;
use std::test::Fail;

const FIRST: &[u8] = b"AT 1 EVOLVE CREATE TABLE t (a INT); AT 5 INSERT INTO t (a) VALUES (1); \
        QUERY VERSION 1 SELECT a FROM t;";

const FIRST_REPLIES: &[u8] = b"ok 1 version 1\nok 5 +1 -0\nrow 5 now 1\nend 1\n";

// The status of a run with one rule for each kind of operator.
fn run<S: Source, K: Sink>(
    alloc: Global,
    arguments: &[Word],
    source: &mut S,
    sink: &mut K,
) -> Result<Status, AllocError> {
    match run_with_rules(alloc, arguments, source, sink) {
        Ok(status) => Ok(status),
        Err(_no_memory) => Err(AllocError),
    }
}

fn words_of(alloc: Global, word: &str) -> Result<Vec<Word>, AllocError> {
    let mut arguments = Vec::new(alloc);
    arguments.push(String::from_str(alloc, word)?)?;
    Ok(arguments)
}

// Runs the script, handed out in chunks of this size, and compares status and replies.
fn expect_run(
    rt: &impl Abort,
    alloc: Global,
    script: &[u8],
    chunk: usize,
    want: Status,
    replies: &[u8],
) -> Result<(), AllocError> {
    let arguments = words_of(alloc, "run")?;
    let most = chunk.max(1);
    let mut source = MemSource::new(Vec::from_slice(alloc, script)?, most, Vec::new(alloc));
    let Ok(mut sink) = MemSink::new(alloc, 4096, Vec::new(alloc)) else {
        return Err(AllocError);
    };
    let status = run(alloc, &arguments, &mut source, &mut sink)?;
    assert!(rt; status == want, "status in chunks of {chunk}");
    assert!(rt; sink.written() == replies, "replies in chunks of {chunk}");
    Ok(())
}

#[test]
fn first_insert_in_any_chunks(rt: HostRuntime) -> Result<(), Fail> {
    for chunk in 1..41usize {
        expect_run(&rt, rt.alloc(), FIRST, chunk, Status::Done, FIRST_REPLIES)?;
    }
    Ok(())
}

// Quotes, comments and dashes, each of which some size of chunk cuts.
const QUOTED: &[u8] = b"AT 1 EVOLVE CREATE TABLE t (b TEXT);-- it's ; -
AT 2 INSERT INTO t (b) VALUES ('-- a;''--;');QUERY-- ;'
VERSION 1 SELECT b FROM t;--;'";

const QUOTED_REPLIES: &[u8] = b"ok 1 version 1\nok 2 +1 -0\nrow 2 now '-- a;''--;'\nend 1\n";

#[test]
fn quotes_and_comments_in_any_chunks(rt: HostRuntime) -> Result<(), Fail> {
    for chunk in 1..QUOTED.len() {
        expect_run(&rt, rt.alloc(), QUOTED, chunk, Status::Done, QUOTED_REPLIES)?;
    }
    Ok(())
}

// A statement, or a rest, of this many blanks and a word.
fn long_script(alloc: Global, length: usize, ended: bool) -> Result<Vec<u8>, AllocError> {
    let mut script = Vec::new(alloc);
    for _ in 1..length {
        script.push(b' ')?;
    }
    script.push(b'x')?;
    if ended {
        script.push(b';')?;
    }
    Ok(script)
}

#[test]
fn the_longest_statement(rt: HostRuntime) -> Result<(), Fail> {
    let alloc = rt.alloc();
    for (ended, reply) in [
        (true, b"error 10 1048575\n".as_slice()),
        (false, b"error 11\n"),
    ] {
        let longest = long_script(alloc, 1_048_576, ended)?;
        expect_run(&rt, alloc, &longest, 65536, Status::Refused, reply)?;
        let longer = long_script(alloc, 1_048_577, ended)?;
        expect_run(&rt, alloc, &longer, 65536, Status::Refused, b"error 12\n")?;
    }
    Ok(())
}

// A `;` in a text or in a comment does not end a statement that is too long either.
#[test]
fn what_ends_a_long_statement(rt: HostRuntime) -> Result<(), Fail> {
    let alloc = rt.alloc();
    for within in [b"'x;';".as_slice(), b"-- x;\n;"] {
        let mut script = long_script(alloc, 1_048_577, false)?;
        script.extend_from_slice(within)?;
        script.extend_from_slice(FIRST)?;
        let mut replies = Vec::from_slice(alloc, b"error 12\n")?;
        replies.extend_from_slice(FIRST_REPLIES)?;
        expect_run(&rt, alloc, &script, 65536, Status::Refused, &replies)?;
    }
    Ok(())
}

// A statement that is too long does not swallow the next.
#[test]
fn after_a_long_statement(rt: HostRuntime) -> Result<(), Fail> {
    let alloc = rt.alloc();
    let mut script = long_script(alloc, 1_048_577, true)?;
    script.extend_from_slice(FIRST)?;
    let mut replies = Vec::from_slice(alloc, b"error 12\n")?;
    replies.extend_from_slice(FIRST_REPLIES)?;
    expect_run(&rt, alloc, &script, 4096, Status::Refused, &replies)?;
    Ok(())
}

// A transaction to which so many changes are added at once, by two statements.
fn many_changes(alloc: Global, each: usize) -> Result<Vec<u8>, AllocError> {
    let mut script = Vec::from_slice(
        alloc,
        b"AT 1 EVOLVE CREATE TABLE t (a INT); AT 2 INSERT INTO t (a) VALUES (1); SESSION 1 BEGIN;",
    )?;
    for _ in 0..2usize {
        script.extend_from_slice(b"SESSION 1 DO DELETE FROM t")?;
        for _ in 1..each {
            script.extend_from_slice(b" THEN DELETE FROM t")?;
        }
        script.push(b';')?;
    }
    Ok(script)
}

// As many changes as a command may have, and one more.
#[test]
fn the_most_changes_of_a_transaction(rt: HostRuntime) -> Result<(), Fail> {
    let alloc = rt.alloc();
    let mut script = many_changes(alloc, 32_768)?;
    script.extend_from_slice(b"SESSION 1 DO DELETE FROM t; SESSION 1 COMMIT AT 3;")?;
    let replies = b"ok 1 version 1\nok 2 +1 -0\nok begin 1\nok buffered 32768\nok buffered 65536\n\
            error 38 changes 65536\nok 3 +0 -1\n";
    expect_run(&rt, alloc, &script, 65536, Status::Refused, replies)?;
    Ok(())
}

#[test]
fn sure_ends_never_fail(rt: HostRuntime) -> Result<(), Fail> {
    let alloc = rt.alloc();
    let arguments = words_of(alloc, "run")?;
    let mut source = SureSource::new(Vec::from_slice(alloc, FIRST)?);
    let mut sink = SureSink::new();
    assert!(rt; run(alloc, &arguments, &mut source, &mut sink)? == Status::Done);
    Ok(())
}
