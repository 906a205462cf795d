//! An archive's state through its own calls: the texts of plain columns are borrowed from what the
//! archive keeps, on each version and over joins, and those that are computed are not. Its versions
//! are asked in `version.rt`, and how often a query reads in `counter.rt`.
ghost use Rattle.std.specs.Prelude.{◌≡◌, ◌<◌};

use crate::counter::reads_are_counted;
use crate::version::{tables_over_versions, versions_in_force};
use answer_text::Listing;
use archive_core::{ArchiveState, AskFault};
use lexer::tokens;
use prima_base::{FOREVER, Period, Steps, Val};
use prima_base_counter::fresh_steps;
use rewrite_rules::{Rule, RuleBook, push_every_rule};
use script_parse::{Statement, next_statement};
use smo_ops_types::Command;
use std::alloc::Global;
use std::marker::Brand;
use std::sync::ledger::{Blank, Ledger};
use std::test::Fail;
use temporal_lang::{Query, parse_query};

/// The commands that make a row which is changed, in a table that has another name in version 2.
pub(crate) const FILLING: [&str; 4] = [
    "AT 1 EVOLVE CREATE TABLE t (a INT, b TEXT)",
    "AT 5 INSERT INTO t (a, b) VALUES (1, 'x')",
    "AT 7 UPDATE t SET b = 'y' WHERE a = 1",
    "AT 9 EVOLVE RENAME TABLE t INTO u INVERSE RENAME TABLE u INTO t",
];

// The statement of this text.
fn statement(alloc: Global, text: &str) -> Result<Statement, Fail> {
    if text.len() > 1000 {
        return Err(Fail::new("a short text"));
    }
    match next_statement(alloc, text.as_bytes()) {
        Ok(Some(statement)) => Ok(statement),
        _ => Err(Fail::new("each text is a statement")),
    }
}

/// The command of this text.
pub(crate) fn command_of(alloc: Global, text: &str) -> Result<Command, Fail> {
    match statement(alloc, text)? {
        Statement::Write(command) => Ok(command),
        _ => Err(Fail::new("the text is a command")),
    }
}

// Commits the command of this text, which is accepted.
fn commit(alloc: Global, archive: &mut ArchiveState, text: &str) -> Result<(), Fail> {
    let command = command_of(alloc, text)?;
    match archive.commit(command) {
        Ok(_done) => Ok(()),
        Err(_) => Err(Fail::new("each command is accepted")),
    }
}

/// The query of this text, which is all that stands after its first word.
pub(crate) fn query_of(alloc: Global, text: &str) -> Result<Query, Fail> {
    if text.len() > 1000 {
        return Err(Fail::new("a short text"));
    }
    let Ok(list) = tokens(alloc, text.as_bytes()) else {
        return Err(Fail::new("the text has tokens"));
    };
    if list.len() < 2 {
        return Err(Fail::new("the text has more than its first word"));
    }
    match parse_query(alloc, &list, 1) {
        Ok((query, end)) => {
            if end == list.len() {
                return Ok(query);
            }
            Err(Fail::new("the query is read to its end"))
        }
        Err(_) => Err(Fail::new("the text is a query")),
    }
}

// What the archive answers to the query, with a counter of the ledger.
fn answer_by<'a, L: Ledger, R: Rule>(
    archive: &'a ArchiveState,
    book: &RuleBook<R>,
    query: &Query,
    blank: Blank,
) -> Result<Listing<'a>, AskFault>
    requires name { blank.name ≡ L.name }
    requires parts { blank.parts ≡ L.parts }
    requires some { 0 < blank.parts }
{
    let mut steps: Steps<L> = fresh_steps(blank);
    archive.query(book, query, &mut steps)
}

// The same for the query of this text.
fn ask<'a, R: Rule>(
    alloc: Global,
    archive: &'a ArchiveState,
    book: &RuleBook<R>,
    text: &str,
) -> Result<Listing<'a>, Fail> {
    let query = query_of(alloc, text)?;
    match answer_by::<Brand, R>(archive, book, &query, Blank::new(1)) {
        Ok(listing) => Ok(listing),
        Err(_) => Err(Fail::new("the query is answered")),
    }
}

// Whether the value is this text, and lies in what the archive keeps.
fn is_borrowed(value: &Val<'_>, text: &[u8]) -> bool {
    match value {
        Val::Slice(bytes) => *bytes == text,
        _ => false,
    }
}

// Whether the value is this text, made for the answer.
fn is_made(value: &Val<'_>, text: &[u8]) -> bool {
    match value {
        Val::Own(made) => made.bytes() == text,
        _ => false,
    }
}

// Fills the archive with a row that was changed, in a table that has another name in version 2.
fn fill(alloc: Global, archive: &mut ArchiveState) -> Result<(), Fail> {
    for text in FILLING {
        commit(alloc, archive, text)?;
    }
    Ok(())
}

// The one value of a row.
fn only_value<'a, 'b>(row: &'b [Val<'a>]) -> Result<&'b Val<'a>, Fail> {
    match row {
        [value] => Ok(value),
        _ => Err(Fail::new("a row has one value")),
    }
}

// Texts of a plain column lie in what the archive keeps.
fn texts_are_borrowed<R: Rule>(
    alloc: Global,
    archive: &ArchiveState,
    book: &RuleBook<R>,
) -> Result<(), Fail> {
    let listing = ask(alloc, archive, book, "QUERY VERSION 1 SELECT b FROM t")?;
    let rows = &listing.rows;
    if rows.len() != 2 {
        return Err(Fail::new("the row has two periods"));
    }
    if Some(rows.period(0)) != Period::new(5, 7)
        || Some(rows.period(1)) != Period::new(7, FOREVER)
    {
        return Err(Fail::new("the periods are those before and after the change"));
    }
    if is_borrowed(only_value(rows.values(0))?, b"x")
        && is_borrowed(only_value(rows.values(1))?, b"y")
    {
        return Ok(());
    }
    Err(Fail::new("both texts are borrowed"))
}

// A text that is computed is made for the answer, beside one that is not.
fn computed_text_is_made<R: Rule>(
    alloc: Global,
    archive: &ArchiveState,
    book: &RuleBook<R>,
) -> Result<(), Fail> {
    let text = "QUERY VERSION 2 SELECT p.b, CONCAT(q.b, '!') FROM u p, u q AS OF 9";
    let listing = ask(alloc, archive, book, text)?;
    if listing.rows.len() != 1 {
        return Err(Fail::new("one row holds at the moment"));
    }
    let [borrowed, made] = listing.rows.values(0) else {
        return Err(Fail::new("a row has two values"));
    };
    if is_borrowed(borrowed, b"y") && is_made(made, b"y!") {
        return Ok(());
    }
    Err(Fail::new("the one text is borrowed, the other made"))
}

// Whether the one row has a text that is borrowed and one that the operator computed.
fn just_computed_is_made(listing: &Listing<'_>) -> bool {
    if listing.rows.len() != 1 {
        return false;
    }
    let [kept, computed] = listing.rows.values(0) else {
        return false;
    };
    is_borrowed(kept, b"y") && is_made(computed, b"unknown")
}

// Beside a text that an operator computes for a row of an older version, that row's other text is
// borrowed.
fn text_beside_a_computed_one<R: Rule>(
    alloc: Global,
    archive: &mut ArchiveState,
    book: &RuleBook<R>,
) -> Result<(), Fail> {
    let add = "AT 11 EVOLVE ADD COLUMN c AS 'unknown' INTO u INVERSE DROP COLUMN c FROM u";
    commit(alloc, archive, add)?;
    let text = "QUERY VERSION 3 SELECT b, c FROM u AS OF 10";
    let listing = ask(alloc, archive, book, text)?;
    if just_computed_is_made(&listing) {
        return Ok(());
    }
    Err(Fail::new("just the text that the operator computes is made"))
}

// Texts that are joined on are borrowed.
fn joined_texts_are_borrowed<R: Rule>(
    alloc: Global,
    archive: &ArchiveState,
    book: &RuleBook<R>,
) -> Result<(), Fail> {
    let text = "QUERY VERSION 2 SELECT p.b FROM u p, u q WHERE p.b = q.b AS OF 9";
    let listing = ask(alloc, archive, book, text)?;
    if listing.rows.len() != 1 {
        return Err(Fail::new("one row holds at the moment"));
    }
    if is_borrowed(only_value(listing.rows.values(0))?, b"y") {
        return Ok(());
    }
    Err(Fail::new("the text is borrowed"))
}

// Whether a row has two texts, the first of which is borrowed and the second computed.
fn is_half_made(row: &[Val<'_>], kept: &[u8], computed: &[u8]) -> bool {
    match row {
        [first, second] => is_borrowed(first, kept) && is_made(second, computed),
        _ => false,
    }
}

// Whether a row has two texts, both borrowed.
fn is_all_borrowed(row: &[Val<'_>], first_text: &[u8], second_text: &[u8]) -> bool {
    match row {
        [first, second] => is_borrowed(first, first_text) && is_borrowed(second, second_text),
        _ => false,
    }
}

// Asked over all time, a column that an operator computes for the rows of an older version is
// borrowed in those of a later one.
fn texts_of_a_later_version<R: Rule>(
    alloc: Global,
    archive: &mut ArchiveState,
    book: &RuleBook<R>,
) -> Result<(), Fail> {
    commit(
        alloc,
        archive,
        "AT 12 INSERT INTO u (a, b, c) VALUES (2, 'z', 'kept')",
    )?;
    let text = "QUERY VERSION 3 SELECT b, c FROM u WHERE b = 'x' OR b = 'z'";
    let listing = ask(alloc, archive, book, text)?;
    let rows = &listing.rows;
    if rows.len() != 2 {
        return Err(Fail::new("each of two texts has one period"));
    }
    if is_half_made(rows.values(0), b"x", b"unknown")
        && is_all_borrowed(rows.values(1), b"z", b"kept")
    {
        return Ok(());
    }
    Err(Fail::new("just the text of the older version is made"))
}

// Beside a branch that computes its output, the texts of another branch are borrowed.
fn texts_beside_a_computed_branch<R: Rule>(
    alloc: Global,
    archive: &ArchiveState,
    book: &RuleBook<R>,
) -> Result<(), Fail> {
    let text = "QUERY VERSION 3 SELECT CONCAT(c, '!') FROM u UNION SELECT b FROM u AS OF 12";
    let listing = ask(alloc, archive, book, text)?;
    let rows = &listing.rows;
    if rows.len() != 4 {
        return Err(Fail::new("each branch answers two rows"));
    }
    let made = is_made(only_value(rows.values(0))?, b"kept!")
        && is_made(only_value(rows.values(1))?, b"unknown!");
    let borrowed = is_borrowed(only_value(rows.values(2))?, b"y")
        && is_borrowed(only_value(rows.values(3))?, b"z");
    if made && borrowed {
        return Ok(());
    }
    Err(Fail::new("just the texts of the first branch are made"))
}

// A text that a CASE chooses is borrowed.
fn chosen_texts_are_borrowed<R: Rule>(
    alloc: Global,
    archive: &ArchiveState,
    book: &RuleBook<R>,
) -> Result<(), Fail> {
    let text = "QUERY VERSION 3 SELECT CASE WHEN a = 1 THEN b ELSE c END FROM u AS OF 12";
    let listing = ask(alloc, archive, book, text)?;
    let rows = &listing.rows;
    if rows.len() != 2 {
        return Err(Fail::new("two rows hold at the moment"));
    }
    if is_borrowed(only_value(rows.values(0))?, b"kept")
        && is_borrowed(only_value(rows.values(1))?, b"y")
    {
        return Ok(());
    }
    Err(Fail::new("both texts are borrowed"))
}

// All of this, with the book of these rules.
fn asked_by<R: Rule>(alloc: Global, rules: Vec<R>) -> Result<(), Fail> {
    let Ok(book) = RuleBook::new(alloc, rules) else {
        return Err(Fail::new("twelve rules make a book"));
    };
    let mut archive = ArchiveState::new(alloc);
    fill(alloc, &mut archive)?;
    versions_in_force(&archive)?;
    tables_over_versions(alloc, &archive, &book)?;
    reads_are_counted(alloc, &book)?;
    texts_are_borrowed(alloc, &archive, &book)?;
    computed_text_is_made(alloc, &archive, &book)?;
    joined_texts_are_borrowed(alloc, &archive, &book)?;
    text_beside_a_computed_one(alloc, &mut archive, &book)?;
    texts_of_a_later_version(alloc, &mut archive, &book)?;
    texts_beside_a_computed_branch(alloc, &archive, &book)?;
    chosen_texts_are_borrowed(alloc, &archive, &book)
}

#[test]
fn an_archive_answers(rt: HostRuntime) -> Result<(), Fail> {
    let alloc = rt.alloc();
    let mut rules: Vec<Box<dyn Rule>> = Vec::new(alloc);
    push_every_rule!(alloc, rules);
    asked_by(alloc, rules)
}
