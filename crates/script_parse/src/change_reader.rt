//! Reading of changes of rows, from left to right.

ghost use Rattle.std.specs.Prelude.{◌≡◌, ◌<◌, ◌≤◌, length, map, zip, codes, IfOk};
ghost use Rattle.smo_ops_types.specs.Changes.{change_of, changes_of, set_of_expr, sets_of};
ghost use Rattle.lexer_spec.specs.Lexemes.{is_word, is_sign};
ghost use Rattle.lexer_combinators.specs.Parsing.{many};
ghost use Rattle.lexer_combinators.specs.Reads.{Reads, ReadsMore, ahead};
ghost use Rattle.script_parse.specs.StatementReader as spec;

use cond_expr::Expr;
use lexer::{Cursor, Stop, constant, fresh_expr, fresh_where, name, names};
use prima_base::{Name, Value};
use smo_ops::Change;
use std::alloc::{AllocError, Global};

// So many more constants, each after a comma.
fn more_constants(
    alloc: Global,
    c: &mut Cursor<'_, '_>,
    list: &mut Vec<Value>,
    more: usize,
) -> Result<(), Stop>
    ensures { ReadsMore (spec.more_constants more c.old.nodes (ahead c.old)) list.old.items
        list.new.items result c.new }
{
    let mut left = more;
    while left > 0 {
        c.expect_sign(b",")?;
        list.push(constant(alloc, c)?)?;
        left -= 1;
    }
    Ok(())
}

// So many constants, with commas between them.
#[tactic(auto, unfolding(crate::specs::StatementReader::constants))]
fn constants(alloc: Global, c: &mut Cursor<'_, '_>, count: usize) -> Result<Vec<Value>, Stop>
    ensures { Reads (λ v. v.items) (spec.constants count c.old.nodes (ahead c.old)) result c.new }
{
    if count == 0 {
        return Ok(Vec::new(alloc));
    }
    let first = constant(alloc, c)?;
    let mut list = vec![in alloc; first]?;
    more_constants(alloc, c, &mut list, count - 1)?;
    Ok(list)
}

// Each name with the value in its place.
fn paired(
    alloc: Global,
    names: Vec<Name>,
    values: Vec<Value>,
) -> Result<Vec<(Name, Value)>, AllocError>
    ensures { IfOk result (λ v. v.items ≡ zip names.items values.items) }
{
    names.into_iter().zip(values.into_iter()).collect(alloc)
}

// The constants of a row in their brackets, one for each name.
#[tactic(auto, unfolding(crate::specs::StatementReader::row), using(lexer_combinators::proofs::ReadSteps::lead_seen, lexer_combinators::proofs::ReadSteps::lead_not))]
fn row(alloc: Global, c: &mut Cursor<'_, '_>, names: Vec<Name>) -> Result<Vec<(Name, Value)>, Stop>
    ensures { Reads (λ v. v.items) (spec.row names.items c.old.nodes (ahead c.old)) result c.new }
{
    c.expect_sign(b"(")?;
    let values = constants(alloc, c, names.len())?;
    c.expect_sign(b")")?;
    Ok(paired(alloc, names, values)?)
}

// What stands after INSERT.
#[tactic(auto, unfolding(crate::specs::StatementReader::insert_rest), using(lexer_combinators::proofs::ReadSteps::lead_seen, lexer_combinators::proofs::ReadSteps::lead_not))]
fn insert_rest(alloc: Global, c: &mut Cursor<'_, '_>) -> Result<Change, Stop>
    ensures { Reads change_of (spec.insert_rest c.old.nodes (ahead c.old)) result c.new }
{
    c.expect_word(b"INTO")?;
    let table = name(alloc, c)?;
    c.expect_sign(b"(")?;
    let columns = names(alloc, c)?;
    c.expect_sign(b")")?;
    c.expect_word(b"VALUES")?;
    let cells = row(alloc, c, columns)?;
    Ok(Change::Insert { table, cells })
}

// What stands after DELETE.
#[tactic(auto, unfolding(crate::specs::StatementReader::delete_rest), using(lexer_combinators::proofs::ReadSteps::lead_seen, lexer_combinators::proofs::ReadSteps::lead_not))]
fn delete_rest(alloc: Global, c: &mut Cursor<'_, '_>) -> Result<Change, Stop>
    ensures { Reads change_of (spec.delete_rest c.old.nodes (ahead c.old)) result c.new }
{
    c.expect_word(b"FROM")?;
    let table = name(alloc, c)?;
    let cond = fresh_where(alloc, c, false)?;
    Ok(Change::Delete { table, cond })
}

// A column, and what it is to have.
#[tactic(auto, unfolding(crate::specs::StatementReader::setting), using(lexer_combinators::proofs::ReadSteps::lead_seen, lexer_combinators::proofs::ReadSteps::lead_not))]
fn setting(alloc: Global, c: &mut Cursor<'_, '_>) -> Result<(Name, Expr), Stop>
    ensures { Reads set_of_expr (spec.setting c.old.nodes (ahead c.old)) result c.new }
{
    let column = name(alloc, c)?;
    c.expect_sign(b"=")?;
    let expr = fresh_expr(alloc, c, false)?;
    Ok((column, expr))
}

// More of them, each after a comma, as many as there are.
fn more_settings(
    alloc: Global,
    c: &mut Cursor<'_, '_>,
    list: &mut Vec<(Name, Expr)>,
) -> Result<(), Stop>
    ensures { ReadsMore (many (is_sign (codes ",")) spec.setting c.old.nodes (ahead c.old))
        (sets_of list.old.items) (sets_of list.new.items) result c.new }
{
    while c.sees_sign(b",") {
        c.skip();
        list.push(setting(alloc, c)?)?;
    }
    Ok(())
}

#[tactic(auto, unfolding(crate::specs::StatementReader::settings))]
fn settings(alloc: Global, c: &mut Cursor<'_, '_>) -> Result<Vec<(Name, Expr)>, Stop>
    ensures { Reads (λ v. sets_of v.items) (spec.settings c.old.nodes (ahead c.old)) result c.new }
{
    let first = setting(alloc, c)?;
    let mut list = vec![in alloc; first]?;
    more_settings(alloc, c, &mut list)?;
    Ok(list)
}

// What stands after UPDATE.
#[tactic(auto, unfolding(crate::specs::StatementReader::update_rest), using(lexer_combinators::proofs::ReadSteps::lead_seen, lexer_combinators::proofs::ReadSteps::lead_not))]
fn update_rest(alloc: Global, c: &mut Cursor<'_, '_>) -> Result<Change, Stop>
    ensures { Reads change_of (spec.update_rest c.old.nodes (ahead c.old)) result c.new }
{
    let table = name(alloc, c)?;
    c.expect_word(b"SET")?;
    let sets = settings(alloc, c)?;
    let cond = fresh_where(alloc, c, false)?;
    Ok(Change::Update { table, sets, cond })
}

// A change.
#[tactic(auto, unfolding(crate::specs::StatementReader::change), using(lexer_combinators::proofs::ReadSteps::choose_takes, lexer_combinators::proofs::ReadSteps::choose_no))]
fn change(alloc: Global, c: &mut Cursor<'_, '_>) -> Result<Change, Stop>
    ensures { Reads change_of (spec.change c.old.nodes (ahead c.old)) result c.new }
{
    if c.sees_word(b"INSERT") {
        c.skip();
        return insert_rest(alloc, c);
    }
    if c.sees_word(b"DELETE") {
        c.skip();
        return delete_rest(alloc, c);
    }
    if c.sees_word(b"UPDATE") {
        c.skip();
        return update_rest(alloc, c);
    }
    Err(Stop::Unexpected)
}

// More changes, each after THEN, as many as there are.
fn more_changes(alloc: Global, c: &mut Cursor<'_, '_>, list: &mut Vec<Change>) -> Result<(), Stop>
    ensures { ReadsMore (many (is_word (codes "THEN")) spec.change c.old.nodes (ahead c.old))
        (changes_of list.old.items) (changes_of list.new.items) result c.new }
{
    while c.sees_word(b"THEN") {
        c.skip();
        list.push(change(alloc, c)?)?;
    }
    Ok(())
}

/// Changes joined by THEN, one at least.
#[tactic(auto, unfolding(crate::specs::StatementReader::changes))]
pub fn changes(alloc: Global, c: &mut Cursor<'_, '_>) -> Result<Vec<Change>, Stop>
    ensures { Reads (λ v. changes_of v.items)
        (spec.changes c.old.nodes (ahead c.old)) result c.new }
{
    let first = change(alloc, c)?;
    let mut list = vec![in alloc; first]?;
    more_changes(alloc, c, &mut list)?;
    Ok(list)
}
