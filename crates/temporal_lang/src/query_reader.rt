//! Reading of queries, from left to right.

ghost use Rattle.std.specs.Prelude.{◌≡◌, ◌<◌, map, codes, is_some};
ghost use Rattle.prima_base.specs.declared.refusal.What.TheVariants as limited;
ghost use Rattle.cond_expr.specs.Seen.{tree};
ghost use Rattle.lexer_spec.specs.Lexemes.{is_word, is_sign};
ghost use Rattle.lexer_trees_spec.specs.Constants.{as_name};
ghost use Rattle.lexer_combinators.specs.Parsing.{more};
ghost use Rattle.lexer_combinators.specs.Reads.{Reads, ReadsMore, ahead, sees};
ghost use Rattle.temporal_lang_types.specs.Branches.{branch_of, branches_of};
ghost use Rattle.temporal_lang_types.specs.Queries.{query_of};
ghost use Rattle.temporal_lang_grammar_spec.specs.QueryReader as spec;

use crate::when_reader::{moments, when_part};
use cond_expr::Expr;
use lexer::{Cursor, Stop, TokenKind, fresh_expr, fresh_where, is_name, name, small};
use prima_base::{Name, What};
use std::alloc::Global;
use temporal_lang_types::{Branch, Query};

// An output.
#[tactic(auto, unfolding(temporal_lang_grammar_spec::specs::QueryReader::output))]
fn output(alloc: Global, c: &mut Cursor<'_, '_>) -> Result<Expr, Stop>
    ensures { Reads tree (spec.output c.old.nodes (ahead c.old)) result c.new }
{
    fresh_expr(alloc, c, true)
}

// More outputs after a first, each after a comma, 31 at most.
fn more_outputs(alloc: Global, c: &mut Cursor<'_, '_>, list: &mut Vec<Expr>) -> Result<(), Stop>
    ensures { ReadsMore (more (is_sign (codes ",")) limited.Outputs spec.output 31 c.old.nodes
        (ahead c.old)) (map tree list.old.items) (map tree list.new.items) result c.new }
{
    let mut left: u32 = 31;
    while c.sees_sign(b",") {
        if left == 0 {
            return Err(Stop::TooMany(What::Outputs));
        }
        left -= 1;
        c.skip();
        list.push(output(alloc, c)?)?;
    }
    Ok(())
}

// Outputs with commas between them, one at least.
#[tactic(auto, unfolding(temporal_lang_grammar_spec::specs::QueryReader::outputs))]
fn outputs(alloc: Global, c: &mut Cursor<'_, '_>) -> Result<Vec<Expr>, Stop>
    ensures { Reads (λ v. map tree v.items) (spec.outputs c.old.nodes (ahead c.old)) result c.new }
{
    let first = output(alloc, c)?;
    let mut list = vec![in alloc; first]?;
    more_outputs(alloc, c, &mut list)?;
    Ok(list)
}

// Whether a name comes next.
fn sees_name(c: &Cursor<'_, '_>) -> bool
    ensures { result ≡ sees (λ x. is_some (as_name x)) (ahead c.now) }
{
    if c.rest.is_empty() {
        return false;
    }
    let token = &c.rest[0];
    match token.kind {
        TokenKind::Word => is_name(token.text),
        _ => false,
    }
}

// The alias of a table; a missing one is the table's name.
#[tactic(auto, unfolding(temporal_lang_grammar_spec::specs::QueryReader::alias, lexer_trees_spec::specs::Constants::name), using(lexer_combinators::proofs::ReadSteps::maybe_not, lexer_combinators::proofs::ReadSteps::maybe_says))]
fn alias(alloc: Global, c: &mut Cursor<'_, '_>, table: &Name) -> Result<Name, Stop>
    ensures { Reads (λ n. n) (spec.alias table.now c.old.nodes (ahead c.old)) result c.new }
{
    if !sees_name(c) {
        return Ok(table.copy()?);
    }
    name(alloc, c)
}

// An item of a FROM: a table and its alias.
#[tactic(auto, unfolding(temporal_lang_grammar_spec::specs::QueryReader::item))]
fn item(alloc: Global, c: &mut Cursor<'_, '_>) -> Result<(Name, Name), Stop>
    ensures { Reads (λ i. i) (spec.item c.old.nodes (ahead c.old)) result c.new }
{
    let table = name(alloc, c)?;
    let named = alias(alloc, c, &table)?;
    Ok((table, named))
}

// More items after a first, each after a comma, seven at most.
fn more_items(
    alloc: Global,
    c: &mut Cursor<'_, '_>,
    list: &mut Vec<(Name, Name)>,
) -> Result<(), Stop>
    ensures { ReadsMore (more (is_sign (codes ",")) limited.Tables spec.item 7 c.old.nodes
        (ahead c.old)) list.old.items list.new.items result c.new }
{
    let mut left: u32 = 7;
    while c.sees_sign(b",") {
        if left == 0 {
            return Err(Stop::TooMany(What::Tables));
        }
        left -= 1;
        c.skip();
        list.push(item(alloc, c)?)?;
    }
    Ok(())
}

// Items with commas between them, one at least.
#[tactic(auto, unfolding(temporal_lang_grammar_spec::specs::QueryReader::items))]
fn items(alloc: Global, c: &mut Cursor<'_, '_>) -> Result<Vec<(Name, Name)>, Stop>
    ensures { Reads (λ v. v.items) (spec.items c.old.nodes (ahead c.old)) result c.new }
{
    let first = item(alloc, c)?;
    let mut list = vec![in alloc; first]?;
    more_items(alloc, c, &mut list)?;
    Ok(list)
}

// A branch.
#[tactic(auto, unfolding(temporal_lang_grammar_spec::specs::QueryReader::branch), using(lexer_combinators::proofs::ReadSteps::lead_seen, lexer_combinators::proofs::ReadSteps::lead_not))]
fn branch(alloc: Global, c: &mut Cursor<'_, '_>) -> Result<Branch, Stop>
    ensures { Reads branch_of (spec.branch c.old.nodes (ahead c.old)) result c.new }
{
    c.expect_word(b"SELECT")?;
    let outs = outputs(alloc, c)?;
    c.expect_word(b"FROM")?;
    let from = items(alloc, c)?;
    let cond = fresh_where(alloc, c, true)?;
    Ok(Branch { outs, from, cond })
}

// More branches after a first, each after UNION, fifteen at most.
fn more_branches(alloc: Global, c: &mut Cursor<'_, '_>, list: &mut Vec<Branch>) -> Result<(), Stop>
    ensures { ReadsMore (more (is_word (codes "UNION")) limited.Branches spec.branch 15 c.old.nodes
        (ahead c.old)) (branches_of list.old.items) (branches_of list.new.items) result c.new }
{
    let mut left: u32 = 15;
    while c.sees_word(b"UNION") {
        if left == 0 {
            return Err(Stop::TooMany(What::Branches));
        }
        left -= 1;
        c.skip();
        list.push(branch(alloc, c)?)?;
    }
    Ok(())
}

// Branches with UNION between them, one at least.
#[tactic(auto, unfolding(temporal_lang_grammar_spec::specs::QueryReader::branches))]
fn branches(alloc: Global, c: &mut Cursor<'_, '_>) -> Result<Vec<Branch>, Stop>
    ensures { Reads (λ v. branches_of v.items) (spec.branches c.old.nodes (ahead c.old)) result
        c.new }
{
    let first = branch(alloc, c)?;
    let mut list = vec![in alloc; first]?;
    more_branches(alloc, c, &mut list)?;
    Ok(list)
}

/// A query, with counts of its own in each outermost expression and condition.
#[tactic(auto, unfolding(temporal_lang_grammar_spec::specs::QueryReader::ask), using(lexer_combinators::proofs::ReadSteps::lead_seen, lexer_combinators::proofs::ReadSteps::lead_not))]
pub fn ask(alloc: Global, c: &mut Cursor<'_, '_>) -> Result<Query, Stop>
    ensures { Reads query_of (spec.ask c.old.nodes (ahead c.old)) result c.new }
{
    c.expect_word(b"VERSION")?;
    let version = small(c)?;
    let branches = branches(alloc, c)?;
    let (when, keep) = when_part(alloc, c)?;
    Ok(Query {
        version,
        branches,
        when,
        keep,
    })
}

/// A query that keeps each entry of its answer, with counts of its own in each outermost expression
/// and condition: a KEEP is nothing of it.
#[tactic(auto, unfolding(temporal_lang_grammar_spec::specs::QueryReader::full_ask), using(lexer_combinators::proofs::ReadSteps::lead_seen, lexer_combinators::proofs::ReadSteps::lead_not))]
pub fn full_ask(alloc: Global, c: &mut Cursor<'_, '_>) -> Result<Query, Stop>
    ensures { Reads query_of (spec.full_ask c.old.nodes (ahead c.old)) result c.new }
{
    c.expect_word(b"VERSION")?;
    let version = small(c)?;
    let branches = branches(alloc, c)?;
    let when = moments(c)?;
    Ok(Query {
        version,
        branches,
        when,
        keep: Vec::new(alloc),
    })
}
