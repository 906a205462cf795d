//! Reading expressions and conditions.

ghost use Rattle.std.specs.Prelude.{◌≡◌, ◌≤◌, ◌<◌, ℕ, nat_lt, map};
ghost use Rattle.cond_expr.specs.declared.expr.Whose.TheVariants.{Atom};
ghost use Rattle.cond_expr.specs.Trees.{column, constant, length_of, joined};
ghost use Rattle.cond_expr.specs.Trees.{all_of, some_of, fails};
ghost use Rattle.cond_expr.specs.Seen.{tree, test, trees_of, tests_of};
ghost use Rattle.command_codec_spec.specs.Reading.{byte, digits, map_to, pair, items, list_parser};
ghost use Rattle.command_codec_spec.specs.Reader as spec;
ghost use Rattle.command_codec.specs.Reads.{Reads, ReadsInPlace};

use crate::field::{name, sign, value};
use crate::reader::{ReadStop, Reader, Unexpected};
use cond_expr::{ColRef, Cond, Expr, Whose};
use prima_base::limits::MAX_DEPTH;
use std::alloc::Global;

/// The most levels of a tree.
pub const MOST_LEVELS: u32 = MAX_DEPTH as u32;

/// The tag of an expression. Where no level may stand below it, LENGTH and CASE cannot stand. It
/// takes no memory.
pub fn expr_tag(reader: &mut Reader<'_>, deeper: bool) -> Result<u8, Unexpected>
    ensures { ReadsInPlace (λ b. b) (byte (spec.is_expr_tag deeper) reader.old.rest.now) result
        reader.new.rest.now }
{
    if deeper {
        return reader.tag(4);
    }
    match reader.rest {
        [first @ (0 | 1 | 3), rest @ ..] => {
            reader.rest = rest;
            Ok(*first)
        }
        _ => Err(Unexpected),
    }
}

/// The tag of a condition. Where no level may stand below it, comparisons and NOT cannot stand. It
/// takes no memory.
pub fn cond_tag(reader: &mut Reader<'_>, deeper: bool) -> Result<u8, Unexpected>
    ensures { ReadsInPlace (λ b. b) (byte (spec.is_cond_tag deeper) reader.old.rest.now) result
        reader.new.rest.now }
{
    if deeper {
        return reader.tag(5);
    }
    match reader.rest {
        [first @ (0 | 1 | 3 | 4), rest @ ..] => {
            reader.rest = rest;
            Ok(*first)
        }
        _ => Err(Unexpected),
    }
}

/// How many parts stand in a list, where it has any only if a level may stand below. It takes no
/// memory.
pub fn part_count(
    reader: &mut Reader<'_>,
    width: u32,
    most: u64,
    deeper: bool,
) -> Result<u64, Unexpected>
    requires { width ≤ 8 }
    ensures { ReadsInPlace (λ n. n) (digits (spec.most_parts deeper most) width 0
        reader.old.rest.now) result reader.new.rest.now }
{
    reader.number(width, if deeper { most } else { 0 })
}

// A column.
fn column(alloc: Global, reader: &mut Reader<'_>) -> Result<Expr, ReadStop>
    ensures { Reads tree (map_to (λ n. column (Atom 0) n) spec.name reader.old.rest.now) result
        reader.new.rest.now }
{
    let name = name(alloc, reader)?;
    let whose = Whose::Atom(0);
    Ok(Expr::Col(ColRef { whose, name }))
}

// A constant.
fn constant(alloc: Global, reader: &mut Reader<'_>) -> Result<Expr, ReadStop>
    ensures { Reads tree (map_to constant spec.value reader.old.rest.now) result
        reader.new.rest.now }
{
    Ok(Expr::Const(value(alloc, reader)?))
}

// So many expressions, each of at most so many levels.
#[cycle(reads)]
fn exprs(
    alloc: Global,
    reader: &mut Reader<'_>,
    count: u64,
    levels: u32,
) -> Result<Vec<Expr>, ReadStop>
    ensures { Reads (λ v. map tree v.items) (items (spec.level levels).expr count
        reader.old.rest.now) result reader.new.rest.now }
{
    let mut list = Vec::new(alloc);
    for _ in 0..count {
        list.push(expr(alloc, reader, levels)?)?;
    }
    Ok(list)
}

// So many conditions, each of at most so many levels.
#[cycle(reads)]
fn conds(
    alloc: Global,
    reader: &mut Reader<'_>,
    count: u64,
    levels: u32,
) -> Result<Vec<Cond>, ReadStop>
    ensures { Reads (λ v. map test v.items) (items (spec.level levels).cond count
        reader.old.rest.now) result reader.new.rest.now }
{
    let mut list = Vec::new(alloc);
    for _ in 0..count {
        list.push(cond(alloc, reader, levels)?)?;
    }
    Ok(list)
}

// LENGTH, whose part has at most so many levels.
#[cycle(reads)]
fn length(alloc: Global, reader: &mut Reader<'_>, levels: u32) -> Result<Expr, ReadStop>
    ensures { Reads tree (map_to length_of (spec.level levels).expr reader.old.rest.now) result
        reader.new.rest.now }
{
    let part = expr(alloc, reader, levels)?;
    Ok(Expr::length(alloc, part)?)
}

// CONCAT, whose parts have at most so many levels.
#[cycle(reads)]
fn concat(alloc: Global, reader: &mut Reader<'_>, levels: u32) -> Result<Expr, ReadStop>
    ensures { Reads tree (map_to (λ l. joined (trees_of l))
        (list_parser 1 (spec.most_parts (nat_lt 0 levels) 255) (spec.level levels).expr)
        reader.old.rest.now) result reader.new.rest.now }
{
    let count = part_count(reader, 1, 0xFF, levels > 0)?;
    let parts = exprs(alloc, reader, count, levels)?;
    Ok(Expr::concat(parts))
}

// CASE, whose parts have at most so many levels.
#[cycle(reads)]
fn case(alloc: Global, reader: &mut Reader<'_>, levels: u32) -> Result<Expr, ReadStop>
    ensures { Reads tree (map_to spec.chosen
        (pair (pair (spec.level levels).cond (spec.level levels).expr) (spec.level levels).expr)
        reader.old.rest.now) result reader.new.rest.now }
{
    let when = cond(alloc, reader, levels)?;
    let yes = expr(alloc, reader, levels)?;
    let no = expr(alloc, reader, levels)?;
    Ok(Expr::case(alloc, when, yes, no)?)
}

// An expression whose parts have at most so many levels.
#[cycle(reads)]
#[tactic(auto, unfolding(command_codec_spec::specs::Reader::expr))]
fn expr_over(alloc: Global, reader: &mut Reader<'_>, levels: u32) -> Result<Expr, ReadStop>
    ensures { Reads tree (spec.expr (nat_lt 0 levels) (spec.level levels) reader.old.rest.now)
        result reader.new.rest.now }
{
    match expr_tag(reader, levels > 0)? {
        0 => column(alloc, reader),
        1 => constant(alloc, reader),
        2 => length(alloc, reader, levels),
        3 => concat(alloc, reader, levels),
        _ => case(alloc, reader, levels),
    }
}

// An expression of at most so many levels.
#[cycle(reads)]
fn expr(alloc: Global, reader: &mut Reader<'_>, levels: u32) -> Result<Expr, ReadStop>
    ensures { Reads tree ((spec.level levels).expr reader.old.rest.now) result reader.new.rest.now }
{
    if levels == 0 {
        return Err(ReadStop::Unexpected);
    }
    expr_over(alloc, reader, levels - 1)
}

// A comparison, whose sides have at most so many levels.
#[cycle(reads)]
fn comparison(alloc: Global, reader: &mut Reader<'_>, levels: u32) -> Result<Cond, ReadStop>
    ensures { Reads test (map_to spec.comparison
        (pair (pair spec.sign (spec.level levels).expr) (spec.level levels).expr)
        reader.old.rest.now) result reader.new.rest.now }
{
    let op = sign(reader)?;
    let left = expr(alloc, reader, levels)?;
    let right = expr(alloc, reader, levels)?;
    Ok(Cond::compare(alloc, op, left, right)?)
}

// The conditions of an AND or an OR, each of at most so many levels.
#[cycle(reads)]
fn parts(alloc: Global, reader: &mut Reader<'_>, levels: u32) -> Result<Vec<Cond>, ReadStop>
    ensures { Reads (λ v. map test v.items) (list_parser 2 (spec.most_parts (nat_lt 0 levels) 65535)
        (spec.level levels).cond reader.old.rest.now) result reader.new.rest.now }
{
    let count = part_count(reader, 2, 0xFFFF, levels > 0)?;
    conds(alloc, reader, count, levels)
}

// NOT, whose part has at most so many levels.
#[cycle(reads)]
fn negation(alloc: Global, reader: &mut Reader<'_>, levels: u32) -> Result<Cond, ReadStop>
    ensures { Reads test (map_to fails (spec.level levels).cond reader.old.rest.now) result
        reader.new.rest.now }
{
    let part = cond(alloc, reader, levels)?;
    Ok(Cond::not(alloc, part)?)
}

// A condition whose parts have at most so many levels.
#[cycle(reads)]
#[tactic(auto, unfolding(command_codec_spec::specs::Reader::cond))]
fn cond_over(alloc: Global, reader: &mut Reader<'_>, levels: u32) -> Result<Cond, ReadStop>
    ensures { Reads test (spec.cond (nat_lt 0 levels) (spec.level levels) reader.old.rest.now)
        result reader.new.rest.now }
{
    match cond_tag(reader, levels > 0)? {
        0 => Ok(Cond::False),
        1 => Ok(Cond::True),
        2 => comparison(alloc, reader, levels),
        3 => Ok(Cond::and(parts(alloc, reader, levels)?)),
        4 => Ok(Cond::or(parts(alloc, reader, levels)?)),
        _ => negation(alloc, reader, levels),
    }
}

// A condition of at most so many levels.
#[cycle(reads)]
fn cond(alloc: Global, reader: &mut Reader<'_>, levels: u32) -> Result<Cond, ReadStop>
    ensures { Reads test ((spec.level levels).cond reader.old.rest.now) result reader.new.rest.now }
{
    if levels == 0 {
        return Err(ReadStop::Unexpected);
    }
    cond_over(alloc, reader, levels - 1)
}

/// An expression.
#[tactic(auto, unfolding(command_codec_spec::specs::Reader::outermost))]
pub fn outer_expr(alloc: Global, reader: &mut Reader<'_>) -> Result<Expr, ReadStop>
    ensures { Reads tree (spec.outermost.expr reader.old.rest.now) result reader.new.rest.now }
{
    expr(alloc, reader, MOST_LEVELS)
}

/// A condition.
#[tactic(auto, unfolding(command_codec_spec::specs::Reader::outermost))]
pub fn outer_cond(alloc: Global, reader: &mut Reader<'_>) -> Result<Cond, ReadStop>
    ensures { Reads test (spec.outermost.cond reader.old.rest.now) result reader.new.rest.now }
{
    cond(alloc, reader, MOST_LEVELS)
}
