//! Expressions and conditions.

ghost use Rattle.std.specs.Prelude.{nat_lt};
ghost use Rattle.cond_expr.specs.Trees.{joined};
ghost use Rattle.cond_expr.specs.Seen.{trees_of};
ghost use Rattle.command_codec_spec.specs.Reading.{map_to, pair, items, list_parser};
ghost use Rattle.command_codec_spec.specs.Reader as spec;
ghost use Rattle.command_codec.specs.Reads.{Recognizes};

use crate::field::{check_name, check_sign, check_value};
use command_codec::{MOST_LEVELS, Reader, Unexpected, cond_tag, expr_tag, part_count};

// Goes over so many expressions, each of at most so many levels.
#[cycle(checks)]
fn check_exprs(reader: &mut Reader<'_>, count: u64, levels: u32) -> Result<(), Unexpected>
    ensures { Recognizes (items (spec.level levels).expr count reader.old.rest.now) result
        reader.new.rest.now }
{
    for _ in 0..count {
        check_expr(reader, levels)?;
    }
    Ok(())
}

// Goes over so many conditions, each of at most so many levels.
#[cycle(checks)]
fn check_conds(reader: &mut Reader<'_>, count: u64, levels: u32) -> Result<(), Unexpected>
    ensures { Recognizes (items (spec.level levels).cond count reader.old.rest.now) result
        reader.new.rest.now }
{
    for _ in 0..count {
        check_cond(reader, levels)?;
    }
    Ok(())
}

// Goes over what stands after the tag of CONCAT; its parts have at most so many levels.
#[cycle(checks)]
fn check_concat(reader: &mut Reader<'_>, levels: u32) -> Result<(), Unexpected>
    ensures { Recognizes (map_to (λ l. joined (trees_of l))
        (list_parser 1 (spec.most_parts (nat_lt 0 levels) 255) (spec.level levels).expr)
        reader.old.rest.now) result reader.new.rest.now }
{
    let count = part_count(reader, 1, 0xFF, levels > 0)?;
    check_exprs(reader, count, levels)
}

// Goes over what stands after the tag of CASE; its parts have at most so many levels.
#[cycle(checks)]
fn check_case(reader: &mut Reader<'_>, levels: u32) -> Result<(), Unexpected>
    ensures { Recognizes (map_to spec.chosen
        (pair (pair (spec.level levels).cond (spec.level levels).expr) (spec.level levels).expr)
        reader.old.rest.now) result reader.new.rest.now }
{
    check_cond(reader, levels)?;
    check_expr(reader, levels)?;
    check_expr(reader, levels)
}

// Goes over an expression whose parts have at most so many levels.
#[cycle(checks)]
#[tactic(auto, unfolding(command_codec_spec::specs::Reader::expr))]
fn check_expr_over(reader: &mut Reader<'_>, levels: u32) -> Result<(), Unexpected>
    ensures { Recognizes (spec.expr (nat_lt 0 levels) (spec.level levels) reader.old.rest.now)
        result reader.new.rest.now }
{
    match expr_tag(reader, levels > 0)? {
        0 => check_name(reader),
        1 => check_value(reader),
        2 => check_expr(reader, levels),
        3 => check_concat(reader, levels),
        _ => check_case(reader, levels),
    }
}

// Goes over an expression of at most so many levels.
#[cycle(checks)]
fn check_expr(reader: &mut Reader<'_>, levels: u32) -> Result<(), Unexpected>
    ensures { Recognizes ((spec.level levels).expr reader.old.rest.now) result reader.new.rest.now }
{
    if levels == 0 {
        return Err(Unexpected);
    }
    check_expr_over(reader, levels - 1)
}

// Goes over what stands after the tag of a comparison; its sides have at most so many levels.
#[cycle(checks)]
fn check_comparison(reader: &mut Reader<'_>, levels: u32) -> Result<(), Unexpected>
    ensures { Recognizes (map_to spec.comparison
        (pair (pair spec.sign (spec.level levels).expr) (spec.level levels).expr)
        reader.old.rest.now) result reader.new.rest.now }
{
    check_sign(reader)?;
    check_expr(reader, levels)?;
    check_expr(reader, levels)
}

// Goes over what stands after the tag of an AND or an OR; its parts have at most so many levels.
#[cycle(checks)]
fn check_parts(reader: &mut Reader<'_>, levels: u32) -> Result<(), Unexpected>
    ensures { Recognizes (list_parser 2 (spec.most_parts (nat_lt 0 levels) 65535)
        (spec.level levels).cond reader.old.rest.now) result reader.new.rest.now }
{
    let count = part_count(reader, 2, 0xFFFF, levels > 0)?;
    check_conds(reader, count, levels)
}

// Goes over a condition whose parts have at most so many levels.
#[cycle(checks)]
#[tactic(auto, unfolding(command_codec_spec::specs::Reader::cond))]
fn check_cond_over(reader: &mut Reader<'_>, levels: u32) -> Result<(), Unexpected>
    ensures { Recognizes (spec.cond (nat_lt 0 levels) (spec.level levels) reader.old.rest.now)
        result reader.new.rest.now }
{
    match cond_tag(reader, levels > 0)? {
        0 | 1 => Ok(()),
        2 => check_comparison(reader, levels),
        3 | 4 => check_parts(reader, levels),
        _ => check_cond(reader, levels),
    }
}

// Goes over a condition of at most so many levels.
#[cycle(checks)]
fn check_cond(reader: &mut Reader<'_>, levels: u32) -> Result<(), Unexpected>
    ensures { Recognizes ((spec.level levels).cond reader.old.rest.now) result reader.new.rest.now }
{
    if levels == 0 {
        return Err(Unexpected);
    }
    check_cond_over(reader, levels - 1)
}

/// Goes over an expression.
#[tactic(auto, unfolding(command_codec_spec::specs::Reader::outermost))]
pub(crate) fn check_outer_expr(reader: &mut Reader<'_>) -> Result<(), Unexpected>
    ensures { Recognizes (spec.outermost.expr reader.old.rest.now) result reader.new.rest.now }
{
    check_expr(reader, MOST_LEVELS)
}

/// Goes over a condition.
#[tactic(auto, unfolding(command_codec_spec::specs::Reader::outermost))]
pub(crate) fn check_outer_cond(reader: &mut Reader<'_>) -> Result<(), Unexpected>
    ensures { Recognizes (spec.outermost.cond reader.old.rest.now) result reader.new.rest.now }
{
    check_cond(reader, MOST_LEVELS)
}
