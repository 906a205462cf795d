//! Reading of what is asked of groups of rows, from left to right.

ghost use Rattle.lexer_combinators.specs.Reads.{Reads, ReadsMore, ahead};
ghost use Rattle.temporal_lang_types.specs.declared.agg_item.AggItem.TheVariants as kinds;
ghost use Rattle.temporal_lang_grammar_spec.specs.AggregateReader as spec;

use lexer::{Cursor, Stop, small};
use std::alloc::Global;
use temporal_lang_types::AggItem;

// The most aggregates after the first.
const MORE: u32 = 7;

// What stands after MIN.
#[tactic(auto, unfolding(temporal_lang_grammar_spec::specs::AggregateReader::of_output))]
fn least(c: &mut Cursor<'_, '_>) -> Result<AggItem, Stop>
    ensures { Reads (λ a. a) (spec.of_output kinds.Min c.old.nodes (ahead c.old)) result c.new }
{
    let place = small(c)?;
    Ok(AggItem::Min(place))
}

// What stands after MAX.
#[tactic(auto, unfolding(temporal_lang_grammar_spec::specs::AggregateReader::of_output))]
fn greatest(c: &mut Cursor<'_, '_>) -> Result<AggItem, Stop>
    ensures { Reads (λ a. a) (spec.of_output kinds.Max c.old.nodes (ahead c.old)) result c.new }
{
    let place = small(c)?;
    Ok(AggItem::Max(place))
}

// What stands after SUM.
#[tactic(auto, unfolding(temporal_lang_grammar_spec::specs::AggregateReader::of_output))]
fn sum(c: &mut Cursor<'_, '_>) -> Result<AggItem, Stop>
    ensures { Reads (λ a. a) (spec.of_output kinds.Sum c.old.nodes (ahead c.old)) result c.new }
{
    let place = small(c)?;
    Ok(AggItem::Sum(place))
}

// An aggregate, by its word, which is a name everywhere else.
#[tactic(auto, unfolding(temporal_lang_grammar_spec::specs::AggregateReader::agg), using(lexer_combinators::proofs::ReadSteps::choose_takes, lexer_combinators::proofs::ReadSteps::choose_no))]
fn aggregate(c: &mut Cursor<'_, '_>) -> Result<AggItem, Stop>
    ensures { Reads (λ a. a) (spec.agg c.old.nodes (ahead c.old)) result c.new }
{
    if c.sees_word(b"COUNT") {
        c.skip();
        return Ok(AggItem::Count);
    }
    if c.sees_word(b"MIN") {
        c.skip();
        return least(c);
    }
    if c.sees_word(b"MAX") {
        c.skip();
        return greatest(c);
    }
    if c.sees_word(b"SUM") {
        c.skip();
        return sum(c);
    }
    Err(Stop::Unexpected)
}

// More aggregates after a first, each after a comma, seven at most: an eighth comma is none of
// theirs.
fn more_aggregates(c: &mut Cursor<'_, '_>, list: &mut Vec<AggItem>) -> Result<(), Stop>
    ensures { ReadsMore (spec.more_aggs 7 c.old.nodes (ahead c.old)) list.old.items list.new.items
        result c.new }
{
    let mut left = MORE;
    while c.sees_sign(b",") {
        if left == 0 {
            return Ok(());
        }
        left -= 1;
        c.skip();
        list.push(aggregate(c)?)?;
    }
    Ok(())
}

/// Aggregates with commas between them, one at least and eight at most.
#[tactic(auto, unfolding(temporal_lang_grammar_spec::specs::AggregateReader::aggs))]
pub fn aggregates(alloc: Global, c: &mut Cursor<'_, '_>) -> Result<Vec<AggItem>, Stop>
    ensures { Reads (λ v. v.items) (spec.aggs c.old.nodes (ahead c.old)) result c.new }
{
    let first = aggregate(c)?;
    let mut list = vec![in alloc; first]?;
    more_aggregates(c, &mut list)?;
    Ok(list)
}
