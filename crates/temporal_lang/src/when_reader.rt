//! Reading of the moments that a query asks of, and of its conditions of KEEP, from left to right.

ghost use Rattle.std.specs.Prelude.{◌<◌, codes};
ghost use Rattle.prima_base.specs.declared.refusal.What.TheVariants as limited;
ghost use Rattle.prima_base.specs.declared.keep.Keep.TheVariants as kinds;
ghost use Rattle.lexer_spec.specs.Lexemes.{is_word};
ghost use Rattle.lexer_combinators.specs.Parsing.{more};
ghost use Rattle.lexer_combinators.specs.Reads.{Reads, ReadsMore, ahead};
ghost use Rattle.temporal_lang_grammar_spec.specs.QueryReader as spec;

use lexer::{Cursor, Stop, moment};
use prima_base::{FOREVER, Keep, What};
use std::alloc::Global;
use temporal_lang_types::When;

// A moment, or `now`, which stands for this one.
#[tactic(auto, using(temporal_lang_grammar_spec::proofs::BoundSteps::now_seen, temporal_lang_grammar_spec::proofs::BoundSteps::now_not))]
fn moment_or(c: &mut Cursor<'_, '_>, now: u64) -> Result<u64, Stop>
    ensures { Reads (λ n. n) (spec.moment_or now c.old.nodes (ahead c.old)) result c.new }
{
    if c.sees_word(b"now") {
        c.skip();
        return Ok(now);
    }
    moment(c)
}

// Two bounds: as the second, `now` is the end of time.
#[tactic(auto, unfolding(temporal_lang_grammar_spec::specs::QueryReader::bounds), using(lexer_combinators::proofs::ReadSteps::lead_seen, lexer_combinators::proofs::ReadSteps::lead_not))]
fn bounds(c: &mut Cursor<'_, '_>) -> Result<(u64, u64), Stop>
    ensures { Reads (λ b. b) (spec.bounds c.old.nodes (ahead c.old)) result c.new }
{
    let first = moment(c)?;
    c.expect_word(b"TO")?;
    let second = moment_or(c, FOREVER)?;
    Ok((first, second))
}

// What stands after AS: of all moments, `now` is the last.
#[tactic(auto, using(lexer_combinators::proofs::ReadSteps::lead_seen, lexer_combinators::proofs::ReadSteps::lead_not))]
fn as_of_rest(c: &mut Cursor<'_, '_>) -> Result<Option<u64>, Stop>
    ensures { Reads (λ o. o) (spec.as_of_rest c.old.nodes (ahead c.old)) result c.new }
{
    c.expect_word(b"OF")?;
    let moment = moment_or(c, FOREVER - 1)?;
    Ok(Some(moment))
}

// The one moment that is asked of, where there is one alone.
#[tactic(auto, unfolding(temporal_lang_grammar_spec::specs::QueryReader::as_of), using(lexer_combinators::proofs::ReadSteps::option_not, lexer_combinators::proofs::ReadSteps::option_takes))]
fn as_of(c: &mut Cursor<'_, '_>) -> Result<Option<u64>, Stop>
    ensures { Reads (λ o. o) (spec.as_of c.old.nodes (ahead c.old)) result c.new }
{
    if !c.sees_word(b"AS") {
        return Ok(None);
    }
    c.skip();
    as_of_rest(c)
}

// What stands after DURING.
fn during_rest(c: &mut Cursor<'_, '_>) -> Result<When, Stop>
    ensures { Reads (λ w. w) (spec.during_rest c.old.nodes (ahead c.old)) result c.new }
{
    let (start, end) = bounds(c)?;
    Ok(When::During(start, end))
}

// The moments of a DURING; where it is missing, all of them.
#[tactic(auto, unfolding(temporal_lang_grammar_spec::specs::QueryReader::during), using(lexer_combinators::proofs::ReadSteps::option_not, lexer_combinators::proofs::ReadSteps::option_takes))]
fn during(c: &mut Cursor<'_, '_>) -> Result<When, Stop>
    ensures { Reads (λ w. w) (spec.during c.old.nodes (ahead c.old)) result c.new }
{
    if !c.sees_word(b"DURING") {
        return Ok(When::Always);
    }
    c.skip();
    during_rest(c)
}

// What stands after STARTING.
#[tactic(auto, unfolding(temporal_lang_grammar_spec::specs::QueryReader::between))]
fn starting(c: &mut Cursor<'_, '_>) -> Result<Keep, Stop>
    ensures { Reads (λ k. k) (spec.between kinds.Starting c.old.nodes (ahead c.old)) result c.new }
{
    let (first, second) = bounds(c)?;
    Ok(Keep::Starting(first, second))
}

// What stands after ENDING.
#[tactic(auto, unfolding(temporal_lang_grammar_spec::specs::QueryReader::between))]
fn ending(c: &mut Cursor<'_, '_>) -> Result<Keep, Stop>
    ensures { Reads (λ k. k) (spec.between kinds.Ending c.old.nodes (ahead c.old)) result c.new }
{
    let (first, second) = bounds(c)?;
    Ok(Keep::Ending(first, second))
}

// What stands after LASTING.
#[tactic(auto, unfolding(temporal_lang_grammar_spec::specs::QueryReader::between))]
fn lasting(c: &mut Cursor<'_, '_>) -> Result<Keep, Stop>
    ensures { Reads (λ k. k) (spec.between kinds.Lasting c.old.nodes (ahead c.old)) result c.new }
{
    let (first, second) = bounds(c)?;
    Ok(Keep::Lasting(first, second))
}

// What stands after OVERLAPPING.
#[tactic(auto, unfolding(temporal_lang_grammar_spec::specs::QueryReader::between))]
fn overlapping(c: &mut Cursor<'_, '_>) -> Result<Keep, Stop>
    ensures { Reads (λ k. k) (spec.between kinds.Overlapping c.old.nodes (ahead c.old))
        result c.new }
{
    let (first, second) = bounds(c)?;
    Ok(Keep::Overlapping(first, second))
}

// What stands after COVERING.
#[tactic(auto, unfolding(temporal_lang_grammar_spec::specs::QueryReader::covering))]
fn covering(c: &mut Cursor<'_, '_>) -> Result<Keep, Stop>
    ensures { Reads (λ k. k) (spec.covering c.old.nodes (ahead c.old)) result c.new }
{
    let moment = moment(c)?;
    Ok(Keep::Covering(moment))
}

// A condition of KEEP.
#[tactic(auto, unfolding(temporal_lang_grammar_spec::specs::QueryReader::keep), using(lexer_combinators::proofs::ReadSteps::choose_takes, lexer_combinators::proofs::ReadSteps::choose_no))]
fn keep(c: &mut Cursor<'_, '_>) -> Result<Keep, Stop>
    ensures { Reads (λ k. k) (spec.keep c.old.nodes (ahead c.old)) result c.new }
{
    if c.sees_word(b"STARTING") {
        c.skip();
        return starting(c);
    }
    if c.sees_word(b"ENDING") {
        c.skip();
        return ending(c);
    }
    if c.sees_word(b"LASTING") {
        c.skip();
        return lasting(c);
    }
    if c.sees_word(b"OVERLAPPING") {
        c.skip();
        return overlapping(c);
    }
    if c.sees_word(b"COVERING") {
        c.skip();
        return covering(c);
    }
    Err(Stop::Unexpected)
}

// More conditions after a first, each after AND, seven at most.
fn more_keeps(c: &mut Cursor<'_, '_>, list: &mut Vec<Keep>) -> Result<(), Stop>
    ensures { ReadsMore (more (is_word (codes "AND")) limited.Keeps spec.keep 7 c.old.nodes
        (ahead c.old)) list.old.items list.new.items result c.new }
{
    let mut left: u32 = 7;
    while c.sees_word(b"AND") {
        if left == 0 {
            return Err(Stop::TooMany(What::Keeps));
        }
        left -= 1;
        c.skip();
        list.push(keep(c)?)?;
    }
    Ok(())
}

// Conditions with AND between them, one at least.
#[tactic(auto, unfolding(temporal_lang_grammar_spec::specs::QueryReader::keeps))]
fn keeps(alloc: Global, c: &mut Cursor<'_, '_>) -> Result<Vec<Keep>, Stop>
    ensures { Reads (λ v. v.items) (spec.keeps c.old.nodes (ahead c.old)) result c.new }
{
    let first = keep(c)?;
    let mut list = vec![in alloc; first]?;
    more_keeps(c, &mut list)?;
    Ok(list)
}

// The conditions of a KEEP; where it is missing, none.
#[tactic(auto, unfolding(temporal_lang_grammar_spec::specs::QueryReader::keeping), using(lexer_combinators::proofs::ReadSteps::option_not, lexer_combinators::proofs::ReadSteps::option_takes))]
fn keeping(alloc: Global, c: &mut Cursor<'_, '_>) -> Result<Vec<Keep>, Stop>
    ensures { Reads (λ v. v.items) (spec.keeping c.old.nodes (ahead c.old)) result c.new }
{
    if !c.sees_word(b"KEEP") {
        return Ok(Vec::new(alloc));
    }
    c.skip();
    keeps(alloc, c)
}

// A DURING and a KEEP, each of which may be missing.
#[tactic(auto, unfolding(temporal_lang_grammar_spec::specs::QueryReader::range))]
fn range(alloc: Global, c: &mut Cursor<'_, '_>) -> Result<(When, Vec<Keep>), Stop>
    ensures { Reads (λ r. (r.0, r.1.items)) (spec.range c.old.nodes (ahead c.old)) result c.new }
{
    let when = during(c)?;
    let conditions = keeping(alloc, c)?;
    Ok((when, conditions))
}

/// Which moments a query asks of, and its conditions of KEEP, of which AS OF has none.
#[tactic(auto, unfolding(temporal_lang_grammar_spec::specs::QueryReader::when_part))]
pub fn when_part(alloc: Global, c: &mut Cursor<'_, '_>) -> Result<(When, Vec<Keep>), Stop>
    ensures { Reads (λ r. (r.0, r.1.items)) (spec.when_part c.old.nodes (ahead c.old))
        result c.new }
{
    match as_of(c)? {
        Some(moment) => Ok((When::AsOf(moment), Vec::new(alloc))),
        None => range(alloc, c),
    }
}

/// Which moments a query asks of that keeps each entry: a KEEP is nothing of it.
#[tactic(auto, unfolding(temporal_lang_grammar_spec::specs::QueryReader::moments))]
pub fn moments(c: &mut Cursor<'_, '_>) -> Result<When, Stop>
    ensures { Reads (λ w. w) (spec.moments c.old.nodes (ahead c.old)) result c.new }
{
    match as_of(c)? {
        Some(moment) => Ok(When::AsOf(moment)),
        None => during(c),
    }
}
