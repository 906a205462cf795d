//! Reading of an operator with its inverse, from left to right.

ghost use Rattle.std.specs.Prelude.{◌≡◌, ◌<◌, length, codes};
ghost use Rattle.prima_base.specs.declared.refusal.What.TheVariants as counted;
ghost use Rattle.smo_ops_types.specs.Operators.{operator_of, operators_of};
ghost use Rattle.smo_ops_types.specs.Commands.{body_of};
ghost use Rattle.lexer_spec.specs.Lexemes.{is_word};
ghost use Rattle.lexer_combinators.specs.Parsing.{more};
ghost use Rattle.lexer_combinators.specs.Reads.{Reads, ReadsMore, ahead};
ghost use Rattle.script_parse.specs.StatementReader as spec;

use lexer::{Cursor, Stop};
use prima_base::What;
use smo_ops::{Body, Op};
use smo_parse::operator;
use std::alloc::Global;

// An operator, with counts of its own.
#[tactic(auto, unfolding(crate::specs::StatementReader::op), using(lexer_combinators::proofs::ReadSteps::fresh_fails))]
fn op(alloc: Global, c: &mut Cursor<'_, '_>) -> Result<Op, Stop>
    ensures { Reads operator_of (spec.op c.old.nodes (ahead c.old)) result c.new }
{
    let before = c.nodes;
    c.nodes = 0;
    let found = operator(alloc, c);
    c.nodes = before;
    found
}

// More operators after a first, each after THEN, seven at most.
fn more_ops(alloc: Global, c: &mut Cursor<'_, '_>, list: &mut Vec<Op>) -> Result<(), Stop>
    ensures { ReadsMore (more (is_word (codes "THEN")) counted.Inverse spec.op 7 c.old.nodes
        (ahead c.old)) (operators_of list.old.items) (operators_of list.new.items) result c.new }
{
    let mut left: u32 = 7;
    while c.sees_word(b"THEN") {
        if left == 0 {
            return Err(Stop::TooMany(What::Inverse));
        }
        left -= 1;
        c.skip();
        list.push(op(alloc, c)?)?;
    }
    Ok(())
}

// The operators of an inverse.
#[tactic(auto, unfolding(crate::specs::StatementReader::ops))]
fn ops(alloc: Global, c: &mut Cursor<'_, '_>) -> Result<Vec<Op>, Stop>
    ensures { Reads (λ v. operators_of v.items) (spec.ops c.old.nodes (ahead c.old)) result c.new }
{
    let first = op(alloc, c)?;
    let mut list = vec![in alloc; first]?;
    more_ops(alloc, c, &mut list)?;
    Ok(list)
}

// The inverse; a missing one has no operators.
#[tactic(auto, unfolding(crate::specs::StatementReader::inverse), using(lexer_combinators::proofs::ReadSteps::option_not, lexer_combinators::proofs::ReadSteps::option_takes))]
fn inverse(alloc: Global, c: &mut Cursor<'_, '_>) -> Result<Vec<Op>, Stop>
    ensures { Reads (λ v. operators_of v.items) (spec.inverse c.old.nodes (ahead c.old)) result
        c.new }
{
    if !c.sees_word(b"INVERSE") {
        return Ok(Vec::new(alloc));
    }
    c.skip();
    ops(alloc, c)
}

/// What stands after EVOLVE: an operator, and its inverse if one is named.
#[tactic(auto, unfolding(crate::specs::StatementReader::evolve_rest))]
pub fn evolve_rest(alloc: Global, c: &mut Cursor<'_, '_>) -> Result<Body, Stop>
    ensures { Reads body_of (spec.evolve_rest c.old.nodes (ahead c.old)) result c.new }
{
    let op = op(alloc, c)?;
    let inverse = inverse(alloc, c)?;
    Ok(Body::Evolve { op, inverse })
}
