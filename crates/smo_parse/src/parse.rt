//! An operator from a list of tokens.

ghost use Rattle.std.specs.Prelude.{◌≤◌, length};
ghost use Rattle.smo_ops_types.specs.Operators.{operator_of};
ghost use Rattle.lexer_combinators.specs.Found.{IsRead, FindsStopped, FindsLongest, AnswersAs};
ghost use Rattle.lexer_combinators.specs.Found.{lexemes_from};
ghost use Rattle.lexer_combinators.specs.Overflows.{IsFaultOf, RefusesFirst};
ghost use Rattle.smo_parse.specs.Productions.{IsOperator};
ghost use Rattle.smo_parse.specs.OperatorCounts.{operator_overflows};
ghost use Rattle.smo_parse.specs.OperatorReader as spec;

use crate::operator_reader::operator;
use lexer::{Cursor, ParseFault, Token, fault_at, tail};
use smo_ops::Op;
use std::alloc::Global;

/// The operator that begins at the token `from` of the list, and the place of the token after it.
/// Places count the list's tokens from 0; `from` is at most its length. The longest operator is
/// read. References of its expression or condition are columns of atom 0.
///
/// `Syntax` has the place in the statement, in bytes as `Token::at`, of the first token with which
/// no operator goes on: the tokens before it begin one that is not whole yet, and with this token
/// they begin none. `RanOut` comes where the list ends inside of one: its tokens begin one that is
/// not whole yet. The limits of its expression or condition are those of `parse_expr` and
/// `parse_cond` (256 nodes, 32 open brackets, CASEs and NOTs, 8 parts of a CONCAT): `TooMany` has
/// the count and its limit where the first token that is one more comes before any wrong one, and
/// of two counts that pass at one token it is the nodes. `NoMemory` comes where memory runs out,
/// whatever the tokens are.
pub fn parse_op(alloc: Global, list: &[Token<'_>], from: usize) -> Result<(Op, usize), ParseFault>
    requires { from ≤ length list.now }
    // What is read is in the grammar, and nothing of it goes on with the token after it.
    ensures read { IsRead operator_of IsOperator list.now from result }
    // What is in the grammar, up to a token that it does not go on with, is read if it is within
    // the limits, and else refused.
    ensures only { FindsStopped operator_of IsOperator spec.follow_operator list.now from result }
    // What is in the grammar, where nothing of it goes on with the token after it, is read if it is
    // within the limits, and else refused.
    ensures longest { FindsLongest operator_of IsOperator list.now from result }
    // A fault is at the first token with which nothing of the grammar goes on, or at which a count
    // passes its limit.
    ensures fault { IsFaultOf IsOperator operator_overflows list.now from result }
    // A prefix that passes a limit at its last token is refused there for this count, whatever
    // stands after it.
    ensures over { RefusesFirst IsOperator operator_overflows list.now from result }
    ensures exact { AnswersAs operator_of (spec.operator 0 (lexemes_from list.now from)) list.now
        result }
{
    let mut cursor = Cursor {
        rest: tail(list, from),
        nodes: 0,
    };
    match operator(alloc, &mut cursor) {
        Ok(found) => Ok((found, list.len() - cursor.rest.len())),
        Err(stop) => Err(fault_at(stop, list, cursor.rest.len())),
    }
}
