//! An expression or a condition from a list of tokens.

ghost use Rattle.std.specs.Prelude.{◌≡◌, ◌≤◌, length, drop};
ghost use Rattle.cond_expr.specs.Seen.{tree, test};
ghost use Rattle.lexer_combinators.specs.declared.cursor.Stop.TheVariants as stop;
ghost use Rattle.lexer_trees_spec.specs.Grammar.{IsExpr, IsCond};
ghost use Rattle.lexer_combinators.specs.Overflows.{IsFaultOf, RefusesFirst};
ghost use Rattle.lexer_trees_spec.specs.TreeCounts.{expr_overflows, cond_overflows};
ghost use Rattle.lexer_combinators.specs.Parsing.{limit};
ghost use Rattle.lexer_trees_spec.specs.Reader.{follow_expr, follow_cond, outermost};
ghost use Rattle.lexer_combinators.specs.Found.{IsRead, FindsStopped, FindsLongest, AnswersAs};
ghost use Rattle.lexer_combinators.specs.Found.{FaultAt, lexemes_from};

use crate::reader::{outer_cond, outer_expr};
use cond_expr::{Cond, Expr};
use lexer_combinators::{Cursor, ParseFault, Stop};
use lexer_spec::Token;
use prima_base::What;
use prima_base::limits::{
    MAX_BRANCH_TABLES, MAX_BRANCHES, MAX_DEPTH, MAX_INVERSE, MAX_KEEPS, MAX_NODES, MAX_OUTPUTS,
    MAX_PARTS,
};
use std::alloc::Global;

/// The most of each kind that the tokens of one statement may count; 0 of what they do not count.
pub fn limit_of(what: What) -> u64
    ensures { result ≡ limit what }
{
    match what {
        What::Nodes => MAX_NODES,
        What::Depth => MAX_DEPTH,
        What::Parts => MAX_PARTS,
        What::Tables => MAX_BRANCH_TABLES as u64,
        What::Branches => MAX_BRANCHES as u64,
        What::Outputs => MAX_OUTPUTS as u64,
        What::Keeps => MAX_KEEPS as u64,
        What::Inverse => MAX_INVERSE as u64,
        What::Changes | What::Columns | What::Versions => 0,
    }
}

/// The tokens from a place on; the place is at most the list's length.
#[tactic(auto, using(lexer_spec::proofs::Cuts::tail_is))]
pub fn tail<'a, 't>(list: &'a [Token<'t>], from: usize) -> &'a [Token<'t>]
    requires { from ≤ length list.now }
    ensures { result.now ≡ drop from list.now }
{
    &list[from..]
}

/// The fault of reading that stopped before so many tokens that are left of the list.
pub fn fault_at(why: Stop, list: &[Token<'_>], left: usize) -> ParseFault
    requires { why ≡ stop.Unexpected → left ≤ length list.now }
    ensures { FaultAt why list.now left result }
{
    match why {
        Stop::NoMemory => ParseFault::NoMemory,
        Stop::TooMany(what) => ParseFault::TooMany(what, limit_of(what)),
        Stop::Unexpected => {
            if left == 0 {
                ParseFault::RanOut
            } else {
                ParseFault::Syntax(list[list.len() - left].at)
            }
        }
    }
}

/// The expression that begins at the token `from` of the list, and the place of the token after it.
/// Places count the list's tokens from 0; `from` is at most its length. The longest expression is
/// read. References are those of queries, `Free` or `Alias`, where `qualified`, and else columns of
/// atom 0. At most 256 nodes are read, at most 32 brackets, CASEs and NOTs are open at once, and a
/// CONCAT has at most 8 parts: the first token that is one more is `TooMany`, and of two counts
/// that pass at one token it is the nodes.
pub fn parse_expr(
    alloc: Global,
    list: &[Token<'_>],
    from: usize,
    qualified: bool,
) -> Result<(Expr, usize), ParseFault>
    requires { from ≤ length list.now }
    // What is read is in the grammar, and nothing of it goes on with the token after it.
    ensures read { IsRead tree (IsExpr qualified) list.now from result }
    // What is in the grammar, up to a token that it does not go on with, is read if it is within
    // the limits, and else refused.
    ensures only { FindsStopped tree (IsExpr qualified) (follow_expr qualified) list.now from result }
    // What is in the grammar, where nothing of it goes on with the token after it, is read if it is
    // within the limits, and else refused.
    ensures longest { FindsLongest tree (IsExpr qualified) list.now from result }
    // A fault is at the first token with which nothing of the grammar goes on, or at which a count
    // passes its limit.
    ensures fault { IsFaultOf (IsExpr qualified) (expr_overflows qualified) list.now from result }
    // A prefix that passes a limit at its last token is refused there for this count, whatever
    // stands after it.
    ensures over { RefusesFirst (IsExpr qualified) (expr_overflows qualified) list.now from result }
    ensures exact { AnswersAs tree ((outermost qualified).expr 0 (lexemes_from list.now from))
        list.now result }
{
    let mut cursor = Cursor {
        rest: tail(list, from),
        nodes: 0,
    };
    match outer_expr(alloc, &mut cursor, qualified) {
        Ok(found) => Ok((found, list.len() - cursor.rest.len())),
        Err(stop) => Err(fault_at(stop, list, cursor.rest.len())),
    }
}

/// The condition that begins at the token `from` of the list, and the place of the token after it.
/// Places, references and limits are those of `parse_expr`.
pub fn parse_cond(
    alloc: Global,
    list: &[Token<'_>],
    from: usize,
    qualified: bool,
) -> Result<(Cond, usize), ParseFault>
    requires { from ≤ length list.now }
    ensures read { IsRead test (IsCond qualified) list.now from result }
    ensures only { FindsStopped test (IsCond qualified) (follow_cond qualified) list.now from result }
    ensures longest { FindsLongest test (IsCond qualified) list.now from result }
    ensures fault { IsFaultOf (IsCond qualified) (cond_overflows qualified) list.now from result }
    ensures over { RefusesFirst (IsCond qualified) (cond_overflows qualified) list.now from result }
    ensures exact { AnswersAs test ((outermost qualified).cond 0 (lexemes_from list.now from))
        list.now result }
{
    let mut cursor = Cursor {
        rest: tail(list, from),
        nodes: 0,
    };
    match outer_cond(alloc, &mut cursor, qualified) {
        Ok(found) => Ok((found, list.len() - cursor.rest.len())),
        Err(stop) => Err(fault_at(stop, list, cursor.rest.len())),
    }
}
