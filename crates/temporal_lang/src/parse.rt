//! A query from a list of tokens.

ghost use Rattle.std.specs.Prelude.{◌≤◌, length};
ghost use Rattle.lexer_combinators.specs.Found.{IsRead, FindsStopped, FindsLongest, AnswersAs};
ghost use Rattle.lexer_combinators.specs.Found.{lexemes_from};
ghost use Rattle.lexer_combinators.specs.Overflows.{IsFaultOf, RefusesFirst};
ghost use Rattle.temporal_lang_types.specs.Queries.{query_of};
ghost use Rattle.temporal_lang_grammar_spec.specs.QueryGrammar.{IsAsk};
ghost use Rattle.temporal_lang_grammar_spec.specs.QueryOverflows.{ask_overflows};
ghost use Rattle.temporal_lang_grammar_spec.specs.QueryReader as spec;

use crate::query_reader::ask;
use lexer::{Cursor, ParseFault, Token, fault_at, tail};
use std::alloc::Global;
use temporal_lang_types::Query;

/// The query that begins at the token `from` of the list, and the place of the token after it.
/// Places count the list's tokens from 0; `from` is at most its length. The longest query is read.
/// A missing WHERE is TRUE, a missing alias the table's name, a missing AS OF or DURING each
/// moment, and a missing KEEP no condition; `AS OF now` is the last moment. References are as
/// written, with an alias or without. Each output and each condition has the limits of `parse_expr`
/// and `parse_cond`, which begin anew in each of them; a branch has at most 32 outputs and 8 items,
/// a query at most 16 branches and 8 conditions of KEEP. `Syntax` is the place in the statement of
/// the first token with which no query goes on, `RanOut` comes where the list ends before a query
/// is whole, and `TooMany` at the first token at which a count passes its limit: that of a list at
/// the comma, UNION or AND before one member too many.
pub fn parse_query(
    alloc: Global,
    list: &[Token<'_>],
    from: usize,
) -> Result<(Query, usize), ParseFault>
    requires { from ≤ length list.now }
    // What is read is in the grammar, and nothing of it goes on with the token after it.
    ensures read { IsRead query_of IsAsk list.now from result }
    // What is in the grammar, up to a token that it does not go on with, is read if it is within
    // the limits, and else refused.
    ensures only { FindsStopped query_of IsAsk spec.follow_ask list.now from result }
    // What is in the grammar, where nothing of it goes on with the token after it, is read if it is
    // within the limits, and else refused.
    ensures longest { FindsLongest query_of IsAsk list.now from result }
    // A fault is at the first token with which nothing of the grammar goes on, or at which a count
    // passes its limit.
    ensures fault { IsFaultOf IsAsk ask_overflows list.now from result }
    // A prefix that passes a limit at its last token is refused there for this count, whatever
    // stands after it.
    ensures over { RefusesFirst IsAsk ask_overflows list.now from result }
    ensures exact { AnswersAs query_of (spec.ask 0 (lexemes_from list.now from)) list.now result }
{
    let mut cursor = Cursor {
        rest: tail(list, from),
        nodes: 0,
    };
    match ask(alloc, &mut cursor) {
        Ok(found) => Ok((found, list.len() - cursor.rest.len())),
        Err(stop) => Err(fault_at(stop, list, cursor.rest.len())),
    }
}
