//! What is asked of the table of an item.

ghost use Rattle.std.specs.Prelude.{◌≡◌, IfOk};
ghost use Rattle.cond_expr.specs.References.{borrowed};
ghost use Rattle.cond_expr.specs.Seen.{test};
ghost use Rattle.query_exec.specs.Questions.{own_read};
ghost use Rattle.query_exec.specs.Asked.{read_asked};

use cond_expr::{ColRef, Cond};
use join_exec::names_at;
use piece_prune::pushed_cond;
use prima_base::{Name, NoMemory};
use std::alloc::Global;

/// The rows of a table that meet a condition over its own columns, with some of these columns.
#[derive(Drop)]
pub(crate) struct Question {
    pub(crate) cond: Cond,
    pub(crate) names: Vec<Name>,
}

/// What is asked of the item's table, whose place in its branch this is: the columns that are named
/// of it, of the rows that meet the condition that is pushed to it.
pub(crate) fn question_of(
    alloc: Global,
    references: &[&ColRef],
    cond: &Cond,
    place: u32,
) -> Result<Question, NoMemory>
    ensures { IfOk result (λ q. read_asked q ≡ own_read place (borrowed references.now)
        (test cond.now)) }
{
    let names = names_at(alloc, references, place)?;
    let cond = pushed_cond(alloc, cond, place)?;
    Ok(Question { cond, names })
}
