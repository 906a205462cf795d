//! A table of the asked version, taken along the versions of a slice.

ghost use Rattle.std.specs.Prelude.{IfOk};
ghost use Rattle.smo_ops_spec.specs.Past.{Past};
ghost use Rattle.version_groups.specs.Groups.{versions_in};
ghost use Rattle.version_groups.specs.Representation.{Represents};
ghost use Rattle.rewrite.specs.Books.{book_meaning};
ghost use Rattle.query_exec.specs.Asked.{read_asked};
ghost use Rattle.query_exec.specs.Planned.{ArePlanned};
ghost use Rattle.query_exec.specs.Routes.{AreAlong};

use crate::part_piece::{PartPieces, part_pieces};
use crate::question::Question;
use prima_base::{Name, NoMemory, Period};
use rewrite::Walk;
use rewrite_rules_book::{Rule, RuleBook};
use std::alloc::Global;
use version_groups::Groups;

/// What is planned for the table at the versions of parts, to which a walk from the asked version
/// comes in their order.
pub(crate) fn pieces_along<R: Rule>(
    alloc: Global,
    groups: &Groups,
    book: &RuleBook<R>,
    asked: u32,
    parts: &[(Period, u32)],
    table: &Name,
    question: &Question,
) -> Result<Vec<PartPieces>, NoMemory>
    requires represents { (past : Past) × Represents groups.now past }
    requires along { AreAlong (versions_in groups.now) asked table.now (read_asked question.now)
        parts.now }
    ensures { IfOk result (λ v. ArePlanned (book_meaning R.Rule book.now)
        (versions_in groups.now) asked table.now (read_asked question.now) parts.now v.items) }
{
    book.known();
    let start = Walk::start(alloc, asked, table, &question.cond, &question.names)?;
    let versions = groups.versions();
    let mut walk = start;
    let mut plan = Vec::new(alloc);
    for part in parts {
        walk = walk.to(alloc, book, versions, part.1)?;
        plan.push(part_pieces(alloc, groups, *part, &walk.pieces, walk.pruned)?)?;
    }
    Ok(plan)
}
