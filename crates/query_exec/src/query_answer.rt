//! A query on any version, answered.

ghost use Rattle.std.specs.Prelude.{◌≡◌, ◌+◌, ◌≤◌, List, IfOk, length};
ghost use Rattle.relations_spec.specs.Sets.{In};
ghost use Rattle.relations_spec.specs.Listing.{IsListing};
ghost use Rattle.prima_base.specs.Keeping.{kept};
ghost use Rattle.prima_base.specs.Order.{row_cmp};
ghost use Rattle.prima_base.specs.Timed.{entries_of};
ghost use Rattle.smo_ops_spec.specs.Past.{Past};
ghost use Rattle.temporal_lang_spec.specs.Answers.{asked_at, answer};
ghost use Rattle.temporal_lang_types.specs.Queries.{PlainQuery, query_of, slice_of, IsLasting};
ghost use Rattle.version_groups.specs.Groups.{versions_in};
ghost use Rattle.version_groups.specs.Representation.{Represents};
ghost use Rattle.rewrite.specs.Books.{book_meaning};
ghost use Rattle.query_exec.specs.Accepted.{IsQueryAccepted, IsAnswerable};
ghost use Rattle.piece_ir.specs.ExplainedPieces.{PlainExplained};
ghost use Rattle.query_exec.specs.Borrowed.{BorrowedByBranch, AreSpared, AreBorrowedBy};
ghost use Rattle.query_exec.specs.QueryPieces.{ArePieces, living_pieces};
ghost use Rattle.query_exec.specs.Reads.{explained_read, reads_of};

use crate::branch::answer_branches;
use crate::route::{ends_in_time, route_of};
use coalesce::coalesce_in_place;
use prima_base::{NoMemory, Steps};
use prima_base_rows::TimedRows;
use rewrite_rules_book::{Rule, RuleBook};
use std::alloc::Global;
use std::sync::ledger::Ledger;
use temporal_lang::{Query, slice};
use version_groups::Groups;

/// What a query lists, over all of history: each row with the longest periods of its slice in which
/// it holds, over the borders of versions too, ascending by row and start. KEEP is left to the
/// caller. The query is one that is not refused, with each reference made one to an atom, and the
/// groups represent the past.
///
/// A table's pieces at a version are made from those at its neighbour, so each rule is asked once a
/// version and piece. It takes at most as many steps as there are, for each of the query's pieces,
/// keys of the piece's tables and entries of the columns that it names of them: just the pieces
/// that `explain` answers; and where it answers rows, at least as many as there are for any one of
/// them. The texts of each output that is a plain column are borrowed by the stored tables, unless
/// one of these pieces computes that text for the column of its item: each row is so of one of the
/// branches that answer it where its period begins. The one error is `NoMemory`, where memory runs
/// out.
pub fn answer<'a, L: Ledger, R: Rule>(
    alloc: Global,
    groups: &'a Groups,
    book: &RuleBook<R>,
    query: &Query,
    steps: &mut Steps<L>,
) -> Result<TimedRows<'a>, NoMemory>
    requires answerable { IsAnswerable groups.now (query_of query.now) }
    requires there { query.now.version ≤ length groups.now.versions }
    requires lasting { IsLasting query.now.when }
    ensures listed { (past : Past) → (asked : PlainQuery) → Represents groups.now past
        → IsQueryAccepted past asked (query_of query.now)
        → IfOk result (λ rows. IsListing row_cmp (asked_at past asked) (slice_of asked.when)
        (entries_of rows.items)) }
    ensures rows { (past : Past) → (asked : PlainQuery) → Represents groups.now past
        → IsQueryAccepted past asked (query_of query.now)
        → IfOk result (λ rows. kept asked.keep (entries_of rows.items) ≡ answer past asked) }
    ensures borrowed { (past : Past) → Represents groups.now past → (pieces : List PlainExplained)
        → ArePieces (book_meaning R.Rule book.now) (versions_in groups.now)
        (query_of query.now) pieces
        → (by_branch : BorrowedByBranch) → AreSpared groups.now by_branch pieces
        → IfOk result (λ rows. AreBorrowedBy past (query_of query.now) by_branch rows.items) }
    ensures cost { steps.new ≤ steps.old + reads_of groups.now (living_pieces
        (book_meaning R.Rule book.now) (versions_in groups.now)
        (query_of query.now)) }
    ensures least { (e : PlainExplained) → In e (living_pieces
        (book_meaning R.Rule book.now) (versions_in groups.now)
        (query_of query.now))
        → IfOk result (λ _. steps.old + explained_read groups.now e ≤ steps.new) }
    ensures rises { steps.old ≤ steps.new }
{
    book.known();
    let slice = slice(query);
    ends_in_time(slice);
    let route = route_of(alloc, groups, slice, query.version)?;
    let schema = groups.schema_of(query.version);
    let mut rows = answer_branches(alloc, groups, book, &route, schema, &query.branches, steps)?;
    coalesce_in_place(&mut rows, slice);
    Ok(rows)
}
