//! The pieces of a query, told one by one.

ghost use Rattle.std.specs.Prelude.{◌≡◌, ◌++◌, ◌≤◌, List, map, IfOk, OnOk, length};
ghost use Rattle.cond_expr.specs.References.{borrowed};
ghost use Rattle.cond_expr.specs.Seen.{test};
ghost use Rattle.smo_ops_spec.specs.Past.{Past};
ghost use Rattle.piece_ir.specs.Shown.{piece_of, shown_pieces};
ghost use Rattle.piece_ir.specs.ExplainedPieces.{PlainExplained, explained_of, all_explained};
ghost use Rattle.temporal_lang_types.specs.Branches.{branch_of, branches_of};
ghost use Rattle.temporal_lang_types.specs.Queries.{PlainQuery, query_of, IsLasting};
ghost use Rattle.version_groups.specs.Groups.{versions_in};
ghost use Rattle.version_groups.specs.Representation.{Represents};
ghost use Rattle.rewrite.specs.Books.{book_meaning};
ghost use Rattle.query_exec.specs.Accepted.{MayItems, MayBranch, MayBranches, IsAnswerable};
ghost use Rattle.query_exec.specs.Accepted.{IsQueryAccepted};
ghost use Rattle.query_exec.specs.ToldMeanings.{MeanWhatIsAsked};
ghost use Rattle.query_exec.specs.Planned.{planned_pieces};
ghost use Rattle.query_exec.specs.Questions.{own_read};
ghost use Rattle.query_exec.specs.QueryPieces.{explained_in, table_pieces, items_pieces};
ghost use Rattle.query_exec.specs.QueryPieces.{branch_pieces, branches_pieces, living_pieces};
ghost use Rattle.query_exec.specs.QueryPieces.{AreLeft, ArePieces};
ghost use Rattle.query_exec.specs.Routes.{IsRoute, MayBeRead};

use crate::laws::pieces_mean_what_is_asked;
use crate::part_piece::PartPieces;
use crate::question::question_of;
use crate::route::{Route, route_of};
use crate::table::table_pieces;
use cond_expr::{ColRef, Cond, gather_references};
use piece_ir::{Explained, Piece};
use prima_base::{Name, NoMemory, Period};
use rewrite_rules_book::{Rule, RuleBook};
use std::alloc::Global;
use temporal_lang::{Branch, Query, slice};
use version_groups::Groups;

// A piece over the version of a part, for an item of a branch.
fn explained_in(part: &(Period, u32), piece: Piece, branch: u32, atom: u32) -> Explained
    ensures { explained_of result ≡ explained_in branch atom part.now (piece_of piece) }
{
    Explained {
        period: part.0,
        branch,
        atom,
        version: part.1,
        piece,
    }
}

// Puts copies of the pieces over one version, for an item of a branch, after the others.
fn push_pieces(
    alloc: Global,
    part: &(Period, u32),
    pieces: &[Piece],
    branch: u32,
    atom: u32,
    into: &mut Vec<Explained>,
) -> Result<(), NoMemory>
    ensures { OnOk result (all_explained into.new.items ≡ all_explained into.old.items
        ++ map (explained_in branch atom part.now) (shown_pieces pieces.now)) }
{
    for piece in pieces {
        let copy = piece.copy(alloc)?;
        into.push(explained_in(part, copy, branch, atom))?;
    }
    Ok(())
}

// Puts what is planned for an item of a branch after the others.
fn push_plan(
    alloc: Global,
    plan: &[PartPieces],
    branch: u32,
    atom: u32,
    into: &mut Vec<Explained>,
) -> Result<(), NoMemory>
    ensures { OnOk result (all_explained into.new.items ≡ all_explained into.old.items
        ++ planned_pieces branch atom plan.now) }
{
    for own in plan {
        push_pieces(alloc, &own.part, &own.pieces, branch, atom, into)?;
    }
    Ok(())
}

// Puts the pieces of an item's table after the others.
fn explain_item<R: Rule>(
    alloc: Global,
    groups: &Groups,
    book: &RuleBook<R>,
    route: &Route,
    table: &Name,
    references: &[&ColRef],
    cond: &Cond,
    place: u32,
    branch: u32,
    atom: u32,
    into: &mut Vec<Explained>,
) -> Result<(), NoMemory>
    requires represents { (past : Past) × Represents groups.now past }
    requires route { IsRoute (versions_in groups.now) route.now }
    requires read { MayBeRead (versions_in groups.now) route.now table.now
        (own_read place (borrowed references.now) (test cond.now)) }
    ensures { (before : List PlainExplained) → AreLeft (versions_in groups.now) before
        (all_explained into.old.items)
        → OnOk result (AreLeft (versions_in groups.now)
        (before ++ table_pieces (book_meaning R.Rule book.now)
        (versions_in groups.now) route.now.asked table.now
        (own_read place (borrowed references.now) (test cond.now)) branch atom
        route.now.parts.items) (all_explained into.new.items)) }
{
    let question = question_of(alloc, references, cond, place)?;
    let plan = table_pieces(alloc, groups, book, route, table, &question)?;
    push_plan(alloc, &plan, branch, atom, into)?;
    Ok(())
}

// Puts the pieces of items' tables after the others.
fn explain_items<R: Rule>(
    alloc: Global,
    groups: &Groups,
    book: &RuleBook<R>,
    route: &Route,
    from: &[(Name, Name)],
    references: &[&ColRef],
    cond: &Cond,
    branch: u32,
    into: &mut Vec<Explained>,
) -> Result<(), NoMemory>
    requires represents { (past : Past) × Represents groups.now past }
    requires route { IsRoute (versions_in groups.now) route.now }
    requires read { MayItems (versions_in groups.now) route.now (borrowed references.now)
        (test cond.now) 0 from.now }
    requires few { length from.now ≤ 8 }
    ensures { (before : List PlainExplained) → AreLeft (versions_in groups.now) before
        (all_explained into.old.items)
        → OnOk result (AreLeft (versions_in groups.now)
        (before ++ items_pieces (book_meaning R.Rule book.now)
        (versions_in groups.now) route.now.asked route.now.parts.items (borrowed references.now)
        (test cond.now) branch 0 from.now) (all_explained into.new.items)) }
{
    let mut place: u32 = 0;
    for item in from {
        let atom = place + 1;
        explain_item(
            alloc, groups, book, route, &item.0, references, cond, place, branch, atom, into,
        )?;
        place = atom;
    }
    Ok(())
}

// Puts the pieces of a branch after the others.
fn explain_branch<R: Rule>(
    alloc: Global,
    groups: &Groups,
    book: &RuleBook<R>,
    route: &Route,
    branch: &Branch,
    number: u32,
    into: &mut Vec<Explained>,
) -> Result<(), NoMemory>
    requires represents { (past : Past) × Represents groups.now past }
    requires route { IsRoute (versions_in groups.now) route.now }
    requires read { MayBranch (versions_in groups.now) route.now (branch_of branch.now) }
    ensures { (before : List PlainExplained) → AreLeft (versions_in groups.now) before
        (all_explained into.old.items)
        → OnOk result (AreLeft (versions_in groups.now)
        (before ++ branch_pieces (book_meaning R.Rule book.now)
        (versions_in groups.now) route.now.asked route.now.parts.items number
        (branch_of branch.now)) (all_explained into.new.items)) }
{
    let mut references = Vec::new(alloc);
    gather_references(&mut references, &branch.outs, &branch.cond)?;
    explain_items(
        alloc,
        groups,
        book,
        route,
        &branch.from,
        &references,
        &branch.cond,
        number,
        into,
    )?;
    Ok(())
}

// The pieces of branches, the first of which is number 1.
fn explain_branches<R: Rule>(
    alloc: Global,
    groups: &Groups,
    book: &RuleBook<R>,
    route: &Route,
    branches: &[Branch],
) -> Result<Vec<Explained>, NoMemory>
    requires represents { (past : Past) × Represents groups.now past }
    requires route { IsRoute (versions_in groups.now) route.now }
    requires read { MayBranches (versions_in groups.now) route.now (branches_of branches.now) }
    requires few { length branches.now ≤ 16 }
    ensures { IfOk result (λ v. AreLeft (versions_in groups.now)
        (branches_pieces (book_meaning R.Rule book.now)
        (versions_in groups.now) route.now.asked route.now.parts.items 1 (branches_of branches.now))
        (all_explained v.items)) }
{
    let mut pieces = Vec::new(alloc);
    let mut number: u32 = 0;
    for branch in branches {
        number += 1;
        explain_branch(alloc, groups, book, route, branch, number, &mut pieces)?;
    }
    Ok(pieces)
}

/// The pieces of a query, just those that `answer` reads: for each branch and item in text order,
/// and for each version that is in force in the slice, those into which what is asked of the item's
/// table unfolds there, but for the dead: over every valid database of the version, and not only
/// the one that is there, they mean what is asked of the table in that database, migrated to the
/// query's version (clause `meant`). The query is one that is not refused, with each reference
/// made one to an atom, and the groups represent the past. The one error is `NoMemory`, where
/// memory runs out.
pub fn explain<R: Rule>(
    alloc: Global,
    groups: &Groups,
    book: &RuleBook<R>,
    query: &Query,
) -> Result<Vec<Explained>, NoMemory>
    requires answerable { IsAnswerable groups.now (query_of query.now) }
    requires there { query.now.version ≤ length groups.now.versions }
    requires lasting { IsLasting query.now.when }
    ensures are { IfOk result (λ v. ArePieces (book_meaning R.Rule book.now)
        (versions_in groups.now) (query_of query.now) (all_explained v.items)) }
    ensures told { IfOk result (λ v. all_explained v.items
        ≡ living_pieces (book_meaning R.Rule book.now)
        (versions_in groups.now) (query_of query.now)) }
    ensures meant { (past : Past) → (asked : PlainQuery) → Represents groups.now past
        → IsQueryAccepted past asked (query_of query.now)
        → IfOk result (λ v. MeanWhatIsAsked past.versions (query_of query.now)
        (all_explained v.items)) }
{
    pieces_mean_what_is_asked();
    book.known();
    let slice = slice(query);
    let route = route_of(alloc, groups, slice, query.version)?;
    let pieces = explain_branches(alloc, groups, book, &route, &query.branches)?;
    Ok(pieces)
}
