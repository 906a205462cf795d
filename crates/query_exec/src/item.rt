//! The table of an item of a FROM, read as an atom of a join.

ghost use Rattle.std.specs.Prelude.{◌≡◌, ℕ, ◌+◌, ◌≤◌, IfOk};
ghost use Rattle.relations_spec.specs.Sets.{In};
ghost use Rattle.cond_expr.specs.References.{borrowed};
ghost use Rattle.cond_expr.specs.Seen.{test};
ghost use Rattle.smo_ops_spec.specs.Effects.{columns_of};
ghost use Rattle.smo_ops_spec.specs.Making.{named};
ghost use Rattle.smo_ops_spec.specs.Past.{Past, no_tables, tables_from};
ghost use Rattle.version_groups.specs.Groups.{versions_in};
ghost use Rattle.version_groups.specs.Representation.{Represents};
ghost use Rattle.cond_expr.specs.AtomColumns.{columns_at};
ghost use Rattle.rewrite.specs.Books.{book_meaning};
ghost use Rattle.query_exec.specs.Accepted.{IsRead};
ghost use Rattle.query_exec.specs.Questions.{own_read};
ghost use Rattle.piece_ir.specs.ExplainedPieces.{PlainExplained};
ghost use Rattle.query_exec.specs.QueryPieces.{table_pieces, alive_of};
ghost use Rattle.join_exec_spec.specs.BorrowedOutputs.{RowsBorrow};
ghost use Rattle.query_exec.specs.Borrowed.{BorrowedByBranch, AllSpare};
ghost use Rattle.query_exec.specs.Routes.{IsRoute, MayBeRead};
ghost use Rattle.query_exec.specs.Reads.{explained_read, reads_of};

use crate::question::question_of;
use crate::route::Route;
use crate::table::read_table;
use cond_expr::{ColRef, Column, Cond, columns_at};
use join_exec_engine::Atom;
use prima_base::{Name, NoMemory, Steps};
use rewrite_rules_book::{Rule, RuleBook};
use schema_catalog::Schema;
use smo_ops_columns::columns_named;
use std::alloc::Global;
use std::sync::ledger::Ledger;
use version_groups::Groups;

// The columns of the table that are named, as those of an atom.
fn named_columns(
    alloc: Global,
    atom: u32,
    schema: &Schema,
    table: &Name,
    names: &[Name],
) -> Result<Vec<Column>, NoMemory>
    ensures { IfOk result (λ v. v.items ≡ columns_at atom
        (named names.now (columns_of schema.now table.now))) }
{
    let Some(found) = schema.table(table) else {
        return Ok(Vec::new(alloc));
    };
    let named = columns_named(alloc, found.columns(), names)?;
    let columns = columns_at(alloc, atom, &named)?;
    Ok(columns)
}

/// What is read of an item's table over the slice, in the columns that are named of it and the rows
/// that meet the condition that is pushed to it, as the atom that is the item's place. The texts of
/// a column that no piece of the item computes are borrowed.
pub(crate) fn read_item<'a, L: Ledger, R: Rule>(
    alloc: Global,
    groups: &'a Groups,
    book: &RuleBook<R>,
    route: &Route,
    schema: &Schema,
    place: u32,
    table: &Name,
    references: &[&ColRef],
    cond: &Cond,
    steps: &mut Steps<L>,
) -> Result<Atom<'a>, NoMemory>
    requires represents { (past : Past) × Represents groups.now past }
    requires route { IsRoute (versions_in groups.now) route.now }
    requires schema { schema.now ≡ tables_from no_tables (versions_in groups.now) route.now.asked }
    requires read { MayBeRead (versions_in groups.now) route.now table.now
        (own_read place (borrowed references.now) (test cond.now)) }
    ensures atom { (past : Past) → Represents groups.now past
        → IfOk result (λ a. IsRead past route.now place table.now
        (own_read place (borrowed references.now) (test cond.now)) a) }
    ensures borrowed { (branch : ℕ) → (by_branch : BorrowedByBranch)
        → AllSpare groups.now by_branch
        (table_pieces (book_meaning R.Rule book.now) (versions_in groups.now)
        route.now.asked table.now (own_read place (borrowed references.now) (test cond.now))
        branch (place + 1) route.now.parts.items)
        → IfOk result (λ a. RowsBorrow (by_branch branch) a.columns.items a.rows.items) }
    ensures cost { (branch : ℕ) → (atom : ℕ) → steps.new ≤ steps.old + reads_of groups.now (alive_of
        (table_pieces (book_meaning R.Rule book.now) (versions_in groups.now)
        route.now.asked table.now (own_read place (borrowed references.now) (test cond.now))
        branch atom route.now.parts.items)) }
    ensures least { (branch : ℕ) → (atom : ℕ) → (e : PlainExplained) → In e (alive_of
        (table_pieces (book_meaning R.Rule book.now) (versions_in groups.now)
        route.now.asked table.now (own_read place (borrowed references.now) (test cond.now))
        branch atom route.now.parts.items))
        → IfOk result (λ _. steps.old + explained_read groups.now e ≤ steps.new) }
    ensures rises { steps.old ≤ steps.new }
{
    book.known();
    let question = question_of(alloc, references, cond, place)?;
    let columns = named_columns(alloc, place, schema, table, &question.names)?;
    let rows = read_table(alloc, groups, book, route, table, &question, steps)?;
    Ok(Atom {
        number: place,
        columns,
        rows,
    })
}
