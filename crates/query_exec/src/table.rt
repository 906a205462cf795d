//! A table of the asked version, read over a whole slice.

ghost use Rattle.std.specs.Prelude.{◌≡◌, ℕ, ◌+◌, ◌≤◌, List, true, IfOk, map, length};
ghost use Rattle.relations_spec.specs.Sets.{In};
ghost use Rattle.relations_spec.specs.Spans.{covers};
ghost use Rattle.relations_spec.specs.Listing.{IsListing};
ghost use Rattle.prima_base.specs.Order.{row_cmp};
ghost use Rattle.prima_base.specs.Timed.{entries_of};
ghost use Rattle.prima_base.specs.declared.timed_row.TimedRow.{TimedRow as OneRow};
ghost use Rattle.smo_ops_spec.specs.OneRow.{Relation};
ghost use Rattle.smo_ops_spec.specs.Past.{Past, tables_of, database_at};
ghost use Rattle.version_groups.specs.Groups.{versions_in};
ghost use Rattle.version_groups.specs.Representation.{Represents};
ghost use Rattle.piece_ir_spec.specs.Pieces.{all_mean};
ghost use Rattle.piece_ir_spec.specs.Typed.{AllTyped};
ghost use Rattle.piece_ir.specs.Shown.{shown_pieces};
ghost use Rattle.rewrite.specs.Books.{book_meaning};
ghost use Rattle.query_pieces_spec.specs.Gathering.{IsGathered};
ghost use Rattle.query_exec.specs.Asked.{read_asked};
ghost use Rattle.query_exec.specs.Questions.{table_read};
ghost use Rattle.query_exec.specs.Planned.{ArePlanned, planned_spans};
ghost use Rattle.piece_ir.specs.ExplainedPieces.{PlainExplained};
ghost use Rattle.query_exec.specs.QueryPieces.{table_pieces, IsAlive, alive_of};
ghost use Rattle.cond_expr.specs.declared.expr.Column.{Column as AtomColumn};
ghost use Rattle.join_exec_spec.specs.BorrowedOutputs.{BorrowedValues, RowsBorrow};
ghost use Rattle.query_exec.specs.Borrowed.{IsPlainIn, AllPlainIn};
ghost use Rattle.query_exec.specs.Routes.{IsOwn, IsRoute, MayBeRead};
ghost use Rattle.query_exec.specs.Reads.{part_read, explained_read, reads_of};
ghost use Rattle.query_exec.specs.Totals.{total};
ghost use Rattle.query_exec.specs.declared.part_piece.PartPieces.{PartPieces as OnePart};

use crate::part_piece::PartPieces;
use crate::piece::read_run;
use crate::question::Question;
use crate::route::Route;
use crate::run::run_of;
use crate::walk::pieces_along;
use coalesce::coalesce_in_place;
use prima_base::{Name, NoMemory, Steps};
use prima_base_rows::TimedRows;
use rewrite_rules_book::{Rule, RuleBook};
use std::alloc::Global;
use std::sync::ledger::Ledger;
use version_groups::Groups;

/// The pieces of the table over each version of the slice, in the order of the versions. Each rule
/// of the book is asked once a version and piece.
pub(crate) fn table_pieces<R: Rule>(
    alloc: Global,
    groups: &Groups,
    book: &RuleBook<R>,
    route: &Route,
    table: &Name,
    question: &Question,
) -> Result<Vec<PartPieces>, NoMemory>
    requires represents { (past : Past) × Represents groups.now past }
    requires route { IsRoute (versions_in groups.now) route.now }
    requires read { MayBeRead (versions_in groups.now) route.now table.now (read_asked
        question.now) }
    ensures { IfOk result (λ v. ArePlanned (book_meaning R.Rule book.now)
        (versions_in groups.now) route.now.asked table.now (read_asked question.now)
        route.now.parts.items v.items) }
{
    let mut plan = pieces_along(
        alloc,
        groups,
        book,
        route.asked,
        &route.earlier,
        table,
        question,
    )?;
    plan.reverse();
    let mut later = pieces_along(
        alloc,
        groups,
        book,
        route.asked,
        &route.later,
        table,
        question,
    )?;
    plan.append(&mut later)?;
    Ok(plan)
}

// What pieces mean at the moments of their parts. Parts that may be read as one are.
fn read_parts<'a, L: Ledger>(
    alloc: Global,
    groups: &'a Groups,
    plan: &[PartPieces],
    steps: &mut Steps<L>,
) -> Result<TimedRows<'a>, NoMemory>
    requires ready { (past : Past) × Represents groups.now past
        × ((x : OnePart) → In x plan.now → IsOwn (versions_in groups.now) x.part
        × AllTyped (tables_of past x.part.1) (shown_pieces x.pieces.items)) }
    ensures rows { (past : Past) → Represents groups.now past → (relation : ℕ → Relation)
        → ((x : OnePart) → In x plan.now → (m : ℕ) → covers x.part.0 m ≡ true
        → all_mean (tables_of past x.part.1) (database_at past m) (shown_pieces x.pieces.items)
        ≡ relation m)
        → IfOk result (λ rows. IsGathered relation (planned_spans plan.now) (entries_of
        rows.items)) }
    ensures borrowed { (which : BorrowedValues) → (columns : List AtomColumn)
        → ((x : OnePart) → In x plan.now
        → AllPlainIn groups.now x.part.1 x.part.0 which columns (shown_pieces x.pieces.items))
        → IfOk result (λ rows. RowsBorrow which columns rows.items) }
    ensures cost { steps.new ≤ steps.old + total (part_read groups.now) plan.now }
    ensures least { (x : OnePart) → In x plan.now
        → IfOk result (λ _. steps.old + part_read groups.now x ≤ steps.new) }
    ensures rises { steps.old ≤ steps.new }
{
    let mut rows = TimedRows::new(alloc);
    let mut at: usize = 0;
    'runs: while at < plan.len() {
        let first = &plan[at];
        let (period, more) = run_of(groups, first, &plan[at + 1..]);
        read_run(
            alloc,
            groups,
            (period, first.part.1),
            &first.pieces,
            &mut rows,
            steps,
        )?;
        at += 1 + more;
    }
    Ok(rows)
}

/// What is asked of the table, migrated to the asked version, at each moment of the slice: each row
/// with its longest periods, over the borders of versions too. Its pieces are read, each of them,
/// and nothing else; the texts that are those of a plain column in each of them that answers them
/// are borrowed.
pub(crate) fn read_table<'a, L: Ledger, R: Rule>(
    alloc: Global,
    groups: &'a Groups,
    book: &RuleBook<R>,
    route: &Route,
    table: &Name,
    question: &Question,
    steps: &mut Steps<L>,
) -> Result<TimedRows<'a>, NoMemory>
    requires represents { (past : Past) × Represents groups.now past }
    requires route { IsRoute (versions_in groups.now) route.now }
    requires read { MayBeRead (versions_in groups.now) route.now table.now (read_asked
        question.now) }
    ensures rows { (past : Past) → Represents groups.now past
        → IfOk result (λ rows. IsListing row_cmp
        (table_read past route.now.asked table.now (read_asked question.now)) route.now.slice
        (entries_of rows.items)) }
    ensures borrowed { (branch : ℕ) → (atom : ℕ) → (which : BorrowedValues)
        → (columns : List AtomColumn)
        → ((e : PlainExplained) → IsAlive (versions_in groups.now)
        (table_pieces (book_meaning R.Rule book.now) (versions_in groups.now)
        route.now.asked table.now (read_asked question.now) branch atom route.now.parts.items) e
        → IsPlainIn groups.now which columns e)
        → IfOk result (λ rows. RowsBorrow which columns rows.items) }
    ensures cost { (branch : ℕ) → (atom : ℕ) → steps.new ≤ steps.old + reads_of groups.now (alive_of
        (table_pieces (book_meaning R.Rule book.now) (versions_in groups.now)
        route.now.asked table.now (read_asked question.now) branch atom route.now.parts.items)) }
    ensures least { (branch : ℕ) → (atom : ℕ) → (e : PlainExplained) → In e (alive_of
        (table_pieces (book_meaning R.Rule book.now) (versions_in groups.now)
        route.now.asked table.now (read_asked question.now) branch atom route.now.parts.items))
        → IfOk result (λ _. steps.old + explained_read groups.now e ≤ steps.new) }
    ensures rises { steps.old ≤ steps.new }
{
    book.known();
    let plan = table_pieces(alloc, groups, book, route, table, question)?;
    let mut rows = read_parts(alloc, groups, &plan, steps)?;
    coalesce_in_place(&mut rows, route.slice);
    Ok(rows)
}
