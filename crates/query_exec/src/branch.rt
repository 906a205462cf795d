//! Branches of a query, answered over what is read of their items' tables.

ghost use Rattle.std.specs.Prelude.{◌≡◌, ℕ, ◌+◌, ◌≤◌, [], length, true, false, IfOk};
ghost use Rattle.std.specs.List.{flat_map};
ghost use Rattle.relations_spec.specs.Sets.{In, set_of};
ghost use Rattle.relations_spec.specs.Spans.{covers};
ghost use Rattle.prima_base.specs.Order.{row_cmp};
ghost use Rattle.prima_base.specs.Timed.{rows_at};
ghost use Rattle.cond_expr.specs.References.{borrowed};
ghost use Rattle.cond_expr.specs.Seen.{test};
ghost use Rattle.smo_ops_spec.specs.Past.{Past, no_tables, tables_from, tables_of};
ghost use Rattle.smo_ops_versions_spec.specs.Migration.{migrated};
ghost use Rattle.version_groups.specs.Groups.{versions_in};
ghost use Rattle.version_groups.specs.Representation.{Represents};
ghost use Rattle.plain_answers_spec.specs.Branches.{branch_answers, plain};
ghost use Rattle.temporal_lang_types.specs.Branches.{branch_of, branches_of};
ghost use Rattle.rewrite.specs.Books.{book_meaning};
ghost use Rattle.query_exec.specs.Accepted.{MayItems, MayBranch, MayBranches, AreRead};
ghost use Rattle.query_exec.specs.Routes.{IsRoute};
ghost use Rattle.piece_ir.specs.ExplainedPieces.{PlainExplained};
ghost use Rattle.query_exec.specs.QueryPieces.{items_pieces, branch_pieces, branches_pieces};
ghost use Rattle.query_exec.specs.QueryPieces.{alive_of};
ghost use Rattle.join_exec_spec.specs.BorrowedOutputs.{AllStayBorrowed};
ghost use Rattle.join_exec_engine.specs.Atoms.{AtomsBorrow};
ghost use Rattle.query_exec.specs.Borrowed.{BorrowedByBranch, AlwaysBorrowedBy, AllSpare};
ghost use Rattle.query_exec.specs.Reads.{explained_read, reads_of};

use crate::item::read_item;
use crate::piece::put_rows;
use crate::route::Route;
use cond_expr::{ColRef, Cond, gather_references};
use join_exec::join_atoms;
use join_exec_engine::Atom;
use prima_base::{Name, NoMemory, Steps};
use prima_base_rows::TimedRows;
use rewrite_rules_book::{Rule, RuleBook};
use schema_catalog::Schema;
use std::alloc::Global;
use std::sync::ledger::Ledger;
use temporal_lang::Branch;
use version_groups::Groups;

// What is read of each item's table, as the atom that is its place.
fn read_items<'a, L: Ledger, R: Rule>(
    alloc: Global,
    groups: &'a Groups,
    book: &RuleBook<R>,
    route: &Route,
    schema: &Schema,
    from: &[(Name, Name)],
    references: &[&ColRef],
    cond: &Cond,
    steps: &mut Steps<L>,
) -> Result<Vec<Atom<'a>>, NoMemory>
    requires represents { (past : Past) × Represents groups.now past }
    requires route { IsRoute (versions_in groups.now) route.now }
    requires schema { schema.now ≡ tables_from no_tables (versions_in groups.now) route.now.asked }
    requires read { MayItems (versions_in groups.now) route.now (borrowed references.now)
        (test cond.now) 0 from.now }
    requires few { length from.now ≤ 8 }
    ensures atoms { (past : Past) → Represents groups.now past
        → IfOk result (λ atoms. AreRead past route.now (borrowed references.now) (test cond.now) 0
        from.now atoms.items) }
    ensures borrowed { (branch : ℕ) → (by_branch : BorrowedByBranch)
        → AllSpare groups.now by_branch (items_pieces
        (book_meaning R.Rule book.now) (versions_in groups.now)
        route.now.asked route.now.parts.items (borrowed references.now) (test cond.now) branch 0
        from.now)
        → IfOk result (λ atoms. AtomsBorrow (by_branch branch) atoms.items) }
    ensures cost { (branch : ℕ) → steps.new ≤ steps.old + reads_of groups.now (alive_of
        (items_pieces (book_meaning R.Rule book.now) (versions_in groups.now)
        route.now.asked route.now.parts.items (borrowed references.now) (test cond.now) branch 0
        from.now)) }
    ensures least { (branch : ℕ) → (e : PlainExplained) → In e (alive_of
        (items_pieces (book_meaning R.Rule book.now) (versions_in groups.now)
        route.now.asked route.now.parts.items (borrowed references.now) (test cond.now) branch 0
        from.now))
        → IfOk result (λ _. steps.old + explained_read groups.now e ≤ steps.new) }
    ensures rises { steps.old ≤ steps.new }
{
    let mut atoms = Vec::new(alloc);
    let mut place: u32 = 0;
    for item in from {
        let atom = read_item(
            alloc, groups, book, route, schema, place, &item.0, references, cond, steps,
        )?;
        atoms.push(atom)?;
        place += 1;
    }
    Ok(atoms)
}

// What a branch answers at each moment of the slice.
fn answer_branch<'a, L: Ledger, R: Rule>(
    alloc: Global,
    groups: &'a Groups,
    book: &RuleBook<R>,
    route: &Route,
    schema: &Schema,
    branch: &Branch,
    steps: &mut Steps<L>,
) -> Result<TimedRows<'a>, NoMemory>
    requires represents { (past : Past) × Represents groups.now past }
    requires route { IsRoute (versions_in groups.now) route.now }
    requires schema { schema.now ≡ tables_from no_tables (versions_in groups.now) route.now.asked }
    requires read { MayBranch (versions_in groups.now) route.now (branch_of branch.now) }
    ensures rows { (past : Past) → Represents groups.now past → (m : ℕ)
        → covers route.now.slice m ≡ true
        → IfOk result (λ rows. rows_at rows.items m
        ≡ set_of row_cmp (branch_answers (tables_of past route.now.asked)
        (migrated past m route.now.asked) (branch_of branch.now))) }
    ensures inside { (m : ℕ) → covers route.now.slice m ≡ false
        → IfOk result (λ rows. rows_at rows.items m ≡ []) }
    ensures borrowed { (number : ℕ) → (by_branch : BorrowedByBranch)
        → AllSpare groups.now by_branch (branch_pieces
        (book_meaning R.Rule book.now) (versions_in groups.now)
        route.now.asked route.now.parts.items number (branch_of branch.now))
        → IfOk result (λ rows. AllStayBorrowed (by_branch number) (branch_of branch.now).outs
        rows.items) }
    ensures cost { (number : ℕ) → steps.new ≤ steps.old + reads_of groups.now (alive_of
        (branch_pieces (book_meaning R.Rule book.now)
        (versions_in groups.now) route.now.asked route.now.parts.items number
        (branch_of branch.now))) }
    ensures least { (number : ℕ) → (e : PlainExplained) → In e (alive_of
        (branch_pieces (book_meaning R.Rule book.now)
        (versions_in groups.now) route.now.asked route.now.parts.items number
        (branch_of branch.now)))
        → IfOk result (λ _. steps.old + explained_read groups.now e ≤ steps.new) }
    ensures rises { steps.old ≤ steps.new }
{
    let mut references = Vec::new(alloc);
    gather_references(&mut references, &branch.outs, &branch.cond)?;
    let atoms = read_items(
        alloc,
        groups,
        book,
        route,
        schema,
        &branch.from,
        &references,
        &branch.cond,
        steps,
    )?;
    join_atoms(alloc, branch, atoms, route.slice)
}

/// What branches answer at each moment of the slice, all together.
pub(crate) fn answer_branches<'a, L: Ledger, R: Rule>(
    alloc: Global,
    groups: &'a Groups,
    book: &RuleBook<R>,
    route: &Route,
    schema: &Schema,
    branches: &[Branch],
    steps: &mut Steps<L>,
) -> Result<TimedRows<'a>, NoMemory>
    requires represents { (past : Past) × Represents groups.now past }
    requires route { IsRoute (versions_in groups.now) route.now }
    requires schema { schema.now ≡ tables_from no_tables (versions_in groups.now) route.now.asked }
    requires read { MayBranches (versions_in groups.now) route.now (branches_of branches.now) }
    ensures rows { (past : Past) → Represents groups.now past → (m : ℕ)
        → covers route.now.slice m ≡ true
        → IfOk result (λ rows. rows_at rows.items m
        ≡ plain (tables_of past route.now.asked) (branches_of branches.now)
        (migrated past m route.now.asked)) }
    ensures borrowed { (past : Past) → Represents groups.now past → (number : ℕ)
        → (by_branch : BorrowedByBranch) → AllSpare groups.now by_branch
        (branches_pieces (book_meaning R.Rule book.now)
        (versions_in groups.now) route.now.asked route.now.parts.items number
        (branches_of branches.now))
        → IfOk result (λ rows. AlwaysBorrowedBy past route.now.asked by_branch number
        (branches_of branches.now) rows.items) }
    ensures cost { (number : ℕ) → steps.new ≤ steps.old + reads_of groups.now (alive_of
        (branches_pieces (book_meaning R.Rule book.now)
        (versions_in groups.now) route.now.asked route.now.parts.items number
        (branches_of branches.now))) }
    ensures least { (number : ℕ) → (e : PlainExplained) → In e (alive_of
        (branches_pieces (book_meaning R.Rule book.now)
        (versions_in groups.now) route.now.asked route.now.parts.items number
        (branches_of branches.now)))
        → IfOk result (λ _. steps.old + explained_read groups.now e ≤ steps.new) }
    ensures rises { steps.old ≤ steps.new }
{
    let mut rows = TimedRows::new(alloc);
    for branch in branches {
        let news = answer_branch(alloc, groups, book, route, schema, branch, steps)?;
        put_rows(&mut rows, news)?;
    }
    Ok(rows)
}
