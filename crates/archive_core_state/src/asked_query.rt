//! A query, checked, and answered over all of history or told piece by piece.

ghost use Rattle.std.specs.Prelude.{◌≡◌, ◌≤◌, ◌+◌, ◌-◌, List, MatchResult, None, IfOk, slice_get};
ghost use Rattle.smo_ops_types.specs.Operators.{operators_of};
ghost use Rattle.smo_ops_types.specs.Commands.{versions_of};
ghost use Rattle.smo_ops_spec.specs.Past.{Past};
ghost use Rattle.temporal_lang_spec.specs.Accepted.{member_kind, no_way_back, fault_of_query};
ghost use Rattle.temporal_lang_types.specs.Queries.{query_of};
ghost use Rattle.piece_ir.specs.ExplainedPieces.{PlainExplained};
ghost use Rattle.query_exec.specs.Borrowed.{BorrowedByBranch, AreSpared, AreBorrowedBy};
ghost use Rattle.relations_spec.specs.Sets.{In};
ghost use Rattle.query_exec.specs.Reads.{explained_read, reads_of};
ghost use Rattle.version_groups.specs.Representation.{Represents};
ghost use Rattle.query_exec.specs.Books.{book_meaning};
ghost use Rattle.archive_core_state.specs.Asking.{tells_periods, ArePiecesOf, IsAsked, IsExplained};
ghost use Rattle.archive_core_state.specs.Asking.{query_asked, pieces_told, IsKeptOfList};
ghost use Rattle.archive_core_state.specs.Asking.{IsNotRefused};
ghost use Rattle.archive_core_state.specs.Asking.{IsWrong, IsAskedSchema, IsChecked};
ghost use Rattle.archive_core_state.specs.Asking.{IsQueryPrepared};

use crate::AskFault;
use answer_text::Listing;
use coalesce::keep;
use piece_ir::Explained;
use prima_base::{OpKind, Refusal, Steps};
use query_exec::{
    Rule, RuleBook, answer, check_query, check_query_counts, explain, first_loss_in_slice, kind_of,
};
use schema_catalog::Schema;
use smo_ops::{Op, Versions};
use std::alloc::Global;
use std::slice;
use std::sync::ledger::Ledger;
use temporal_lang_types::{Query, When};
use version_groups::Groups;

// The schema of the version that the query names. What there is too much of is refused before it.
fn asked_schema<'a>(groups: &'a Groups, query: &Query) -> Result<&'a Schema, AskFault>
    requires { (past : Past) × Represents groups.now past }
    ensures { (past : Past) → Represents groups.now past
        → MatchResult result (λ schema. IsAskedSchema past (query_of query.now) schema.now)
        (λ fault. IsWrong past (query_of query.now) fault) }
{
    if let Err((what, limit)) = check_query_counts(query) {
        return Err(AskFault::Refused(Refusal::TooMany(what, limit)));
    }
    match groups.schema(query.version) {
        Some(schema) => Ok(schema),
        None => Err(AskFault::Refused(Refusal::NoVersion(query.version, groups.newest()))),
    }
}

// The query with each reference made one to an atom.
fn resolved_query(alloc: Global, schema: &Schema, query: &Query) -> Result<Query, AskFault>
    requires { (past : Past) × IsAskedSchema past (query_of query.now) schema.now }
    ensures { (past : Past) → IsAskedSchema past (query_of query.now) schema.now
        → MatchResult result (λ checked. IsChecked past (query_of query.now) checked)
        (λ fault. IsWrong past (query_of query.now) fault) }
{
    check_query(alloc, schema, query)
}

// The kind of the member with this number, the first of which is 1, of an operator's members.
fn member_kind(ops: &[Op], number: u32) -> OpKind
    ensures { result ≡ member_kind (slice_get (operators_of ops.now) (number - 1)) }
{
    match ops.get((number as usize).saturating_sub(1)) {
        Some(op) => kind_of(op),
        None => OpKind::Nop,
    }
}

// Which version names no inverse, and of what kind the member of its operator is that has no
// derived one.
fn no_way_back(versions: &Versions, loss: (u32, u32)) -> Refusal
    ensures { result ≡ no_way_back (versions_of versions.now) loss }
{
    let kind = match versions.list.get((loss.0 as usize).saturating_sub(1)) {
        Some(version) => member_kind(slice::from_ref(&version.op), loss.1),
        None => OpKind::Nop,
    };
    Refusal::NoInverse(loss.0, kind)
}

// No item of the query is lost at a moment of its slice. It passed all other tests.
fn check_losses(
    alloc: Global,
    groups: &Groups,
    query: &Query,
    checked: &Query,
) -> Result<(), AskFault>
    requires { (past : Past) × Represents groups.now past
        × IsChecked past (query_of query.now) checked.now }
    ensures { (past : Past) → Represents groups.now past
        → IsChecked past (query_of query.now) checked.now
        → MatchResult result (λ u. fault_of_query past (query_of query.now) ≡ None)
        (λ fault. IsWrong past (query_of query.now) fault) }
{
    let loss = first_loss_in_slice(alloc, groups, checked)?;
    match loss {
        None => Ok(()),
        Some(loss) => Err(AskFault::Refused(no_way_back(groups.versions(), loss))),
    }
}

// The query with each reference made one to an atom, where it is not refused.
fn accepted_query(alloc: Global, groups: &Groups, query: &Query) -> Result<Query, AskFault>
    requires { (past : Past) × Represents groups.now past }
    ensures { (past : Past) → Represents groups.now past
        → MatchResult result (λ checked. IsQueryPrepared past (query_of query.now) checked)
        (λ fault. IsWrong past (query_of query.now) fault) }
{
    let schema = asked_schema(groups, query)?;
    let atoms = resolved_query(alloc, schema, query)?;
    check_losses(alloc, groups, query, &atoms)?;
    Ok(atoms)
}

// Whether the periods of the entries are told.
fn tells_periods(when: When) -> bool
    ensures { result ≡ tells_periods when }
{
    match when {
        When::Always => true,
        When::AsOf(_) => false,
        When::During(_, _) => true,
    }
}

/// What the archive's versions and tables answer to a query.
pub(crate) fn ask<'a, L: Ledger, R: Rule>(
    alloc: Global,
    groups: &'a Groups,
    book: &RuleBook<R>,
    query: &Query,
    steps: &mut Steps<L>,
) -> Result<Listing<'a>, AskFault>
    requires represents { (past : Past) × Represents groups.now past }
    ensures asked { (past : Past) → Represents groups.now past
        → IsAsked past (query_of query.now) result }
    ensures listed { (past : Past) → Represents groups.now past
        → IfOk result (λ listing. IsKeptOfList past (query_of query.now) listing) }
    ensures borrowed { (past : Past) → Represents groups.now past → (pieces : List PlainExplained)
        → ArePiecesOf (book_meaning R.Rule book.now) past (query_of query.now) pieces
        → (by_branch : BorrowedByBranch) → AreSpared groups.now by_branch pieces
        → IfOk result (λ listing. AreBorrowedBy past (query_asked past (query_of query.now))
        by_branch
        listing.rows.items) }
    ensures cost { (past : Past) → Represents groups.now past
        → IsNotRefused past (query_of query.now)
        → steps.new ≤ steps.old + reads_of groups.now (pieces_told
        (book_meaning R.Rule book.now) past (query_of query.now)) }
    ensures unread { (past : Past) → Represents groups.now past
        → ¬ IsNotRefused past (query_of query.now) → steps.new ≡ steps.old }
    ensures least { (past : Past) → Represents groups.now past → (e : PlainExplained)
        → In e (pieces_told (book_meaning R.Rule book.now) past
        (query_of query.now))
        → IfOk result (λ _. steps.old + explained_read groups.now e ≤ steps.new) }
    ensures rises { steps.old ≤ steps.new }
{
    let atoms = accepted_query(alloc, groups, query)?;
    let mut rows = answer(alloc, groups, book, &atoms, steps)?;
    keep(&mut rows, &query.keep);
    Ok(Listing {
        rows,
        periods: tells_periods(query.when),
    })
}

/// The pieces of a query, just those that are read to answer it.
pub(crate) fn explain_query<R: Rule>(
    alloc: Global,
    groups: &Groups,
    book: &RuleBook<R>,
    query: &Query,
) -> Result<Vec<Explained>, AskFault>
    requires represents { (past : Past) × Represents groups.now past }
    ensures { (past : Past) → Represents groups.now past
        → IsExplained (book_meaning R.Rule book.now) past (query_of query.now) result }
{
    let atoms = accepted_query(alloc, groups, query)?;
    let pieces = explain(alloc, groups, book, &atoms)?;
    Ok(pieces)
}
