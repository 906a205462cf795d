//! The response to AGGREGATE: what groups of a query's rows have over time.

ghost use Rattle.std.specs.Prelude.{◌≡◌, ◌≤◌, IfOk, OnOk, OnErr, MatchResult};
ghost use Rattle.std.specs.Io.KnownBytes.{Appends};
ghost use Rattle.relations_spec.specs.Spans.{always, forever};
ghost use Rattle.relations_spec.specs.Listing.{IsListing};
ghost use Rattle.prima_base.specs.Faults.{IsTested};
ghost use Rattle.prima_base.specs.Groups.{groups_shown};
ghost use Rattle.prima_base.specs.Order.{row_cmp};
ghost use Rattle.prima_base.specs.Timed.{rows_at, entries_of};
ghost use Rattle.prima_io.specs.Causes.{HasCause};
ghost use Rattle.prima_io.specs.Moves.{AppendsPrefix};
ghost use Rattle.smo_ops_spec.specs.First.{first_refusal};
ghost use Rattle.smo_ops_spec.specs.Past.{Past};
ghost use Rattle.temporal_lang_types.specs.Queries.{query_of, slice_of, IsLasting};
ghost use Rattle.temporal_lang_spec.specs.AggregateFaults.{aggregate_checks};
ghost use Rattle.version_groups.specs.Representation.{Represents};
ghost use Rattle.time_aggregate.specs.Aggregated.{aggregated};
ghost use Rattle.script_cli_vault.specs.ArchiveOnDisk.{RepresentsPast, IsAskedSchema, standing_of};
ghost use Rattle.answer_text.specs.Texts.{aggregates_text};
ghost use Rattle.script_cli_statement.specs.Replies.{Recorded, answered, aggregate_reply};
ghost use Rattle.script_cli_statement.specs.StopReasons.{SaidCounted};
ghost use Rattle.script_cli_statement.specs.declared.reply_kind.ReplyKind.TheVariants as ReplyKind;
ghost use Rattle.script_cli_statement.specs.Responses.{Says};
ghost use Rattle.script_cli_statement.specs.Grouped.{IsListedWhole, IsWrongAggregate, IsUnnamed};

use crate::reply_kind::ReplyKind;
use crate::response::refuse;
use crate::stop_reason::{StopReason, or_write_fault};
use answer_text::{put_aggregate, put_count};
use disk_model::Disk;
use prima_base::{AggRow, NoMemory, Refusal};
use prima_io::{Failed, Sink};
use schema_catalog::Schema;
use script_cli_vault::{Archive, AskFault, Listing, Rule, RuleBook, ask_counted};
use script_parse::{check_aggregate, check_query_counts};
use std::alloc::Global;
use std::marker::Brand;
use std::sync::ledger::Blank;
use temporal_lang_types::{AggItem, Query, slice};
use time_aggregate::aggregate;
use version_groups::Groups;

// Puts the lines of groups, and then how many they are.
fn put_groups<K: Sink>(
    sink: &mut K,
    rows: &[AggRow<'_>],
    periods: bool,
) -> Result<ReplyKind, Failed>
    ensures ok { IfOk result (λ put. put ≡ ReplyKind.NoError) }
    ensures all { OnOk result (Appends (K.written sink.old) (K.written sink.new)
        (aggregates_text periods (groups_shown rows.now))) }
    ensures part { OnErr result (AppendsPrefix (K.written sink.old) (K.written sink.new)
        (aggregates_text periods (groups_shown rows.now))) }
    ensures cause { HasCause (K.faults sink.old) (K.faults sink.new) result }
{
    for row in rows {
        put_aggregate(sink, row, periods)?;
    }
    put_count(sink, rows.len() as u64)?;
    Ok(ReplyKind::NoError)
}

// The schema of the version that a query names. What there is too much of is refused before it.
fn schema_named<'a>(groups: &'a Groups, query: &Query) -> Result<&'a Schema, AskFault>
    ensures { (past : Past) → Represents groups.now past → MatchResult result
        (λ schema. IsAskedSchema past (query_of query.now) schema.now)
        (λ fault. IsUnnamed past (query_of query.now) fault) }
{
    if let Err((what, limit)) = check_query_counts(query) {
        return Err(AskFault::Refused(Refusal::TooMany(what, limit)));
    }
    match groups.schema(query.version) {
        Some(schema) => Ok(schema),
        None => Err(AskFault::Refused(Refusal::NoVersion(query.version, groups.newest()))),
    }
}

// What is wrong with an aggregate comes before the first loss.
fn check_groups(
    alloc: Global,
    groups: &Groups,
    query: &Query,
    items: &[AggItem],
    group: u32,
) -> Result<Query, AskFault>
    ensures tested { (past : Past) → Represents groups.now past → IsTested (first_refusal
        (aggregate_checks past items.now group (query_of query.now))) result }
    ensures lasting { IfOk result (λ checked. IsLasting checked.when) }
    ensures when { IfOk result (λ checked. checked.when ≡ query.now.when) }
{
    match schema_named(groups, query) {
        Ok(schema) => check_aggregate(alloc, schema, query, items, group),
        Err(fault) => Err(fault),
    }
}

// Where the slice of a query ends: by the end of time.
fn slice_end(query: &Query) -> u64
    requires { IsLasting query.now.when }
    ensures { (slice_of query.now.when).end ≤ forever }
{
    slice(query).end()
}

// The listing of the query of an aggregate, or why it is refused.
fn ask_groups<'a, D: Disk, R: Rule>(
    alloc: Global,
    archive: &'a Archive<D>,
    book: &RuleBook<R>,
    query: &Query,
    items: &[AggItem],
    group: u32,
) -> Result<Listing<'a>, AskFault>
    ensures asked { (past : Past) → RepresentsPast (standing_of archive.now) past
        → MatchResult result
        (λ listing. IsListedWhole past (query_of query.now) items.now group listing)
        (λ fault. IsWrongAggregate past (query_of query.now) items.now group fault) }
    ensures lists { IfOk result (λ listing. IsListing row_cmp (rows_at listing.rows.items) always
        (entries_of listing.rows.items)) }
{
    match check_groups(alloc, archive.groups(), query, items, group) {
        Ok(checked) => {
            let _end = slice_end(&checked);
            ask_counted::<D, Brand, R>(archive, book, query, Blank::new(1))
        }
        Err(fault) => Err(fault),
    }
}

// Puts what the aggregates have of the groups of the rows.
fn put_aggregated<K: Sink>(
    alloc: Global,
    sink: &mut K,
    listing: &Listing<'_>,
    items: &[AggItem],
    group: u32,
) -> Result<ReplyKind, StopReason>
    requires { IsListing row_cmp (rows_at listing.now.rows.items) always
        (entries_of listing.now.rows.items) }
    ensures says { (now : Recorded) → Says (answered (aggregates_text listing.now.periods
        (aggregated group items.now (entries_of listing.now.rows.items))) now) result
        (K.written sink.old) (K.written sink.new) }
    ensures counts { SaidCounted result (K.faults sink.old) (K.faults sink.new) }
{
    match aggregate(alloc, &listing.rows, group, items) {
        Ok(rows) => or_write_fault(put_groups(sink, &rows, listing.periods)),
        Err(NoMemory) => Err(StopReason::NoMemory),
    }
}

/// Responds to AGGREGATE.
pub(crate) fn respond_aggregate<K: Sink, D: Disk, R: Rule>(
    alloc: Global,
    archive: &Archive<D>,
    book: &RuleBook<R>,
    sink: &mut K,
    items: &[AggItem],
    group: u32,
    query: &Query,
) -> Result<ReplyKind, StopReason>
    ensures says { (now : Recorded) → RepresentsPast (standing_of archive.now) now.past
        → Says (aggregate_reply items.now group (query_of query.now) now) result
        (K.written sink.old) (K.written sink.new) }
    ensures counts { SaidCounted result (K.faults sink.old) (K.faults sink.new) }
{
    match ask_groups(alloc, archive, book, query, items, group) {
        Ok(listing) => put_aggregated(alloc, sink, &listing, items, group),
        Err(AskFault::Refused(refusal)) => or_write_fault(refuse(sink, &refusal)),
        Err(AskFault::NoMemory) => Err(StopReason::NoMemory),
    }
}
