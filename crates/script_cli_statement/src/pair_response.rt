//! The response to PAIRS: the pairs of entries of two answers whose periods are related.

ghost use Rattle.std.specs.Prelude.{◌≡◌, Err, IfOk, OnOk, OnErr, MatchResult};
ghost use Rattle.std.specs.Option.{option_map};
ghost use Rattle.std.specs.Io.KnownBytes.{Appends};
ghost use Rattle.prima_base.specs.Timed.{entries_of};
ghost use Rattle.prima_io.specs.Causes.{HasCause};
ghost use Rattle.prima_io.specs.Moves.{AppendsPrefix};
ghost use Rattle.prima_base.specs.Faults.{IsTested};
ghost use Rattle.smo_ops_spec.specs.Checks.{Fault};
ghost use Rattle.smo_ops_spec.specs.Past.{Past};
ghost use Rattle.temporal_lang_types.specs.Queries.{query_of};
ghost use Rattle.temporal_lang_spec.specs.PairFaults.{behind};
ghost use Rattle.period_join.specs.RelatedEntries.{related_entries};
ghost use Rattle.script_cli_vault.specs.ArchiveOnDisk.{RepresentsPast, IsListed, standing_of};
ghost use Rattle.answer_text.specs.Texts.{pairs_text};
ghost use Rattle.answer_text.specs.declared.listing.Listing.{Listing as OneListing};
ghost use Rattle.script_cli_statement.specs.Replies.{Recorded, pairs_reply};
ghost use Rattle.script_cli_statement.specs.StopReasons.{SaidCounted};
ghost use Rattle.script_cli_statement.specs.declared.reply_kind.ReplyKind.TheVariants as ReplyKind;
ghost use Rattle.script_cli_statement.specs.Responses.{Says};
ghost use Rattle.script_cli_statement.specs.Paired.{AreListed, IsWrongPair};

use crate::reply_kind::ReplyKind;
use crate::response::refuse;
use crate::stop_reason::{StopReason, or_write_fault};
use answer_text::{put_pair, put_pair_count};
use disk_model::Disk;
use period_join::{Pairs, pairs_are_all};
use prima_base_rows::TimedRows;
use prima_io::{Failed, Sink};
use script_cli_vault::{Archive, AskFault, Listing, Rule, RuleBook, ask_counted};
use script_parse::{count_nodes, refusal_behind};
use std::marker::Brand;
use std::sync::ledger::Blank;
use temporal_lang_types::{Query, Relation};

// Puts the lines of all pairs whose periods are related, and then how many they are.
fn put_pairs<'b, 'a, K: Sink>(
    sink: &mut K,
    left: &'b TimedRows<'a>,
    right: &'b TimedRows<'a>,
    relation: Relation,
) -> Result<ReplyKind, Failed>
    ensures ok { IfOk result (λ put. put ≡ ReplyKind.NoError) }
    ensures all { OnOk result (Appends (K.written sink.old) (K.written sink.new)
        (pairs_text (related_entries relation (entries_of left.now.items)
        (entries_of right.now.items)))) }
    ensures part { OnErr result (AppendsPrefix (K.written sink.old) (K.written sink.new)
        (pairs_text (related_entries relation (entries_of left.now.items)
        (entries_of right.now.items)))) }
    ensures cause { HasCause (K.faults sink.old) (K.faults sink.new) result }
{
    pairs_are_all();
    let mut count = 0u128;
    let mut pairs = Pairs::new(left, right, relation);
    'lines: while let Some((i, j)) = pairs.next_pair() {
        put_pair(
            sink,
            left.period(i),
            left.values(i),
            right.period(j),
            right.values(j),
        )?;
        count += 1;
    }
    put_pair_count(sink, count)?;
    Ok(ReplyKind::NoError)
}

// The fault of a query that stands behind so many nodes of its statement.
fn fault_behind(nodes: u64, fault: AskFault) -> AskFault
    ensures { (wrong : Fault) → IsTested {A = OneListing} wrong (Err fault)
        → IsTested {A = OneListing} (option_map (behind nodes) wrong) (Err result) }
{
    match fault {
        AskFault::Refused(refusal) => AskFault::Refused(refusal_behind(nodes, refusal)),
        AskFault::NoMemory => AskFault::NoMemory,
    }
}

// What the archive answers to the query on the right, behind that on the left, which it listed.
fn ask_right<'a, D: Disk, R: Rule>(
    archive: &'a Archive<D>,
    book: &RuleBook<R>,
    left: &Query,
    first: Listing<'a>,
    right: &Query,
) -> Result<(Listing<'a>, Listing<'a>), AskFault>
    ensures { (past : Past) → RepresentsPast (standing_of archive.now) past
        → IsListed past (query_of left.now) first.entry → MatchResult result
        (λ both. AreListed past (query_of left.now) (query_of right.now) both.0 both.1)
        (λ fault. IsWrongPair past (query_of left.now) (query_of right.now) fault) }
{
    match ask_counted::<D, Brand, R>(archive, book, right, Blank::new(1)) {
        Ok(second) => Ok((first, second)),
        Err(fault) => Err(fault_behind(count_nodes(left), fault)),
    }
}

// What the archive answers to both queries. All that is wrong with the one on the left comes before
// what is wrong with the one on the right.
fn ask_both<'a, D: Disk, R: Rule>(
    archive: &'a Archive<D>,
    book: &RuleBook<R>,
    left: &Query,
    right: &Query,
) -> Result<(Listing<'a>, Listing<'a>), AskFault>
    ensures { (past : Past) → RepresentsPast (standing_of archive.now) past → MatchResult result
        (λ both. AreListed past (query_of left.now) (query_of right.now) both.0 both.1)
        (λ fault. IsWrongPair past (query_of left.now) (query_of right.now) fault) }
{
    match ask_counted::<D, Brand, R>(archive, book, left, Blank::new(1)) {
        Ok(first) => ask_right(archive, book, left, first, right),
        Err(fault) => Err(fault),
    }
}

/// Responds to PAIRS.
pub(crate) fn respond_pairs<K: Sink, D: Disk, R: Rule>(
    archive: &Archive<D>,
    book: &RuleBook<R>,
    sink: &mut K,
    left: &Query,
    relation: Relation,
    right: &Query,
) -> Result<ReplyKind, StopReason>
    ensures says { (now : Recorded) → RepresentsPast (standing_of archive.now) now.past
        → Says (pairs_reply (query_of left.now) relation (query_of right.now) now) result
        (K.written sink.old) (K.written sink.new) }
    ensures counts { SaidCounted result (K.faults sink.old) (K.faults sink.new) }
{
    match ask_both(archive, book, left, right) {
        Ok((first, second)) => {
            or_write_fault(put_pairs(sink, &first.rows, &second.rows, relation))
        }
        Err(AskFault::Refused(refusal)) => or_write_fault(refuse(sink, &refusal)),
        Err(AskFault::NoMemory) => Err(StopReason::NoMemory),
    }
}
