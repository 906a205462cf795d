//! Reading versions.

ghost use Rattle.std.specs.Prelude.{◌≡◌, List, length, map, is_none, IfOk};
ghost use Rattle.smo_ops_types.specs.Commands.{version_of, versions_of};
ghost use Rattle.smo_ops_types.specs.Operators.{Operator, operator_of, operators_of};
ghost use Rattle.smo_ops_types.specs.Operators.{evolution_of, evolutions_of};
ghost use Rattle.smo_ops_spec.specs.After.{AllHaveFewNodes};
ghost use Rattle.smo_ops_spec.specs.Evolutions.{schema_after_each};
ghost use Rattle.smo_ops_spec.specs.Inverses.{inverse_fault};
ghost use Rattle.smo_ops_spec.specs.Past.{no_tables, newest_from};
ghost use Rattle.command_codec_spec.specs.Reading.{pair};
ghost use Rattle.command_codec_spec.specs.Reader as parts;
ghost use Rattle.command_codec.specs.Reads.{Reads};
ghost use Rattle.store_image_spec.specs.Reader as spec;
ghost use Rattle.store_image_reader.specs.NextVersion.{newest_stamp, is_in_turn};
ghost use Rattle.store_image_reader.specs.NextVersion.{IsOperatorAccepted};
ghost use Rattle.store_image_reader.specs.NextVersion.{IsAcceptedAfter};

use crate::count::count_32;
use crate::stamp::{is_later, is_stamp};
use command_codec::{ReadStop, Reader, op, ops};
use prima_base::NoMemory;
use prima_base::limits::MAX_VERSIONS;
use schema_catalog::Schema;
use smo_ops::check_evolve;
use smo_ops_operators::{after, check_way_back};
use smo_ops_spec::counted_operators_are_few;
use smo_ops_types::{InverseFault, Op, OpFault, Version, Versions};
use std::alloc::Global;

// A stamp, an operator, and the operators of its inverse.
#[tactic(auto, unfolding(command_codec_spec::specs::Reader::number_64))]
fn evolution(alloc: Global, reader: &mut Reader<'_>) -> Result<(u64, Op, Vec<Op>), ReadStop>
    ensures { Reads (λ x. (x.0, (operator_of x.1, operators_of x.2.items)))
        (pair parts.number_64 (pair parts.operator parts.operators) reader.old.rest.now) result
        reader.new.rest.now }
{
    let stamp = reader.number(8, u64::MAX)?;
    let op = op(alloc, reader)?;
    let inverse = ops(alloc, reader)?;
    Ok((stamp, op, inverse))
}

// Whether the inverse leads back from the schema after an operator to the one before it.
fn leads_back(
    alloc: Global,
    before: &Schema,
    next: &Schema,
    inverse: &[Op],
) -> Result<bool, NoMemory>
    requires { AllHaveFewNodes (evolutions_of inverse.now) }
    ensures { (op : List Operator) → next.now ≡ schema_after_each before.now op
        → IfOk result (λ b. b ≡ is_none (inverse_fault before.now op
        (evolutions_of inverse.now))) }
{
    match check_way_back(alloc, before, next, inverse) {
        Ok(()) => Ok(true),
        Err(InverseFault::Op(_, _)) => Ok(false),
        Err(InverseFault::Misses(_)) => Ok(false),
        Err(InverseFault::NoMemory) => Err(NoMemory),
    }
}

// The schema after the operator, where it is accepted and its inverse leads back; none where not.
fn next_schema(
    alloc: Global,
    schema: &Schema,
    op: &Op,
    inverse: &[Op],
) -> Result<Option<Schema>, NoMemory>
    ensures { IfOk result (IsOperatorAccepted schema.now (evolution_of op.now)
        (evolutions_of inverse.now)) }
{
    match check_evolve(op, inverse) {
        Ok(()) => {}
        Err(_) => return Ok(None),
    }
    counted_operators_are_few();
    let next = match after(alloc, schema, op) {
        Ok(next) => next,
        Err(OpFault::Refused(_)) => return Ok(None),
        Err(OpFault::NoMemory) => return Err(NoMemory),
    };
    if leads_back(alloc, schema, &next, inverse)? {
        Ok(Some(next))
    } else {
        Ok(None)
    }
}

// The stamp of the last of these versions.
fn newest_stamp(versions: &[Version]) -> Option<u64>
    ensures { result ≡ newest_stamp (map version_of versions.now) }
{
    match versions.last() {
        Some(version) => Some(version.stamp),
        None => None,
    }
}

// The schema of the last of these versions.
fn newest_schema<'a>(nothing: &'a Schema, versions: &'a [Version]) -> &'a Schema
    requires { nothing.now ≡ no_tables }
    ensures { result.now ≡ newest_from no_tables (map version_of versions.now) }
{
    match versions.last() {
        Some(version) => &version.schema,
        None => nothing,
    }
}

// Whether so many versions can have one more, and the stamp is later than that of the last of them
// and not later than the last stamp.
fn is_in_turn(last: Option<u64>, versions: &[Version], stamp: u64) -> bool
    ensures { result ≡ is_in_turn last (length versions.now)
        (newest_stamp (map version_of versions.now)) stamp }
{
    is_stamp(last, stamp)
        && versions.len() < MAX_VERSIONS
        && is_later(newest_stamp(versions), stamp)
}

// The version with this stamp and this operator after these, where it is accepted; none where not.
fn accepted(
    alloc: Global,
    last: Option<u64>,
    nothing: &Schema,
    versions: &[Version],
    read: (u64, Op, Vec<Op>),
) -> Result<Option<Version>, NoMemory>
    requires { nothing.now ≡ no_tables }
    ensures { IfOk result (IsAcceptedAfter last (length versions.now)
        (newest_stamp (map version_of versions.now))
        (newest_from no_tables (map version_of versions.now)) read) }
{
    let (stamp, op, inverse) = read;
    if !is_in_turn(last, versions, stamp) {
        return Ok(None);
    }
    match next_schema(alloc, newest_schema(nothing, versions), &op, &inverse)? {
        Some(schema) => Ok(Some(Version {
            stamp,
            op,
            inverse,
            schema,
        })),
        None => Ok(None),
    }
}

// The next version after these.
fn version(
    alloc: Global,
    reader: &mut Reader<'_>,
    last: Option<u64>,
    nothing: &Schema,
    versions: &[Version],
) -> Result<Version, ReadStop>
    requires { nothing.now ≡ no_tables }
    ensures { Reads version_of (spec.version last (length versions.now)
        (newest_stamp (map version_of versions.now))
        (newest_from no_tables (map version_of versions.now)) reader.old.rest.now)
        result reader.new.rest.now }
{
    let first = reader.rest;
    match evolution(alloc, reader) {
        Ok(read) => match accepted(alloc, last, nothing, versions, read)? {
            Some(version) => Ok(version),
            None => {
                reader.rest = first;
                Err(ReadStop::Unexpected)
            }
        },
        Err(stop) => {
            reader.rest = first;
            Err(stop)
        }
    }
}

/// The versions, with their count before them.
pub(crate) fn all_versions(
    alloc: Global,
    reader: &mut Reader<'_>,
    last: Option<u64>,
) -> Result<Versions, ReadStop>
    ensures { Reads versions_of (spec.all_versions last reader.old.rest.now) result
        reader.new.rest.now }
{
    let count = count_32(reader)?;
    let nothing = Schema::empty(alloc);
    let mut list = Vec::new(alloc);
    for _ in 0..count {
        let version = version(alloc, reader, last, &nothing, &list)?;
        list.push(version)?;
    }
    Ok(Versions { list })
}
