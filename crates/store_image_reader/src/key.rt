//! Reading keys.

ghost use Rattle.std.specs.Prelude.{◌≡◌};
ghost use Rattle.relations_spec.specs.Spans.{span};
ghost use Rattle.command_codec.specs.Reads.{Reads};
ghost use Rattle.store_image_spec.specs.ItemChecks.{is_period};
ghost use Rattle.store_image_spec.specs.Reader as spec;

use crate::count::{count_64, number_64, room_for};
use crate::stamp::{is_end, is_stamp};
use command_codec::{ReadStop, Reader};
use prima_base::Period;
use std::alloc::Global;

// The bytes of a key.
const LEAST_KEY: usize = 16;

/// A start and an end.
#[tactic(auto, unfolding(store_image_spec::specs::Reader::period))]
pub(crate) fn period(reader: &mut Reader<'_>) -> Result<(u64, u64), ReadStop>
    ensures { Reads spec.a_span (spec.period reader.old.rest.now) result reader.new.rest.now }
{
    let start = number_64(reader)?;
    let end = number_64(reader)?;
    Ok((start, end))
}

/// Whether the start is before the end, and neither is later than the last stamp; an end may be
/// `FOREVER`.
pub(crate) fn is_period(last: Option<u64>, start: u64, end: u64) -> bool
    ensures { result ≡ is_period last (span start end) }
{
    start < end && is_stamp(last, start) && is_end(last, end)
}

// A key.
fn key(reader: &mut Reader<'_>, last: Option<u64>) -> Result<Period, ReadStop>
    ensures { Reads (λ p. p) (spec.key last reader.old.rest.now) result reader.new.rest.now }
{
    let first = reader.rest;
    match period(reader) {
        Ok((start, end)) if is_period(last, start, end) => Ok(Period::between(start, end)),
        Ok(_) => {
            reader.rest = first;
            Err(ReadStop::Unexpected)
        }
        Err(stop) => {
            reader.rest = first;
            Err(stop)
        }
    }
}

/// Keys, with their count before them.
pub(crate) fn keys(
    alloc: Global,
    reader: &mut Reader<'_>,
    last: Option<u64>,
) -> Result<Vec<Period>, ReadStop>
    ensures { Reads (λ v. v.items) (spec.keys last reader.old.rest.now) result reader.new.rest.now }
{
    let count = count_64(reader)?;
    let mut list = Vec::with_capacity(alloc, room_for(count, reader, LEAST_KEY))?;
    for _ in 0..count {
        list.push(key(reader, last)?)?;
    }
    Ok(list)
}
