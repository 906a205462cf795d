//! Stamps, and the last one of an image.

ghost use Rattle.std.specs.Prelude.{◌≡◌};
ghost use Rattle.command_codec_spec.specs.Reading.{by_tag};
ghost use Rattle.command_codec_spec.specs.Reader.{up_to};
ghost use Rattle.command_codec.specs.Reads.{Reads};
ghost use Rattle.store_image_spec.specs.ItemChecks.{is_stamp, is_later, is_end};
ghost use Rattle.store_image_spec.specs.Reader as spec;

use command_codec::{ReadStop, Reader};
use prima_base::FOREVER;

/// Whether the moment is at most the last stamp; where there is none, no moment is.
pub(crate) fn is_stamp(last: Option<u64>, moment: u64) -> bool
    ensures { result ≡ is_stamp last moment }
{
    match last {
        None => false,
        Some(last) => moment <= last,
    }
}

/// Whether the moment is later than the one before; where there is none, each moment is.
pub(crate) fn is_later(before: Option<u64>, moment: u64) -> bool
    ensures { result ≡ is_later before moment }
{
    match before {
        None => true,
        Some(before) => before < moment,
    }
}

/// Whether the moment is `FOREVER`, or at most the last stamp.
pub(crate) fn is_end(last: Option<u64>, moment: u64) -> bool
    ensures { result ≡ is_end last moment }
{
    moment == FOREVER || is_stamp(last, moment)
}

// None with eight zero bytes, or the stamp of a command.
fn stamp_or_none(reader: &mut Reader<'_>) -> Result<Option<u64>, ReadStop>
    ensures { Reads (λ s. s) (by_tag (up_to 1) spec.last_arm reader.old.rest.now) result
        reader.new.rest.now }
{
    match reader.tag(1)? {
        0 => {
            reader.number(8, 0)?;
            Ok(None)
        }
        _ => Ok(Some(reader.number(8, FOREVER - 1)?)),
    }
}

/// The last stamp.
#[tactic(auto, unfolding(store_image_spec::specs::Reader::last_stamp), using(crate::proofs::ItemSteps::item_got, crate::proofs::ItemSteps::item_fails))]
pub(crate) fn last_stamp(reader: &mut Reader<'_>) -> Result<Option<u64>, ReadStop>
    ensures { Reads (λ s. s) (spec.last_stamp reader.old.rest.now) result reader.new.rest.now }
{
    let start = reader.rest;
    match stamp_or_none(reader) {
        Ok(last) => Ok(last),
        Err(stop) => {
            reader.rest = start;
            Err(stop)
        }
    }
}
