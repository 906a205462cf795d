//! Reading numbers and counts.

ghost use Rattle.std.specs.Prelude.{◌≡◌, ◌<◌, ◌/◌, min, length};
ghost use Rattle.command_codec_spec.specs.Reader as parts;
ghost use Rattle.store_image_spec.specs.Items.{item};
ghost use Rattle.store_image_spec.specs.Reader as spec;
ghost use Rattle.command_codec.specs.Reads.{Reads};

use command_codec::{ReadStop, Reader};

/// A number of eight bytes.
#[tactic(auto, unfolding(command_codec_spec::specs::Reader::number_64))]
pub(crate) fn number_64(reader: &mut Reader<'_>) -> Result<u64, ReadStop>
    ensures { Reads (λ n. n) (parts.number_64 reader.old.rest.now) result reader.new.rest.now }
{
    Ok(reader.number_64()?)
}

// A number of four bytes.
#[tactic(auto, unfolding(store_image_spec::specs::Reader::number_32))]
fn number_32(reader: &mut Reader<'_>) -> Result<u64, ReadStop>
    ensures { Reads (λ n. n) (spec.number_32 reader.old.rest.now) result reader.new.rest.now }
{
    Ok(reader.number(4, 0xFFFF_FFFF)?)
}

/// A count of four bytes.
#[tactic(auto, using(crate::proofs::ItemSteps::item_got, crate::proofs::ItemSteps::item_fails))]
pub(crate) fn count_32(reader: &mut Reader<'_>) -> Result<u64, ReadStop>
    ensures { Reads (λ n. n) (item spec.number_32 reader.old.rest.now) result reader.new.rest.now }
{
    let start = reader.rest;
    match number_32(reader) {
        Ok(count) => Ok(count),
        Err(stop) => {
            reader.rest = start;
            Err(stop)
        }
    }
}

/// A count of eight bytes.
#[tactic(auto, using(crate::proofs::ItemSteps::item_got, crate::proofs::ItemSteps::item_fails))]
pub(crate) fn count_64(reader: &mut Reader<'_>) -> Result<u64, ReadStop>
    ensures { Reads (λ n. n) (item parts.number_64 reader.old.rest.now) result reader.new.rest.now }
{
    let start = reader.rest;
    match number_64(reader) {
        Ok(count) => Ok(count),
        Err(stop) => {
            reader.rest = start;
            Err(stop)
        }
    }
}

/// For how many items there is to be room where so many are announced, each of at least so many
/// bytes: never for more than the bytes that are left can hold.
pub(crate) fn room_for(count: u64, reader: &Reader<'_>, least: usize) -> usize
    requires { 0 < least }
    ensures { result ≡ min count (length reader.now.rest.now / least) }
{
    count.min((reader.rest.len() / least) as u64) as usize
}
