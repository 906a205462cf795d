//! Reading a whole image.

ghost use Rattle.std.specs.Prelude.{◌≡◌, ◌+◌, ◌<◌, ◌^◌, ℕ, [], List, All, length, IfOk, Err};
ghost use Rattle.smo_ops_types.specs.Commands.{versions_of};
ghost use Rattle.smo_ops_versions_spec.specs.Lifelines.{lifelines_of};
ghost use Rattle.command_codec_spec.specs.Reading.{Parsed, Unexpected};
ghost use Rattle.command_codec.specs.Reads.{Reads};
ghost use Rattle.store_image_spec.specs.Reader as spec;
ghost use Rattle.store_image_breaks_spec.specs.Breaks.{Breaks};
ghost use Rattle.store_image_reader.specs.Seen.{image_seen, lines_seen};
ghost use Rattle.store_image_reader.specs.Ordered.{IsOrdered};
ghost use Rattle.store_image_reader.specs.declared.fault.ImageFault.TheVariants as fault;

use crate::ImageFault;
use crate::due::due_lines;
use crate::line::{ReadLine, all_lines};
use crate::stamp::last_stamp;
use crate::version::all_versions;
use command_codec::{ReadStop, Reader};
use smo_ops_types::Versions;
use std::alloc::Global;
use store_image_breaks_spec::bytes_break_behind_the_items_of_an_image;
use store_image_spec::{an_image_is_what_is_read, bytes_are_an_image_or_break};

/// What an image has: the stamp of the last accepted command, the versions, and what is kept over
/// each of their lifelines, by first version and then name (`due_lines`).
#[derive(Drop)]
pub struct ReadImage<'a> {
    pub last: Option<u64>,
    pub versions: Versions,
    pub lines: Vec<ReadLine<'a>>,
}

// What is kept over each lifeline of the versions.
fn lines_of<'a>(
    alloc: Global,
    reader: &mut Reader<'a>,
    last: Option<u64>,
    versions: &Versions,
) -> Result<Vec<ReadLine<'a>>, ReadStop>
    requires { length versions.now.list.items < 2 ^ 32 }
    ensures lines { Reads (λ v. lines_seen (lifelines_of (versions_of versions.now)) v.items)
        (spec.all_lines last (lifelines_of (versions_of versions.now)) reader.old.rest.now) result
        reader.new.rest.now }
    ensures order { IfOk result (λ v. All IsOrdered v.items) }
{
    let due = due_lines(alloc, versions)?;
    all_lines(alloc, reader, last, &due)
}

// An image, which is all of the bytes.
#[tactic(auto, unfolding(store_image_spec::specs::Reader::image))]
fn image<'a>(alloc: Global, reader: &mut Reader<'a>) -> Result<ReadImage<'a>, ReadStop>
    ensures image { Reads image_seen (spec.image reader.old.rest.now) result reader.new.rest.now }
    ensures order { IfOk result (λ it. All IsOrdered it.lines.items) }
{
    let last = last_stamp(reader)?;
    let versions = all_versions(alloc, reader, last)?;
    let lines = lines_of(alloc, reader, last, &versions)?;
    if reader.rest.is_empty() {
        return Ok(ReadImage {
            last,
            versions,
            lines,
        });
    }
    Err(ReadStop::Unexpected)
}

/// What the image has that is all of these bytes. `BadAt` comes exactly where they are no image,
/// with the place at which they break: behind the items that some image has, or at a lifeline that
/// shows one row twice. `NoMemory` comes where memory runs out.
pub fn read(alloc: Global, bytes: &[u8]) -> Result<ReadImage<'_>, ImageFault>
    ensures image { IfOk result (λ it. spec.image bytes.now ≡ Parsed (image_seen it) []) }
    ensures order { IfOk result (λ it. All IsOrdered it.lines.items) }
    ensures bad { (place : ℕ) → result ≡ Err (fault.BadAt place) → (rest : List ℕ)
        × (spec.image bytes.now ≡ Unexpected rest) × (place + length rest ≡ length bytes.now) }
    ensures breaks { (place : ℕ) → result ≡ Err (fault.BadAt place) → (rest : List ℕ)
        × Breaks bytes.now rest × (place + length rest ≡ length bytes.now) }
{
    let mut reader = Reader { rest: bytes };
    match image(alloc, &mut reader) {
        Ok(image) => {
            an_image_is_what_is_read();
            Ok(image)
        }
        Err(ReadStop::Unexpected) => {
            bytes_are_an_image_or_break();
            bytes_break_behind_the_items_of_an_image();
            Err(ImageFault::BadAt((bytes.len() - reader.rest.len()) as u64))
        }
        Err(ReadStop::NoMemory) => Err(ImageFault::NoMemory),
    }
}
