//! Reading an image.

ghost use Rattle.std.specs.Prelude.{◌≡◌, ◌+◌, ◌<◌, ◌≤◌, ◌^◌, ℕ, [], List, All, length, map, IfOk};
ghost use Rattle.std.specs.Prelude.{Err};
ghost use Rattle.smo_ops_types.specs.Commands.{versions_of};
ghost use Rattle.command_codec_spec.specs.Reading.{Parsed, Unexpected};
ghost use Rattle.smo_ops_versions_spec.specs.Lifelines.{lifelines_of};
ghost use Rattle.store_image_spec.specs.Images.{Image, IsImage, store_of};
ghost use Rattle.store_image_spec.specs.Reader as spec;
ghost use Rattle.store_image_spec.specs.ShownPast.{image_past};
ghost use Rattle.store_image_breaks_spec.specs.Breaks.{Breaks};
ghost use Rattle.store_image_reader.specs.Seen.{line_seen, stored_seen, lines_seen, image_seen};
ghost use Rattle.store_image_reader.specs.declared.fault.ImageFault.TheVariants as fault;
ghost use Rattle.version_groups.specs.Representation.{Represents};
ghost use Rattle.store_image_reader.specs.Ordered.{IsOrdered};
ghost use Rattle.store_image.specs.ImageIn.{image_in, bare, CanBeMade, CanAllBeMade};

use history_store::StoredTable;
use prima_base::NoMemory;
use smo_ops_types::Versions;
use std::alloc::Global;
use store_image_reader::{DueLine, ImageFault, ReadImage, ReadLine, due_lines, read};
use store_image_spec::an_image_is_what_is_read;
use version_groups::{Groups, restored_groups_represent};

// The table that was kept over a lifeline.
fn restored_table(
    alloc: Global,
    due: &DueLine<'_>,
    line: ReadLine<'_>,
) -> Result<StoredTable, NoMemory>
    requires { CanBeMade (line_seen due.now) line }
    ensures { IfOk result (λ t. bare t ≡ store_of (stored_seen (line_seen due.now) line.entry)) }
{
    let ReadLine { keys, cells, order } = line;
    StoredTable::restore(alloc, due.columns, keys, cells, &order)
}

// The tables that were kept over the lifelines.
fn restored_tables(
    alloc: Global,
    due: &[DueLine<'_>],
    lines: Vec<ReadLine<'_>>,
) -> Result<Vec<StoredTable>, NoMemory>
    requires tables { CanAllBeMade (map line_seen due.now) lines.items }
    requires enough { length due.now ≤ length lines.items }
    ensures { IfOk result (λ v. map bare v.items
        ≡ map store_of (lines_seen (map line_seen due.now) lines.entry.items)) }
{
    let mut tables = Vec::with_capacity(alloc, due.len())?;
    for (kept, line) in lines.into_iter().zip(due) {
        tables.push(restored_table(alloc, line, kept)?)?;
    }
    Ok(tables)
}

// The tables that were kept over the lifelines of the versions.
fn tables_of(
    alloc: Global,
    versions: &Versions,
    lines: Vec<ReadLine<'_>>,
) -> Result<Vec<StoredTable>, NoMemory>
    requires few { length versions.now.list.items < 2 ^ 32 }
    requires tables { CanAllBeMade (lifelines_of (versions_of versions.now)) lines.items }
    requires enough { length (lifelines_of (versions_of versions.now)) ≤ length lines.items }
    ensures { IfOk result (λ v. map bare v.items
        ≡ map store_of (lines_seen (lifelines_of (versions_of versions.now)) lines.entry.items)) }
{
    let due = due_lines(alloc, versions)?;
    restored_tables(alloc, &due, lines)
}

// The groups of an image that was read, and its last stamp.
fn restored(alloc: Global, image: ReadImage<'_>) -> Result<(Groups, Option<u64>), NoMemory>
    requires valid { IsImage (image_seen image) }
    requires order { All IsOrdered image.lines.items }
    ensures image { IfOk result (λ it. image_in it.0 it.1 ≡ image_seen image.entry) }
    ensures represents { (n : ℕ) → IfOk result (λ it.
        Represents it.0 (image_past n (image_seen image.entry))) }
{
    let ReadImage {
        last,
        versions,
        lines,
    } = image;
    let tables = tables_of(alloc, &versions, lines)?;
    let groups = Groups::restore(alloc, versions, tables)?;
    restored_groups_represent(&groups);
    Ok((groups, last))
}

/// The groups and the last stamp of the image that is all of these bytes. The groups' image is just
/// this one, and they represent the past that it shows. `BadAt` comes exactly where the bytes are
/// no image, with the place at which they break: behind the items that some image has, or at a
/// lifeline that shows one row twice. `NoMemory` comes where memory runs out.
pub fn read_image(alloc: Global, bytes: &[u8]) -> Result<(Groups, Option<u64>), ImageFault>
    ensures image { IfOk result (λ it. (i : Image) × (spec.image bytes.now ≡ Parsed i [])
        × IsImage i × (it.1 ≡ i.last) × ((n : ℕ) → Represents it.0 (image_past n i))) }
    ensures same { IfOk result (λ it. spec.image bytes.now ≡ Parsed (image_in it.0 it.1) []) }
    ensures bad { (place : ℕ) → result ≡ Err (fault.BadAt place) → (rest : List ℕ)
        × (spec.image bytes.now ≡ Unexpected rest) × (place + length rest ≡ length bytes.now) }
    ensures breaks { (place : ℕ) → result ≡ Err (fault.BadAt place) → (rest : List ℕ)
        × Breaks bytes.now rest × (place + length rest ≡ length bytes.now) }
{
    let image = match read(alloc, bytes) {
        Ok(image) => image,
        Err(fault) => return Err(fault),
    };
    an_image_is_what_is_read();
    match restored(alloc, image) {
        Ok(groups) => Ok(groups),
        Err(NoMemory) => Err(ImageFault::NoMemory),
    }
}
