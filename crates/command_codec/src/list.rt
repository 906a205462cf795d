//! Lists, with their count before them.

ghost use Rattle.std.specs.Prelude.{◌≤◌, map};
ghost use Rattle.command_codec_spec.specs.Reading.{list_parser};
ghost use Rattle.command_codec.specs.Items.{Item};
ghost use Rattle.command_codec.specs.Reads.{Reads};

use crate::reader::{ReadStop, Reader};
use std::alloc::Global;

/// What lists have, one after the other.
pub(crate) trait Listed: Drop {
    /// How one is spelled.
    ghost item: { Item Self };

    /// Reads one.
    fn read(alloc: Global, reader: &mut Reader<'_>) -> Result<Self, ReadStop>
        ensures { Reads item.view (item.parser reader.old.rest.now) result reader.new.rest.now };
}

/// A list, with its count before it: a number of so many bytes, at most `most`.
pub(crate) fn read_list<T: Listed>(
    alloc: Global,
    reader: &mut Reader<'_>,
    width: u32,
    most: u64,
) -> Result<Vec<T>, ReadStop>
    requires { width ≤ 8 }
    ensures { Reads (λ v. map T.item.view v.items) (list_parser width most T.item.parser
        reader.old.rest.now) result reader.new.rest.now }
{
    let count = reader.number(width, most)?;
    let mut list = Vec::new(alloc);
    for _ in 0..count {
        list.push(T::read(alloc, reader)?)?;
    }
    Ok(list)
}
