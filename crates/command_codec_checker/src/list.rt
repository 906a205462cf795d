//! Lists, with their count before them.

ghost use Rattle.std.specs.Prelude.{◌≤◌};
ghost use Rattle.command_codec_spec.specs.Reading.{list_parser};
ghost use Rattle.command_codec.specs.Reads.{Recognizes};
ghost use Rattle.command_codec_checker.specs.Productions.{Production};

use command_codec::{Reader, Unexpected};

/// What lists have, one after the other.
pub(crate) trait Listed {
    /// How one is spelled.
    ghost production: { Self → Production };

    /// Goes over one.
    fn check(&self, reader: &mut Reader<'_>) -> Result<(), Unexpected>
        ensures { Recognizes ((production self.now).parser reader.old.rest.now) result
            reader.new.rest.now };
}

/// Goes over a list, with its count before it: a number of so many bytes, at most `most`.
pub(crate) fn check_list<T: Listed>(
    item: &T,
    reader: &mut Reader<'_>,
    width: u32,
    most: u64,
) -> Result<(), Unexpected>
    requires { width ≤ 8 }
    ensures { Recognizes (list_parser width most (T.production item.now).parser
        reader.old.rest.now) result reader.new.rest.now }
{
    let count = reader.number(width, most)?;
    for _ in 0..count {
        item.check(reader)?;
    }
    Ok(())
}
