//! Names, values, types and signs.

ghost use Rattle.command_codec_spec.specs.Reader as spec;
ghost use Rattle.command_codec.specs.Reads.{Recognizes};

use command_codec::{Reader, Unexpected, borrowed_name, borrowed_value, column_type, sign};

/// Goes over a name.
pub(crate) fn check_name(reader: &mut Reader<'_>) -> Result<(), Unexpected>
    ensures { Recognizes (spec.name reader.old.rest.now) result reader.new.rest.now }
{
    borrowed_name(reader)?;
    Ok(())
}

/// Goes over a value.
pub(crate) fn check_value(reader: &mut Reader<'_>) -> Result<(), Unexpected>
    ensures { Recognizes (spec.value reader.old.rest.now) result reader.new.rest.now }
{
    borrowed_value(reader)?;
    Ok(())
}

/// Goes over a column's type.
pub(crate) fn check_column_type(reader: &mut Reader<'_>) -> Result<(), Unexpected>
    ensures { Recognizes (spec.column_type reader.old.rest.now) result reader.new.rest.now }
{
    column_type(reader)?;
    Ok(())
}

/// Goes over the sign of a comparison.
pub(crate) fn check_sign(reader: &mut Reader<'_>) -> Result<(), Unexpected>
    ensures { Recognizes (spec.sign reader.old.rest.now) result reader.new.rest.now }
{
    sign(reader)?;
    Ok(())
}
