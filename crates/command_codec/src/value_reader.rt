//! Reading values whose texts stay where they stand in the bytes.

ghost use Rattle.std.specs.Prelude.{IfOk};
ghost use Rattle.prima_base.specs.Bytes.{IsTxt};
ghost use Rattle.prima_base.specs.Columns.{IsValid};
ghost use Rattle.prima_base.specs.Order.{shown, IsBorrowed};
ghost use Rattle.command_codec_spec.specs.Reader as spec;
ghost use Rattle.command_codec.specs.Reads.{ReadsInPlace};

use crate::reader::{Alphabet, Reader, Unexpected};
use prima_base::Val;
use prima_base::limits::MAX_TEXT;

/// A text, where it stands in the bytes. It takes no memory.
#[tactic(auto, unfolding(command_codec_spec::specs::Reader::text))]
pub fn borrowed_text<'a>(reader: &mut Reader<'a>) -> Result<&'a [u8], Unexpected>
    ensures reads { ReadsInPlace (λ s. s.now) (spec.text reader.old.rest.now) result
        reader.new.rest.now }
    ensures valid { IfOk result (λ s. IsTxt s.now) }
{
    let count = reader.number(2, MAX_TEXT as u64)?;
    let bytes = reader.run(Alphabet::Printed, count as usize)?;
    Ok(bytes)
}

/// A value; a text where it stands in the bytes. It takes no memory.
#[tactic(auto, unfolding(command_codec_spec::specs::Reader::value, command_codec_spec::specs::Reader::number_64))]
pub fn borrowed_value<'a>(reader: &mut Reader<'a>) -> Result<Val<'a>, Unexpected>
    ensures reads { ReadsInPlace shown (spec.value reader.old.rest.now) result reader.new.rest.now }
    ensures valid { IfOk result (λ v. IsValid (shown v)) }
    ensures borrowed { IfOk result IsBorrowed }
{
    match reader.tag(1)? {
        0 => Ok(Val::Int(reader.number_64()?.cast_signed())),
        _ => Ok(Val::Slice(borrowed_text(reader)?)),
    }
}
