//! Reading names, texts, values, types and signs.

ghost use Rattle.std.specs.Prelude.{◌≡◌, true, IfOk};
ghost use Rattle.prima_base.specs.Bytes.{IsName};
ghost use Rattle.command_codec_spec.specs.Reader as spec;
ghost use Rattle.command_codec.specs.Reads.{Reads, ReadsInPlace};

use crate::reader::{Alphabet, ReadStop, Reader, Unexpected};
use crate::value_reader::borrowed_text;
use cond_expr::CmpOp;
use prima_base::{ColType, Name, Txt, Value};
use std::alloc::Global;

// So many bytes of a name.
fn name_text<'a>(reader: &mut Reader<'a>, count: u8) -> Result<&'a [u8], Unexpected>
    requires { spec.is_name_length count ≡ true }
    ensures { ReadsInPlace (λ s. s.now) (spec.name_text count reader.old.rest.now) result
        reader.new.rest.now }
{
    let start = reader.rest;
    reader.name_start()?;
    reader.run(Alphabet::Named, count as usize - 1)?;
    Ok(&start[..count as usize])
}

/// A name, where it stands in the bytes. It takes no memory.
#[tactic(auto, unfolding(command_codec_spec::specs::Reader::name))]
pub fn borrowed_name<'a>(reader: &mut Reader<'a>) -> Result<&'a [u8], Unexpected>
    ensures reads { ReadsInPlace (λ s. s.now) (spec.name reader.old.rest.now) result
        reader.new.rest.now }
    ensures valid { IfOk result (λ s. IsName s.now) }
{
    let count = reader.name_length()?;
    let bytes = name_text(reader, count)?;
    Ok(bytes)
}

/// A name.
pub fn name(alloc: Global, reader: &mut Reader<'_>) -> Result<Name, ReadStop>
    ensures { Reads (λ n. n) (spec.name reader.old.rest.now) result reader.new.rest.now }
{
    let bytes = borrowed_name(reader)?;
    Ok(Name::of(alloc, bytes)?)
}

// A text.
fn text(alloc: Global, reader: &mut Reader<'_>) -> Result<Txt, ReadStop>
    ensures { Reads (λ t. t) (spec.text reader.old.rest.now) result reader.new.rest.now }
{
    let bytes = borrowed_text(reader)?;
    Ok(Txt::of(alloc, bytes)?)
}

/// A value.
#[tactic(auto, unfolding(command_codec_spec::specs::Reader::value, command_codec_spec::specs::Reader::number_64))]
pub fn value(alloc: Global, reader: &mut Reader<'_>) -> Result<Value, ReadStop>
    ensures { Reads (λ v. v) (spec.value reader.old.rest.now) result reader.new.rest.now }
{
    match reader.tag(1)? {
        0 => Ok(Value::Int(reader.number_64()?.cast_signed())),
        _ => Ok(Value::Text(text(alloc, reader)?)),
    }
}

/// A column's type.
#[tactic(auto, unfolding(command_codec_spec::specs::Reader::column_type))]
pub fn column_type(reader: &mut Reader<'_>) -> Result<ColType, Unexpected>
    ensures { ReadsInPlace (λ k. k) (spec.column_type reader.old.rest.now) result
        reader.new.rest.now }
{
    match reader.tag(1)? {
        0 => Ok(ColType::Int),
        _ => Ok(ColType::Text),
    }
}

/// The sign of a comparison.
#[tactic(auto, unfolding(command_codec_spec::specs::Reader::sign))]
pub fn sign(reader: &mut Reader<'_>) -> Result<CmpOp, Unexpected>
    ensures { ReadsInPlace (λ o. o) (spec.sign reader.old.rest.now) result reader.new.rest.now }
{
    match reader.tag(5)? {
        0 => Ok(CmpOp::Eq),
        1 => Ok(CmpOp::Ne),
        2 => Ok(CmpOp::Lt),
        3 => Ok(CmpOp::Le),
        4 => Ok(CmpOp::Gt),
        _ => Ok(CmpOp::Ge),
    }
}
