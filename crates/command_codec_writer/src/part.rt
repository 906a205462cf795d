//! Writing names, values and numbers.

ghost use Rattle.std.specs.Prelude.{◌≡◌, ◌++◌, ◌∷◌, length, OnOk, OnErr};
ghost use Rattle.prima_base.specs.Bytes.{IsName, IsTxt};
ghost use Rattle.prima_base.specs.Columns.{IsValid};
ghost use Rattle.prima_base.specs.Order.{shown};
ghost use Rattle.prima_base.specs.declared.value.Value.TheVariants.{Int as IntValue};
ghost use Rattle.prima_base.specs.declared.value.Value.TheVariants.{Text as TextValue};
ghost use Rattle.command_codec_spec.specs.Found.{Appends, EncodesName, EncodesValue};
ghost use Rattle.command_codec_spec.specs.Encoding.{number, name_bytes, value_bytes};

use prima_base::{Name, NoMemory, Val, Value};

/// Writes these bytes after what is there, all or none. The one error is `NoMemory`, where memory
/// runs out.
pub fn put(out: &mut Vec<u8>, bytes: &[u8]) -> Result<(), NoMemory>
    ensures ok { OnOk result (out.new.items ≡ out.old.items ++ bytes.now) }
    ensures err { OnErr result (out.new.items ≡ out.old.items) }
{
    out.extend_from_slice(bytes)?;
    Ok(())
}

// Writes bytes in two pieces, all or none.
fn put_both(out: &mut Vec<u8>, head: &[u8], tail: &[u8]) -> Result<(), NoMemory>
    ensures ok { OnOk result (out.new.items ≡ out.old.items ++ (head.now ++ tail.now)) }
    ensures err { OnErr result (out.new.items ≡ out.old.items) }
{
    let start = out.len();
    put(out, head)?;
    let done = put(out, tail);
    if done.is_err() {
        out.truncate(start);
    }
    done
}

/// A number in one byte.
#[tactic(auto, unfolding(command_codec_spec::specs::Encoding::number))]
pub(crate) fn put_u8(out: &mut Vec<u8>, value: u8) -> Result<(), NoMemory>
    ensures ok { OnOk result (out.new.items ≡ out.old.items ++ number 1 value) }
{
    put(out, &value.to_be_bytes())
}

/// A number in two bytes.
#[tactic(auto, unfolding(command_codec_spec::specs::Encoding::number))]
pub(crate) fn put_u16(out: &mut Vec<u8>, value: u16) -> Result<(), NoMemory>
    ensures ok { OnOk result (out.new.items ≡ out.old.items ++ number 2 value) }
{
    put(out, &value.to_be_bytes())
}

/// Writes a number in four bytes, the highest first, after what is there. The one error is
/// `NoMemory`, where memory runs out.
#[tactic(auto, unfolding(command_codec_spec::specs::Encoding::number))]
pub fn put_u32(out: &mut Vec<u8>, value: u32) -> Result<(), NoMemory>
    ensures ok { OnOk result (out.new.items ≡ out.old.items ++ number 4 value) }
{
    put(out, &value.to_be_bytes())
}

/// Writes a number in eight bytes, the highest first, after what is there. The one error is
/// `NoMemory`, where memory runs out.
#[tactic(auto, unfolding(command_codec_spec::specs::Encoding::number))]
pub fn put_u64(out: &mut Vec<u8>, value: u64) -> Result<(), NoMemory>
    ensures ok { OnOk result (out.new.items ≡ out.old.items ++ number 8 value) }
{
    put(out, &value.to_be_bytes())
}

/// Writes the spelling of a name after what is there, all or none. The one error is `NoMemory`,
/// where memory runs out.
pub fn write_name(out: &mut Vec<u8>, name: &Name) -> Result<(), NoMemory>
    ensures ok { OnOk result (out.new.items ≡ out.old.items ++ name_bytes name.now) }
    ensures named { IsName name.now }
    ensures err { OnErr result (out.new.items ≡ out.old.items) }
{
    let bytes = name.bytes();
    put_both(out, &[bytes.len() as u8], bytes)
}

// Writes the spelling of a text of these bytes after what is there.
#[tactic(auto, unfolding(command_codec_spec::specs::Encoding::number))]
fn write_text(out: &mut Vec<u8>, bytes: &[u8]) -> Result<(), NoMemory>
    requires { IsTxt bytes.now }
    ensures ok { OnOk result (out.new.items ≡ out.old.items ++ value_bytes (TextValue bytes.now)) }
    ensures err { OnErr result (out.new.items ≡ out.old.items) }
{
    let [high, low] = (bytes.len() as u16).to_be_bytes();
    put_both(out, &[1, high, low], bytes)
}

// Writes the spelling of a number as a value after what is there.
#[tactic(auto, unfolding(command_codec_spec::specs::Encoding::number))]
fn write_int(out: &mut Vec<u8>, value: i64) -> Result<(), NoMemory>
    ensures ok { OnOk result (out.new.items ≡ out.old.items ++ value_bytes (IntValue value)) }
    ensures err { OnErr result (out.new.items ≡ out.old.items) }
{
    put_both(out, &[0], &value.to_be_bytes())
}

/// Writes the spelling of a value after what is there.
pub(crate) fn write_value(out: &mut Vec<u8>, value: &Value) -> Result<(), NoMemory>
    ensures ok { OnOk result (out.new.items ≡ out.old.items ++ value_bytes value.now) }
    ensures named { IsValid value.now }
    ensures err { OnErr result (out.new.items ≡ out.old.items) }
{
    write_borrowed(out, &value.lend())
}

/// Writes the spelling of a value that is borrowed after what is there, all or none. The one error
/// is `NoMemory`, where memory runs out.
pub fn write_borrowed(out: &mut Vec<u8>, value: &Val<'_>) -> Result<(), NoMemory>
    requires { IsValid (shown value.now) }
    ensures ok { OnOk result (out.new.items ≡ out.old.items ++ value_bytes (shown value.now)) }
    ensures named { IsValid (shown value.now) }
    ensures err { OnErr result (out.new.items ≡ out.old.items) }
{
    match value {
        Val::Int(number) => write_int(out, *number),
        Val::Slice(bytes) => write_text(out, bytes),
        Val::Own(text) => write_text(out, text.bytes()),
    }
}

/// Appends the spelling of a name. The one error is `NoMemory`, where memory runs out; the buffer
/// then holds what it held.
pub fn put_name(buffer: &mut Vec<u8>, name: &Name) -> Result<(), NoMemory>
    ensures ok { OnOk result (Appends EncodesName name.now buffer.old.items buffer.new.items) }
    ensures err { OnErr result (buffer.new.items ≡ buffer.old.items) }
{
    write_name(buffer, name)
}

/// Appends the spelling of a value. The one error is `NoMemory`, where memory runs out; the buffer
/// then holds what it held.
pub fn put_value(buffer: &mut Vec<u8>, value: &Value) -> Result<(), NoMemory>
    ensures ok { OnOk result (Appends EncodesValue value.now buffer.old.items buffer.new.items) }
    ensures err { OnErr result (buffer.new.items ≡ buffer.old.items) }
{
    write_value(buffer, value)
}
