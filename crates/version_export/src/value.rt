//! The text of a value, as a statement has it.

ghost use Rattle.std.specs.Prelude.{◌≡◌, ◌++◌, ◌∷◌, [], ◌==◌, codes, if◌then◌else◌, OnOk};
ghost use Rattle.prima_base.specs.Order.{shown};
ghost use Rattle.smo_parse.specs.TreeTexts.{doubled, value_text};

use itoa::Buffer;
use prima_base::{NoMemory, Val};
use smo_parse::put;

// A byte of a text; a quote is doubled.
fn put_byte(out: &mut Vec<u8>, byte: u8) -> Result<(), NoMemory>
    ensures { OnOk result (out.new.items ≡ out.old.items
        ++ (if byte == 39 then 39 ∷ 39 ∷ [] else byte ∷ [])) }
{
    if byte == b'\'' {
        return put(out, b"''");
    }
    out.push(byte)?;
    Ok(())
}

// The bytes of a text with each quote doubled.
fn put_doubled(out: &mut Vec<u8>, bytes: &[u8]) -> Result<(), NoMemory>
    ensures { OnOk result (out.new.items ≡ out.old.items ++ doubled bytes.now) }
{
    for byte in bytes {
        put_byte(out, *byte)?;
    }
    Ok(())
}

// A text in quotes.
fn write_text(out: &mut Vec<u8>, bytes: &[u8]) -> Result<(), NoMemory>
    ensures { OnOk result (out.new.items ≡ out.old.items
        ++ (codes "'" ++ doubled bytes.now ++ codes "'")) }
{
    put(out, b"'")?;
    put_doubled(out, bytes)?;
    put(out, b"'")
}

/// Writes a number, or a text in quotes, after what is there.
pub(crate) fn write_val(out: &mut Vec<u8>, value: &Val<'_>) -> Result<(), NoMemory>
    ensures { OnOk result (out.new.items ≡ out.old.items ++ value_text (shown value.now)) }
{
    match value {
        Val::Int(number) => put(out, Buffer::new().format(*number).as_bytes()),
        Val::Slice(bytes) => write_text(out, bytes),
        Val::Own(text) => write_text(out, text.bytes()),
    }
}
