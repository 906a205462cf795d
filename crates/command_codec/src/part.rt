//! Reading one part at a place in bytes.

ghost use Rattle.std.specs.Prelude.{◌≡◌, ◌+◌, ◌≤◌, ℕ, List, length, drop, IfSome};
ghost use Rattle.prima_base.specs.declared.value.Value.{Value as AValue};
ghost use Rattle.smo_ops_types.specs.Operators.{Operator, operator_of};
ghost use Rattle.command_codec_spec.specs.Found.{EncodesName, EncodesValue, EncodesOperator, Part};
ghost use Rattle.command_codec_spec.specs.Found.{IsPart};
ghost use Rattle.command_codec.specs.Answers.{part_of};

use crate::CodecFault;
use crate::field::{name, value};
use crate::operator_reader::op;
use crate::reader::{ReadStop, Reader};
use prima_base::{Name, Value};
use smo_ops_types::Op;
use std::alloc::Global;

// A reader of the bytes from a place on.
fn reader_at(bytes: &[u8], from: usize) -> Reader<'_>
    requires { from ≤ length bytes.now }
    ensures { result.rest.now ≡ drop from bytes.now }
{
    Reader {
        rest: &bytes[from..],
    }
}

/// The name whose spelling begins at `from`, and the place after it. `BadAt` comes where none
/// begins there, and `Rest` never.
pub fn read_name(alloc: Global, bytes: &[u8], from: usize) -> Result<(Name, usize), CodecFault>
    requires { from ≤ length bytes.now }
    // What is answered stands there.
    ensures right { IfSome (part_of (λ n. n) result) (IsPart EncodesName bytes.now from) }
    // What stands there is answered, or memory ran out.
    ensures exact { (part : Part (List ℕ)) → IsPart EncodesName bytes.now from part
        → IfSome (part_of (λ n. n) result) (λ answer. answer ≡ part) }
{
    let mut reader = reader_at(bytes, from);
    match name(alloc, &mut reader) {
        Ok(name) => Ok((name, bytes.len() - reader.rest.len())),
        Err(ReadStop::Unexpected) => Err(CodecFault::BadAt(
            (bytes.len() - reader.rest.len()) as u64,
        )),
        Err(ReadStop::NoMemory) => Err(CodecFault::NoMemory),
    }
}

/// The value whose spelling begins at `from`, and the place after it. `BadAt` comes where none
/// begins there, and `Rest` never.
pub fn read_value(alloc: Global, bytes: &[u8], from: usize) -> Result<(Value, usize), CodecFault>
    requires { from ≤ length bytes.now }
    // What is answered stands there.
    ensures right { IfSome (part_of (λ v. v) result) (IsPart EncodesValue bytes.now from) }
    // What stands there is answered, or memory ran out.
    ensures exact { (part : Part AValue) → IsPart EncodesValue bytes.now from part
        → IfSome (part_of (λ v. v) result) (λ answer. answer ≡ part) }
{
    let mut reader = reader_at(bytes, from);
    match value(alloc, &mut reader) {
        Ok(value) => Ok((value, bytes.len() - reader.rest.len())),
        Err(ReadStop::Unexpected) => Err(CodecFault::BadAt(
            (bytes.len() - reader.rest.len()) as u64,
        )),
        Err(ReadStop::NoMemory) => Err(CodecFault::NoMemory),
    }
}

/// The operator whose spelling begins at `from`, and the place after it. `BadAt` comes where none
/// begins there, and `Rest` never.
pub fn read_op(alloc: Global, bytes: &[u8], from: usize) -> Result<(Op, usize), CodecFault>
    requires { from ≤ length bytes.now }
    // What is answered stands there.
    ensures right { IfSome (part_of operator_of result) (IsPart EncodesOperator bytes.now from) }
    // What stands there is answered, or memory ran out.
    ensures exact { (part : Part Operator) → IsPart EncodesOperator bytes.now from part
        → IfSome (part_of operator_of result) (λ answer. answer ≡ part) }
{
    let mut reader = reader_at(bytes, from);
    match op(alloc, &mut reader) {
        Ok(op) => Ok((op, bytes.len() - reader.rest.len())),
        Err(ReadStop::Unexpected) => Err(CodecFault::BadAt(
            (bytes.len() - reader.rest.len()) as u64,
        )),
        Err(ReadStop::NoMemory) => Err(CodecFault::NoMemory),
    }
}
