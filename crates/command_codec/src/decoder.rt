ghost use Rattle.std.specs.Prelude.{◌≡◌, ◌-◌, ◌<◌, ◌≤◌, [], length, IfOk, IfErr, IfSome};
ghost use Rattle.command_codec.specs.declared.fault.CodecFault.TheVariants.{Rest};
ghost use Rattle.command_codec_spec.specs.Found.{Decoding, IsDecoding};
ghost use Rattle.command_codec.specs.Answers.{decoding_of};

use crate::CodecFault;
use crate::command_reader::command;
use crate::reader::{ReadStop, Reader};
use smo_ops_types::Command;
use std::alloc::Global;

// The command that was read from the start of the bytes, if nothing is left of them.
fn alone(command: Command, bytes: &[u8], rest: &[u8]) -> Result<Command, CodecFault>
    requires { length rest.now ≤ length bytes.now }
    ensures whole { IfOk result (λ c. (c ≡ command) × (rest.now ≡ [])) }
    ensures more { IfErr result (λ e. (0 < length rest.now)
        × (e ≡ Rest (length bytes.now - length rest.now))) }
{
    if rest.is_empty() {
        return Ok(command);
    }
    drop(command);
    Err(CodecFault::Rest((bytes.len() - rest.len()) as u64))
}

/// The command whose spelling the bytes are, all of them. `BadAt` comes where no prefix of the
/// bytes is a command's spelling, and `Rest` where a prefix is one and more follows.
pub fn decode(alloc: Global, bytes: &[u8]) -> Result<Command, CodecFault>
    // The bytes are what is answered.
    ensures right { IfSome (decoding_of result) (IsDecoding bytes.now) }
    // What they are is answered, or memory ran out.
    ensures exact { (decoding : Decoding) → IsDecoding bytes.now decoding
        → IfSome (decoding_of result) (λ answer. answer ≡ decoding) }
{
    let mut reader = Reader { rest: bytes };
    match command(alloc, &mut reader) {
        Ok(command) => alone(command, bytes, reader.rest),
        Err(ReadStop::Unexpected) => Err(CodecFault::BadAt(
            (bytes.len() - reader.rest.len()) as u64,
        )),
        Err(ReadStop::NoMemory) => Err(CodecFault::NoMemory),
    }
}
