ghost use Rattle.std.specs.Prelude.{◌≡◌, ◌-◌, ◌<◌, ◌≤◌, [], length, OnOk, IfErr};
ghost use Rattle.command_codec_spec.specs.Found.{Decoding, IsDecoding};
ghost use Rattle.command_codec_checker.specs.Answers.{answer_to, AreAnswered};
ghost use Rattle.command_codec_checker.specs.declared.fault.CheckFault.TheVariants.{Rest};

use crate::CheckFault;
use crate::command::check_command;
use command_codec::{Reader, Unexpected};

// That nothing is left of the bytes after the command at their prefix.
fn alone(bytes: &[u8], rest: &[u8]) -> Result<(), CheckFault>
    requires { length rest.now ≤ length bytes.now }
    ensures whole { OnOk result (rest.now ≡ []) }
    ensures more { IfErr result (λ e. (0 < length rest.now)
        × (e ≡ Rest (length bytes.now - length rest.now))) }
{
    if rest.is_empty() {
        return Ok(());
    }
    Err(CheckFault::Rest((bytes.len() - rest.len()) as u64))
}

/// Whether the bytes, all of them, are a command's spelling. `BadAt` comes where no prefix of the
/// bytes is one, and `Rest` where a prefix is one and more follows, as from `decode`. It takes no
/// memory, and time in proportion to the bytes.
pub fn check(bytes: &[u8]) -> Result<(), CheckFault>
    // The bytes are what is answered.
    ensures right { AreAnswered bytes.now result }
    // What they are is answered.
    ensures exact { (decoding : Decoding) → IsDecoding bytes.now decoding
        → result ≡ answer_to decoding }
{
    let mut reader = Reader { rest: bytes };
    match check_command(&mut reader) {
        Ok(()) => alone(bytes, reader.rest),
        Err(Unexpected) => Err(CheckFault::BadAt((bytes.len() - reader.rest.len()) as u64)),
    }
}
