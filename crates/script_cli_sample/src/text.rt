ghost use Rattle.std.specs.Prelude.{◌≡◌, ◌++◌, IfOk, OnOk, codes, decimal};
ghost use Rattle.script_cli_sample.specs.Statements as spec;

use itoa::Buffer;
use prima_base::NoMemory;
use std::alloc::Global;

/// Adds bytes. The one error, here and below, is `NoMemory`, where memory runs out.
pub(crate) fn add(text: &mut Vec<u8>, bytes: &[u8]) -> Result<(), NoMemory>
    ensures { OnOk result (text.new.items ≡ text.old.items ++ bytes.now) }
{
    text.extend_from_slice(bytes)?;
    Ok(())
}

/// Adds a number in decimal digits.
pub(crate) fn add_number(text: &mut Vec<u8>, number: u64) -> Result<(), NoMemory>
    ensures { OnOk result (text.new.items ≡ text.old.items ++ decimal number) }
{
    add(text, Buffer::new().format(number).as_bytes())
}

/// A text of these bytes.
pub(crate) fn text_of(alloc: Global, bytes: &[u8]) -> Result<Vec<u8>, NoMemory>
    ensures { IfOk result (λ t. t.items ≡ bytes.now) }
{
    let mut text = Vec::new(alloc);
    add(&mut text, bytes)?;
    Ok(text)
}

/// The prefix of a command of this moment.
#[tactic(auto, unfolding(crate::specs::Statements::stamp))]
pub(crate) fn stamp(alloc: Global, moment: u64) -> Result<Vec<u8>, NoMemory>
    ensures { IfOk result (λ t. t.items ≡ spec.stamp moment) }
{
    let mut text = text_of(alloc, b"AT ")?;
    add_number(&mut text, moment)?;
    add(&mut text, b" ")?;
    Ok(text)
}

/// The text of a command of this moment that does this.
pub(crate) fn stamped(alloc: Global, moment: u64, does: &[u8]) -> Result<Vec<u8>, NoMemory>
    ensures { IfOk result (λ t. t.items ≡ spec.stamped moment does.now) }
{
    let mut text = stamp(alloc, moment)?;
    add(&mut text, does)?;
    Ok(text)
}
