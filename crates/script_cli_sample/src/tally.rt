//! What is told of the replies to a sample script.

ghost use Rattle.std.specs.Prelude.{◌≡◌, ◌+◌, ◌-◌, ◌<◌, ◌≤◌, ◌^◌, ◌++◌, ◌∷◌, [], List, ℕ};
ghost use Rattle.std.specs.Prelude.{IfOk, OnOk};
ghost use Rattle.script_cli_sample.specs.Summary as spec;
ghost use Rattle.script_cli_sample.specs.Tallied.{errors_in, ends_in};

use crate::text::{add, add_number, text_of};
use prima_base::NoMemory;
use std::alloc::Global;

/// Of the lines so far, how many are refusals, and those that count answers; and the line that is
/// not ended.
#[derive(Drop)]
pub(crate) struct Tally {
    line: Vec<u8>,
    errors: u64,
    ends: Vec<u8>,
}

impl Tally {
    // Takes the line in, which has ended. Each refusal has a byte of its own in the text, so that
    // there are never more than a number can count.
    fn end_line(&mut self) -> Result<(), NoMemory>
        requires { self.old.errors < 2 ^ 64 - 1 }
        ensures errors { OnOk result (self.new.errors
            ≡ self.old.errors + spec.error_count (self.old.line.items ∷ [])) }
        ensures ends { OnOk result (self.new.ends.items ≡ self.old.ends.items
            ++ spec.end_lines (self.old.line.items ∷ [])) }
        ensures line { OnOk result (self.new.line.items ≡ []) }
        ensures few { OnOk result (self.new.errors ≤ self.old.errors + 1) }
    {
        if self.line.starts_with(b"error ") {
            self.errors += 1;
        }
        if self.line.starts_with(b"end ") {
            add(&mut self.ends, &self.line)?;
        }
        self.line.clear();
        Ok(())
    }

    // Takes one more byte in.
    #[tactic(auto, using(crate::proofs::Lines::errors_more, crate::proofs::Lines::ends_more))]
    fn take_byte(&mut self, byte: u8) -> Result<(), NoMemory>
        requires { self.old.errors < 2 ^ 64 - 1 }
        ensures errors { (rest : List ℕ) → OnOk result
            (errors_in self.old (byte ∷ rest) ≡ errors_in self.new rest) }
        ensures ends { (rest : List ℕ) → OnOk result
            (ends_in self.old (byte ∷ rest) ≡ ends_in self.new rest) }
        ensures few { OnOk result (self.new.errors ≤ self.old.errors + 1) }
    {
        add(&mut self.line, &[byte])?;
        if byte == b'\n' {
            self.end_line()?;
        }
        Ok(())
    }
}

// Of the lines of a text.
fn tally_of(alloc: Global, replies: &[u8]) -> Result<Tally, NoMemory>
    ensures errors { IfOk result (λ it. it.errors ≡ spec.error_count (spec.lines replies.now)) }
    ensures ends { IfOk result (λ it. it.ends.items ≡ spec.end_lines (spec.lines replies.now)) }
{
    let mut tally = Tally {
        line: Vec::new(alloc),
        errors: 0,
        ends: Vec::new(alloc),
    };
    for byte in replies {
        tally.take_byte(*byte)?;
    }
    Ok(tally)
}

/// The summary of a sample: its size, the number of the commands of the history after it, the
/// number of the refusals among the replies, and the lines of the replies that count answers. The
/// one error is `NoMemory`, where memory runs out.
pub fn summary(alloc: Global, size: u32, commands: u64, replies: &[u8]) -> Result<Vec<u8>, NoMemory>
    ensures { IfOk result (λ t. t.items ≡ spec.summary size commands replies.now) }
{
    let tally = tally_of(alloc, replies)?;
    let mut text = text_of(alloc, b"sample ")?;
    add_number(&mut text, size as u64)?;
    add(&mut text, b"\ncommands ")?;
    add_number(&mut text, commands)?;
    add(&mut text, b"\nerrors ")?;
    add_number(&mut text, tally.errors)?;
    add(&mut text, b"\n")?;
    add(&mut text, &tally.ends)?;
    Ok(text)
}
