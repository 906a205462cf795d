ghost use Rattle.std.specs.Prelude.{◌≡◌, ◌<◌, length, IfOk, IfSome, OnErr};
ghost use Rattle.script_cli_sample.specs.Statements.{sample_lines};
ghost use Rattle.script_cli_sample.specs.Left.{Hands};

use crate::place::{Place, step};
use crate::text::add;
use prima_base::NoMemory;
use std::alloc::Global;
use std::marker::Model;

/// A sample script, from a statement on. A contract sees the lines that are left, each a statement
/// with its `;` and a line feed.
#[derive(Drop)]
pub struct SampleScript {
    size: u32,
    place: Place,
}

impl Model for SampleScript {
    ghost use Rattle.std.specs.Prelude.{ℕ, List, map};
    ghost use Rattle.script_cli_sample.specs.Statements.{line_of};
    ghost use Rattle.script_cli_sample.specs.Left.{left_at};

    ghost Value = { List (List ℕ) };

    ghost view = { λ s. map line_of (left_at s.size s.place) };
}

impl SampleScript {
    /// The whole script of this size, which is the number of its rows.
    pub fn new(size: u32) -> SampleScript
        ensures { result ≡ sample_lines size }
    {
        SampleScript {
            size,
            place: Place::Start,
        }
    }

    /// The next line, which has a byte at least; none at the end. The one error is `NoMemory`,
    /// where memory runs out, and then the line is still the next one.
    pub fn next(&mut self, alloc: Global) -> Result<Option<Vec<u8>>, NoMemory>
        ensures next { IfOk result (λ it. Hands self.old self.new it) }
        ensures some { IfOk result (λ it. IfSome it (λ t. 0 < length t.items)) }
        ensures kept { OnErr result (self.new ≡ self.old) }
    {
        match step(alloc, self.size, self.place)? {
            Some((text, place)) => {
                let mut text = text;
                add(&mut text, b";\n")?;
                self.place = place;
                Ok(Some(text))
            }
            None => Ok(None),
        }
    }
}
