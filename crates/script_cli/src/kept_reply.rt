//! A sink for replies of which only a summary is told.

ghost use Rattle.std.specs.Prelude.{◌≡◌, [], Some, length, IfOk};
ghost use Rattle.std.specs.Io.{WritesAtMost};
ghost use Rattle.std.specs.Io.KnownBytes.{WriteAppends};
ghost use Rattle.prima_io.specs.Causes.{HasCause};
ghost use Rattle.prima_io.specs.Moves.{TakesSome};

use prima_io::{Failed, Sink};
use std::alloc::Global;

/// A sink that keeps what it is given. It fails only where it finds no memory, and tells its bytes.
#[derive(Drop)]
pub(crate) struct RepliesKept {
    bytes: Vec<u8>,
    faults: u64,
}

impl RepliesKept {
    ghost use Rattle.script_cli.specs.Kept.{kept_by, failures_of};

    /// A sink that was given nothing and has not failed. It takes no memory.
    pub(crate) fn new(alloc: Global) -> RepliesKept
        ensures kept { kept_by result ≡ [] }
        ensures failures { failures_of result ≡ 0 }
    {
        RepliesKept {
            bytes: Vec::new(alloc),
            faults: 0,
        }
    }

    /// The bytes that it was given.
    pub(crate) fn bytes(&self) -> &[u8]
        ensures { result.now ≡ kept_by self.now }
    {
        &self.bytes
    }
}

impl Sink for RepliesKept {
    ghost use Rattle.script_cli.specs.Kept.{kept_by, failures_of};

    ghost written = { λ s. Some (kept_by s) };

    ghost faults = { λ s. failures_of s };

    fn put(&mut self, piece: &[u8]) -> Result<usize, Failed>
        ensures bound { WritesAtMost result piece.now }
        ensures some { TakesSome result piece.now }
        ensures bytes { WriteAppends (Some (kept_by self.old)) (Some (kept_by self.new)) result
            piece.now }
        ensures cause { HasCause (failures_of self.old) (failures_of self.new) result }
        ensures whole { IfOk result (λ n. n ≡ length piece.now) }
    {
        if self.bytes.extend_from_slice(piece).is_err() {
            self.faults = self.faults.saturating_add(1);
            return Err(Failed);
        }
        Ok(piece.len())
    }
}
