ghost use Rattle.std.specs.Prelude.{ℕ, List, ◌<◌, length};
ghost use Rattle.std.specs.Prelude.{Option};
ghost use Rattle.std.specs.Io.{ReadsAtMost, WritesAtMost};
ghost use Rattle.std.specs.Io.KnownBytes.{ReadConsumes, WriteAppends};
ghost use Rattle.prima_io.specs.Causes.{HasCause};
ghost use Rattle.prima_io.specs.Moves.{TakesSome};

use prima_base::Failed;

/// What bytes are taken from: a file, a terminal, a connection or memory.
pub trait Source {
    // The bytes that it will hand out from here on, where it tells them.
    ghost left: { Self → Option (List ℕ) };

    // How often it has failed. The count never falls; one kept in 64 bits stays at its last value.
    ghost faults: { Self → ℕ };

    /// Moves some of the bytes that are left into the start of `buf`, which has room for one at
    /// least, and answers how many. `Ok(0)` is the end of the input: nothing was left. `Failed`
    /// comes only where the count of faults rose in this call, and what is left is then as it was;
    /// `Ok` only where the count is as it was.
    fn take(&mut self, buf: &mut [u8]) -> Result<usize, Failed>
        requires { 0 < length buf.old }
        ensures bound { ReadsAtMost result buf.new }
        ensures bytes { ReadConsumes (left self.old) (left self.new) result buf.new }
        ensures cause { HasCause (faults self.old) (faults self.new) result };
}

/// What bytes are put into: a file, a terminal, a connection or memory.
pub trait Sink {
    // The bytes that it has been given, where it tells them.
    ghost written: { Self → Option (List ℕ) };

    // How often it has failed. The count never falls; one kept in 64 bits stays at its last value.
    ghost faults: { Self → ℕ };

    /// Appends a prefix of `piece`, and answers how many bytes of it: one at least where `piece` is
    /// not empty. `Failed` comes only where the count of faults rose in this call, and nothing was
    /// then appended; `Ok` only where the count is as it was.
    fn put(&mut self, piece: &[u8]) -> Result<usize, Failed>
        ensures bound { WritesAtMost result piece.now }
        ensures some { TakesSome result piece.now }
        ensures bytes { WriteAppends (written self.old) (written self.new) result piece.now }
        ensures cause { HasCause (faults self.old) (faults self.new) result };
}
