ghost use Rattle.std.specs.Prelude.{◌≡◌, drop, take, min, Some, None, length, ◌≤◌, ◌<◌, ◌+◌, ◌++◌};
ghost use Rattle.std.specs.Prelude.{vec_len, IsOkAnd};
ghost use Rattle.std.specs.Io.{ReadsAtMost};
ghost use Rattle.std.specs.Io.KnownBytes.{ReadConsumes};
ghost use Rattle.prima_io.specs.Causes.{HasCause};

use crate::{Failed, Sink, Source};

/// A source in memory that never fails: its count of faults is 0 for good. It tells its bytes.
#[derive(Drop)]
pub struct SureSource {
    bytes: Vec<u8>,
    at: usize,
    ghost within: { at ≤ vec_len bytes },
}

impl SureSource {
    ghost use Rattle.prima_io.specs.Memory.{sure_left};

    /// A source that hands out these bytes, as many a call as the caller has room for.
    pub fn new(bytes: Vec<u8>) -> SureSource
        ensures { sure_left result ≡ bytes.items }
    {
        SureSource { bytes, at: 0 }
    }
}

// Moves at most `most` bytes from the place on into the start of `buf`, and says how many.
pub(crate) fn hand_out(bytes: &[u8], at: usize, most: usize, buf: &mut [u8]) -> usize
    requires { at ≤ length bytes.now }
    ensures count { result ≡ min (min most (length buf.old)) (length (drop at bytes.now)) }
    ensures moved { drop at bytes.now ≡ take result buf.new ++ drop (at + result) bytes.now }
    ensures len { length buf.new ≡ length buf.old }
{
    let n = most.min(buf.len()).min(bytes.len() - at);
    buf[..n].copy_from_slice(&bytes[at..at + n]);
    n
}

impl Source for SureSource {
    ghost use Rattle.prima_io.specs.Memory.{sure_left};

    ghost left = { λ s. Some (sure_left s) };

    ghost faults = { λ _. 0 };

    fn take(&mut self, buf: &mut [u8]) -> Result<usize, Failed>
        requires { 0 < length buf.old }
        ensures bound { ReadsAtMost result buf.new }
        ensures bytes { ReadConsumes (Some (sure_left self.old)) (Some (sure_left self.new)) result
            buf.new }
        ensures cause { HasCause 0 0 result }
        ensures count { IsOkAnd result (λ n. n
            ≡ min (length buf.old) (length (sure_left self.old))) }
    {
        let n = hand_out(&self.bytes, self.at, usize::MAX, buf);
        self.at += n;
        Ok(n)
    }
}

/// A sink that takes every byte, keeps none and never fails: its count of faults is 0 for good. It
/// tells no content.
#[derive(Clone, Copy)]
pub struct SureSink;

impl SureSink {
    /// A sink for replies that nobody reads.
    pub fn new() -> SureSink {
        SureSink
    }
}

impl Sink for SureSink {
    ghost use Rattle.std.specs.Prelude.{◌≡◌, None, length, IfOk};
    ghost use Rattle.std.specs.Io.{WritesAtMost};
    ghost use Rattle.std.specs.Io.KnownBytes.{WriteAppends};
    ghost use Rattle.prima_io.specs.Causes.{HasCause};
    ghost use Rattle.prima_io.specs.Moves.{TakesSome};

    ghost written = { λ _. None };

    ghost faults = { λ _. 0 };

    fn put(&mut self, piece: &[u8]) -> Result<usize, Failed>
        ensures bound { WritesAtMost result piece.now }
        ensures some { TakesSome result piece.now }
        ensures bytes { WriteAppends None None result piece.now }
        ensures cause { HasCause 0 0 result }
        ensures whole { IfOk result (λ n. n ≡ length piece.now) }
    {
        Ok(piece.len())
    }
}
