ghost use Rattle.std.specs.Prelude.{◌≡◌, take, min, Some, length, ◌≤◌, ◌<◌, ◌↔◌, IsTrue, vec_len};
ghost use Rattle.std.specs.Prelude.{vec_capacity, IsErr, is_ok, [], IfOk, ◌||◌, nat_lt, ◌-◌};
ghost use Rattle.std.specs.Prelude.{if◌then◌else◌};
ghost use Rattle.std.specs.Io.{ReadsAtMost, WritesAtMost};
ghost use Rattle.std.specs.Io.KnownBytes.{ReadConsumes, WriteAppends};
ghost use Rattle.prima_io.specs.Causes.{HasCause, counted};
ghost use Rattle.prima_io.specs.Moves.{TakesSome};
ghost use Rattle.prima_io.specs.Failing.{is_failing as fails};

use crate::sure::hand_out;
use crate::{Failed, Sink, Source};
use prima_base::NoMemory;
use std::alloc::Global;

/// A source in memory that hands out a bounded number of bytes a call and fails at chosen calls, as
/// a device might. It tells its bytes.
#[derive(Drop)]
pub struct MemSource {
    bytes: Vec<u8>,
    at: usize,
    most: usize,
    failing: Vec<u64>,
    calls: u64,
    faults: u64,
    ghost some: { 1 ≤ most },
    ghost within: { at ≤ vec_len bytes },
}

impl MemSource {
    ghost use Rattle.prima_io.specs.Memory.{source_left, source_most, source_failing, source_calls};
    ghost use Rattle.prima_io.specs.Memory.{source_faults};

    /// A source that hands out `bytes`, at most `most` (one at least) a call. It fails exactly at
    /// the calls whose numbers, counted from 0, are in `failing`.
    pub fn new(bytes: Vec<u8>, most: usize, failing: Vec<u64>) -> MemSource
        requires { 1 ≤ most }
        ensures left { source_left result ≡ bytes.items }
        ensures most { source_most result ≡ most }
        ensures failing { source_failing result ≡ failing.items }
        ensures calls { source_calls result ≡ 0 }
        ensures faults { source_faults result ≡ 0 }
    {
        MemSource {
            bytes,
            at: 0,
            most,
            failing,
            calls: 0,
            faults: 0,
        }
    }
}

impl Source for MemSource {
    ghost use Rattle.prima_io.specs.Memory.{source_left, source_most, source_failing, source_calls};
    ghost use Rattle.prima_io.specs.Memory.{source_faults};

    ghost left = { λ s. Some (source_left s) };

    ghost faults = { λ s. source_faults s };

    fn take(&mut self, buf: &mut [u8]) -> Result<usize, Failed>
        requires { 0 < length buf.old }
        ensures bound { ReadsAtMost result buf.new }
        ensures bytes { ReadConsumes (Some (source_left self.old)) (Some (source_left self.new))
            result buf.new }
        ensures cause { HasCause (source_faults self.old) (source_faults self.new) result }
        ensures exact { IsErr result ↔ IsTrue
            (fails (source_failing self.old) (source_calls self.old)) }
        ensures count { IfOk result (λ n. n ≡ min (min (source_most self.old) (length buf.old))
            (length (source_left self.old))) }
        ensures calls { source_calls self.new ≡ counted (source_calls self.old) }
        ensures faults { source_faults self.new
            ≡ (if is_ok result then source_faults self.old else counted (source_faults self.old)) }
        ensures most { source_most self.new ≡ source_most self.old }
        ensures failing { source_failing self.new ≡ source_failing self.old }
    {
        let call = self.calls;
        self.calls = call.saturating_add(1);
        if is_failing(&self.failing, call) {
            self.faults = self.faults.saturating_add(1);
            return Err(Failed);
        }
        let n = hand_out(&self.bytes, self.at, self.most, buf);
        self.at += n;
        Ok(n)
    }
}

/// A sink in memory that keeps what it is given, has a bounded room and fails at chosen calls, as a
/// device might. It tells its bytes.
#[derive(Drop)]
pub struct MemSink {
    bytes: Vec<u8>,
    room: usize,
    failing: Vec<u64>,
    calls: u64,
    faults: u64,
    ghost kept: { vec_len bytes ≤ room },
    ghost reserved: { room ≤ vec_capacity bytes },
}

impl MemSink {
    ghost use Rattle.prima_io.specs.Memory.{sink_written, sink_room, sink_failing, sink_calls};
    ghost use Rattle.prima_io.specs.Memory.{sink_faults};

    /// An empty sink with room for `room` bytes, for which it takes the memory here and now. It
    /// fails exactly at the calls whose numbers, counted from 0, are in `failing`, and at a piece
    /// that is longer than the room that is left; at every other call it takes the whole piece.
    pub fn new(alloc: Global, room: usize, failing: Vec<u64>) -> Result<MemSink, NoMemory>
        ensures written { IfOk result (λ s. sink_written s ≡ []) }
        ensures room { IfOk result (λ s. sink_room s ≡ room) }
        ensures failing { IfOk result (λ s. sink_failing s ≡ failing.items) }
        ensures calls { IfOk result (λ s. sink_calls s ≡ 0) }
        ensures faults { IfOk result (λ s. sink_faults s ≡ 0) }
    {
        Ok(MemSink {
            bytes: Vec::with_capacity(alloc, room)?,
            room,
            failing,
            calls: 0,
            faults: 0,
        })
    }

    /// The bytes that it was given. It takes no memory.
    pub fn written(&self) -> &[u8]
        ensures { result.now ≡ sink_written self.now }
    {
        &self.bytes
    }
}

impl Sink for MemSink {
    ghost use Rattle.prima_io.specs.Memory.{sink_written, sink_room, sink_failing, sink_calls};
    ghost use Rattle.prima_io.specs.Memory.{sink_faults};

    ghost written = { λ s. Some (sink_written s) };

    ghost faults = { λ s. sink_faults s };

    fn put(&mut self, piece: &[u8]) -> Result<usize, Failed>
        ensures bound { WritesAtMost result piece.now }
        ensures some { TakesSome result piece.now }
        ensures bytes { WriteAppends (Some (sink_written self.old)) (Some (sink_written self.new))
            result piece.now }
        ensures cause { HasCause (sink_faults self.old) (sink_faults self.new) result }
        ensures exact { IsErr result ↔ IsTrue (fails (sink_failing self.old) (sink_calls self.old)
            || nat_lt (sink_room self.old - length (sink_written self.old)) (length piece.now)) }
        ensures whole { IfOk result (λ n. n ≡ length piece.now) }
        ensures calls { sink_calls self.new ≡ counted (sink_calls self.old) }
        ensures faults { sink_faults self.new
            ≡ (if is_ok result then sink_faults self.old else counted (sink_faults self.old)) }
        ensures room { sink_room self.new ≡ sink_room self.old }
        ensures failing { sink_failing self.new ≡ sink_failing self.old }
    {
        let call = self.calls;
        self.calls = call.saturating_add(1);
        let fails = is_failing(&self.failing, call) || self.room - self.bytes.len() < piece.len();
        if fails || self.bytes.extend_from_slice(piece).is_err() {
            self.faults = self.faults.saturating_add(1);
            return Err(Failed);
        }
        Ok(piece.len())
    }
}

// The call of this number is to fail.
fn is_failing(failing: &[u64], call: u64) -> bool
    ensures { result ≡ fails failing.now call }
{
    failing.iter().any(|n| *n == call)
}
