//! Sources and sinks that fail at chosen calls.
ghost use Rattle.std.specs.Prelude.{◌<◌, ◌≤◌};

use prima_base::Failed;
use prima_io::{MemSink, MemSource, Sink, Source, SureSink, SureSource, put_all};
use std::alloc::Global;
use std::test::Fail;

// Takes what is left, `room` bytes a call at most, and keeps what each call answered: a number of
// bytes, or 99 for a failure.
fn answers<S: Source>(
    alloc: Global,
    source: &mut S,
    room: usize,
    calls: usize,
    got: &mut Vec<u8>,
) -> Result<Vec<usize>, Fail>
    requires { (0 < room) × (room ≤ 8) }
{
    let mut counts = Vec::new(alloc);
    let mut buffer = [0u8; 8];
    for _ in 0..calls {
        match source.take(&mut buffer[..room]) {
            Ok(count) => {
                counts.push(count)?;
                got.extend_from_slice(&buffer[..count])?;
            }
            Err(Failed) => counts.push(99)?,
        }
    }
    Ok(counts)
}

#[test]
fn a_source_fails_in_mid_stream_and_goes_on(rt: HostRuntime) -> Result<(), Fail> {
    let alloc = rt.alloc();
    let failing = Vec::from_slice(alloc, &[1, 2])?;
    let mut source = MemSource::new(Vec::from_slice(alloc, b"abcdefg")?, 3, failing);
    let mut got = Vec::new(alloc);
    let counts = answers(alloc, &mut source, 8, 6, &mut got)?;
    assert_eq!(rt; counts.as_slice(), [3, 99, 99, 3, 1, 0].as_slice());
    assert_eq!(rt; got.as_slice(), b"abcdefg".as_slice());
    Ok(())
}

#[test]
fn a_sure_source_hands_out_all(rt: HostRuntime) -> Result<(), Fail> {
    let alloc = rt.alloc();
    let mut source = SureSource::new(Vec::from_slice(alloc, b"abcdefghij")?);
    let mut got = Vec::new(alloc);
    let counts = answers(alloc, &mut &mut source, 8, 3, &mut got)?;
    assert_eq!(rt; counts.as_slice(), [8, 2, 0].as_slice());
    assert_eq!(rt; got.as_slice(), b"abcdefghij".as_slice());
    Ok(())
}

#[test]
fn a_sink_has_its_room(rt: HostRuntime) -> Result<(), Fail> {
    let alloc = rt.alloc();
    let mut sink = MemSink::new(alloc, 5, Vec::from_slice(alloc, &[1])?)?;
    assert_eq!(rt; sink.put(b"abc"), Ok(3));
    assert_eq!(rt; sink.put(b"d"), Err(Failed));
    assert_eq!(rt; sink.put(b"def"), Err(Failed));
    assert_eq!(rt; sink.put(b""), Ok(0));
    assert_eq!(rt; sink.put(b"de"), Ok(2));
    assert_eq!(rt; sink.put(b"f"), Err(Failed));
    assert_eq!(rt; sink.written(), b"abcde".as_slice());
    Ok(())
}

// Takes one byte a call.
#[derive(Drop)]
struct Narrow {
    inner: MemSink,
}

impl Sink for Narrow {
    ghost use Rattle.std.specs.Prelude.{Some};
    ghost use Rattle.prima_io.specs.Memory.{sink_written, sink_faults};

    ghost written = { λ s. Some (sink_written s.inner) };

    ghost faults = { λ s. sink_faults s.inner };

    fn put(&mut self, piece: &[u8]) -> Result<usize, Failed> {
        self.inner.put(&piece[..piece.len().min(1)])
    }
}

#[test]
fn all_is_put_byte_by_byte(rt: HostRuntime) -> Result<(), Fail> {
    let alloc = rt.alloc();
    let mut sink = Narrow {
        inner: MemSink::new(alloc, 10, Vec::new(alloc))?,
    };
    assert_eq!(rt; put_all(&mut sink, b"abcdef"), Ok(()));
    assert_eq!(rt; put_all(&mut &mut sink, b"ghij"), Ok(()));
    assert_eq!(rt; put_all(&mut sink, b"k"), Err(Failed));
    assert_eq!(rt; put_all(&mut sink, b""), Ok(()));
    assert_eq!(rt; sink.inner.written(), b"abcdefghij".as_slice());
    Ok(())
}

#[test]
fn a_failure_leaves_a_prefix(rt: HostRuntime) -> Result<(), Fail> {
    let alloc = rt.alloc();
    let mut sink = Narrow {
        inner: MemSink::new(alloc, 100, Vec::from_slice(alloc, &[3])?)?,
    };
    assert_eq!(rt; put_all(&mut sink, b"abcdef"), Err(Failed));
    assert_eq!(rt; sink.inner.written(), b"abc".as_slice());
    assert_eq!(rt; put_all(&mut sink, b"def"), Ok(()));
    assert_eq!(rt; sink.inner.written(), b"abcdef".as_slice());
    Ok(())
}

#[test]
fn a_sure_sink_takes_all(rt: HostRuntime) -> Result<(), Fail> {
    let mut sink = SureSink::new();
    assert_eq!(rt; sink.put(b"abc"), Ok(3));
    assert_eq!(rt; put_all(&mut sink, b"abcdef"), Ok(()));
    Ok(())
}
