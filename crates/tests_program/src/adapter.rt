//! The adapters over files of the system.
use cases_player::{ReaderSource, WriterSink};
use prima_base::Failed;
use prima_io::{Sink, Source};
use std::fs;
use std::test::Fail;

#[test]
fn adapters_over_a_file(rt: HostRuntime) -> Result<(), Fail> {
    let file = fs::create(&rt, "adapted.txt")?;
    let mut sink = WriterSink::new(file);
    assert!(rt; sink.put(b"abc") == Ok(3));
    drop(sink);
    let mut source = ReaderSource::new(fs::open(&rt, "adapted.txt")?);
    let mut buffer = [0u8; 8];
    assert!(rt; source.take(&mut buffer) == Ok(3));
    assert!(rt; buffer[..3] == b"abc"[..]);
    assert!(rt; source.take(&mut buffer) == Ok(0));
    // A file that is not open for the call fails it.
    let mut closed = WriterSink::new(fs::open(&rt, "adapted.txt")?);
    assert!(rt; closed.put(b"abc") == Err(Failed));
    let mut unread = ReaderSource::new(fs::create(&rt, "unread.txt")?);
    assert!(rt; unread.take(&mut buffer) == Err(Failed));
    Ok(())
}
