//! The program's edge: a source over a reader of the system, and a sink over a writer. They tell
//! what the reader and the writer tell, which for a file or a terminal is nothing.

ghost use Rattle.std.specs.Prelude.{◌≡◌, length};
ghost use Rattle.std.specs.Io.{ReadsAtMost, WritesAtMost};
ghost use Rattle.std.specs.Io.KnownBytes.{ReadConsumes, WriteAppends};

use prima_base::Failed;
use prima_io::{Sink, Source};
use std::io;
use std::io::{ErrorKind, Read, Write};

// Reads as the reader does. A read that a signal interrupted has moved no byte, and is tried again.
fn read_uninterrupted<R: Read>(reader: &mut R, buf: &mut [u8]) -> io::Result<usize>
    ensures bound { ReadsAtMost result buf.new }
    ensures bytes { ReadConsumes (R.remaining reader.old) (R.remaining reader.new) result buf.new }
    ensures len { length buf.new ≡ length buf.old }
{
    'tries: for _ in 0..u64::MAX {
        match reader.read(buf) {
            Err(error) if error.kind() == ErrorKind::Interrupted => {}
            answer => return answer,
        }
    }
    Err(io::Error::from(ErrorKind::Interrupted))
}

// Writes as the writer does. A write that a signal interrupted has taken no byte, and is tried
// again.
fn write_uninterrupted<W: Write>(writer: &mut W, piece: &[u8]) -> io::Result<usize>
    ensures bound { WritesAtMost result piece.now }
    ensures bytes { WriteAppends (W.contents writer.old) (W.contents writer.new) result piece.now }
{
    'tries: for _ in 0..u64::MAX {
        match writer.write(piece) {
            Err(error) if error.kind() == ErrorKind::Interrupted => {}
            answer => return answer,
        }
    }
    Err(io::Error::from(ErrorKind::Interrupted))
}

/// A source over a reader. Each error of the reader counts as a fault, except that a read which a
/// signal interrupts is tried again.
#[derive(Drop)]
pub struct ReaderSource<R: Read + Drop> {
    reader: R,
    faults: u64,
}

impl<R: Read + Drop> ReaderSource<R> {
    /// A source that has not failed. What is left in it is what is left in the reader.
    pub fn new(reader: R) -> ReaderSource<R>
        ensures left { R.remaining result.reader ≡ R.remaining reader }
        ensures faults { result.faults ≡ 0 }
    {
        ReaderSource { reader, faults: 0 }
    }
}

impl<R: Read + Drop> Source for ReaderSource<R> {
    ghost left = { λ s. R.remaining s.reader };

    ghost faults = { λ s. s.faults };

    fn take(&mut self, buf: &mut [u8]) -> Result<usize, Failed> {
        match read_uninterrupted(&mut self.reader, buf) {
            Ok(count) => Ok(count),
            Err(_) => {
                self.faults = self.faults.saturating_add(1);
                Err(Failed)
            }
        }
    }
}

/// A sink over a writer. Each error of the writer counts as a fault, except that a write which a
/// signal interrupts is tried again; and so does a writer that takes nothing of a piece that is not
/// empty.
#[derive(Drop)]
pub struct WriterSink<W: Write + Drop> {
    writer: W,
    faults: u64,
}

impl<W: Write + Drop> WriterSink<W> {
    /// A sink that has not failed. It has been given what the writer has been given.
    pub fn new(writer: W) -> WriterSink<W>
        ensures written { W.contents result.writer ≡ W.contents writer }
        ensures faults { result.faults ≡ 0 }
    {
        WriterSink { writer, faults: 0 }
    }
}

impl<W: Write + Drop> Sink for WriterSink<W> {
    ghost written = { λ s. W.contents s.writer };

    ghost faults = { λ s. s.faults };

    fn put(&mut self, piece: &[u8]) -> Result<usize, Failed> {
        match write_uninterrupted(&mut self.writer, piece) {
            Ok(count) if count > 0 || piece.is_empty() => Ok(count),
            _ => {
                self.faults = self.faults.saturating_add(1);
                Err(Failed)
            }
        }
    }
}
