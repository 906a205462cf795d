ghost use Rattle.std.specs.Prelude.{OnOk, OnErr};
ghost use Rattle.std.specs.Io.KnownBytes.{Appends};
ghost use Rattle.prima_io.specs.Causes.{HasCause};
ghost use Rattle.prima_io.specs.Moves.{AppendsLess};

use crate::{Failed, Sink};

/// Puts all the bytes, in as many calls of `put` as it takes: none where there are no bytes. It
/// takes no memory. The first fault ends it: `Failed` comes only where the sink's count of faults
/// rose, and a prefix of the bytes, and not all of them, was then appended; `Ok` only where the
/// count is as it was.
pub fn put_all<K: Sink>(sink: &mut K, bytes: &[u8]) -> Result<(), Failed>
    ensures all { OnOk result (Appends (K.written sink.old) (K.written sink.new) bytes.now) }
    ensures part { OnErr result (AppendsLess (K.written sink.old) (K.written sink.new) bytes.now) }
    ensures cause { HasCause (K.faults sink.old) (K.faults sink.new) result }
{
    let mut at = 0;
    'pieces: while at < bytes.len() {
        at += sink.put(&bytes[at..])?;
    }
    Ok(())
}
