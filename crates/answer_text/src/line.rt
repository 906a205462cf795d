//! A line of a reply, gathered in memory and put when its room is full or it ends.

ghost use Rattle.std.specs.Prelude.{◌≡◌, ◌+◌, ◌≤◌, ◌++◌, [], List, ℕ, length, take, OnOk, OnErr};
ghost use Rattle.std.specs.Prelude.{decimal};
ghost use Rattle.std.specs.Io.KnownBytes.{Appends};
ghost use Rattle.prima_io.specs.Causes.{HasCause};
ghost use Rattle.prima_io.specs.Moves.{AppendsLess};
ghost use Rattle.answer_text.specs.Gathering.{Gathers};
ghost use Rattle.answer_text.specs.Texts.{end_text, count_text};

use itoa::Buffer;
use prima_base::FOREVER;
use prima_io::{Failed, Sink, put_all};
use std::marker::Model;

/// How many bytes a line gathers before they are put.
pub(crate) const ROOM: usize = 4096;

/// Bytes of replies that are gathered on the stack, so that a sink is called once for some 4 KB and
/// not for each piece. A contract sees the bytes that it holds.
#[derive(Drop)]
pub(crate) struct ReplyLine {
    bytes: [u8; ROOM],
    len: usize,
}

impl Model for ReplyLine {
    ghost use Rattle.std.specs.Prelude.{ℕ, List, take, ◌≤◌};

    ghost Value = { List ℕ };

    ghost view = { λ l. take l.len l.bytes };

    ghost invariant = { λ l. l.len ≤ 4096 };
}

impl ReplyLine {
    /// A line that holds nothing.
    pub(crate) fn new() -> ReplyLine
        ensures { result ≡ [] }
    {
        ReplyLine {
            bytes: [0; ROOM],
            len: 0,
        }
    }

    /// Adds a piece for which there is room.
    pub(crate) fn add(&mut self, piece: &[u8])
        requires { length self.old + length piece.now ≤ 4096 }
        ensures { self.new ≡ self.old ++ piece.now }
    {
        let end = self.len + piece.len();
        self.bytes[self.len..end].copy_from_slice(piece);
        self.len = end;
    }

    /// Adds a number, for which there is room, in decimal digits.
    pub(crate) fn add_number(&mut self, number: u64)
        requires { length self.old + 20 ≤ 4096 }
        ensures added { self.new ≡ self.old ++ decimal number }
        ensures short { length self.new ≤ length self.old + 20 }
    {
        self.add(Buffer::new().format(number).as_bytes());
    }

    /// Adds the end of a period, for which there is room: `now` where the period still goes on.
    pub(crate) fn add_end(&mut self, end: u64)
        requires { length self.old + 20 ≤ 4096 }
        ensures added { self.new ≡ self.old ++ end_text end }
        ensures short { length self.new ≤ length self.old + 20 }
    {
        if end == FOREVER {
            self.add(b"now");
        } else {
            self.add_number(end);
        }
    }

    /// The line that counts the lines before it.
    pub(crate) fn counting(count: u64) -> ReplyLine
        ensures text { result ≡ count_text count }
        ensures short { length result ≤ 30 }
    {
        let mut line = ReplyLine::new();
        line.add(b"end ");
        line.add_number(count);
        line.add(b"\n");
        line
    }

    /// The bytes that the line holds.
    pub(crate) fn held(&self) -> &[u8]
        ensures { result.now ≡ self.now }
    {
        &self.bytes[..self.len]
    }

    /// How many bytes can still be added.
    pub(crate) fn room(&self) -> usize
        ensures { result + length self.now ≡ 4096 }
    {
        ROOM - self.len
    }

    /// Puts what the line holds, which is then empty. `Failed` comes only where the sink's count of
    /// faults rose; a prefix of what was held, and not all of it, was then put.
    pub(crate) fn flush<K: Sink>(&mut self, sink: &mut K) -> Result<(), Failed>
        ensures emptied { self.new ≡ [] }
        ensures all { OnOk result (Appends (K.written sink.old) (K.written sink.new) self.old) }
        ensures part { OnErr result (AppendsLess (K.written sink.old)
            (K.written sink.new) self.old) }
        ensures cause { HasCause (K.faults sink.old) (K.faults sink.new) result }
    {
        let done = put_all(sink, &self.bytes[..self.len]);
        self.len = 0;
        done
    }

    /// Puts what the line holds where fewer than `room` bytes, at most 4,096, could be added.
    /// `Failed` is that of `flush`.
    pub(crate) fn make_room<K: Sink>(&mut self, sink: &mut K, room: usize) -> Result<(), Failed>
        requires { room ≤ 4096 }
        ensures all { OnOk result (Gathers (K.written sink.old) self.old (K.written sink.new)
            self.new []) }
        ensures room { OnOk result (length self.new + room ≤ 4096) }
        ensures part { OnErr result (AppendsLess (K.written sink.old)
            (K.written sink.new) self.old) }
        ensures emptied { OnErr result (self.new ≡ []) }
        ensures cause { HasCause (K.faults sink.old) (K.faults sink.new) result }
    {
        if self.room() < room {
            return self.flush(sink);
        }
        Ok(())
    }

    /// Adds a piece, and puts what does not fit. `Failed` comes only where the sink's count of
    /// faults rose; a prefix of what was held and of the piece, and not all of it, was then put,
    /// and the line is empty.
    pub(crate) fn push<K: Sink>(&mut self, sink: &mut K, piece: &[u8]) -> Result<(), Failed>
        ensures all { OnOk result (Gathers (K.written sink.old) self.old (K.written sink.new)
            self.new piece.now) }
        ensures part { OnErr result (AppendsLess (K.written sink.old) (K.written sink.new)
            (self.old ++ piece.now)) }
        ensures emptied { OnErr result (self.new ≡ []) }
        ensures cause { HasCause (K.faults sink.old) (K.faults sink.new) result }
    {
        if piece.len() > self.room() {
            return self.push_after(sink, piece);
        }
        self.add(piece);
        Ok(())
    }

    // Puts what is held, and then holds the piece, or puts it too where it is longer than a line.
    fn push_after<K: Sink>(&mut self, sink: &mut K, piece: &[u8]) -> Result<(), Failed>
        ensures all { OnOk result (Gathers (K.written sink.old) self.old (K.written sink.new)
            self.new piece.now) }
        ensures part { OnErr result (AppendsLess (K.written sink.old) (K.written sink.new)
            (self.old ++ piece.now)) }
        ensures emptied { OnErr result (self.new ≡ []) }
        ensures cause { HasCause (K.faults sink.old) (K.faults sink.new) result }
    {
        self.flush(sink)?;
        if piece.len() > ROOM {
            return put_all(sink, piece);
        }
        self.add(piece);
        Ok(())
    }
}
