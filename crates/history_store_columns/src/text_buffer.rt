//! Texts one after the other in one buffer.

ghost use Rattle.std.specs.Prelude.{◌≡◌, ◌+◌, ◌-◌, ◌≤◌, ◌∷◌, ◌++◌, take, drop, length, slice_index};
ghost use Rattle.std.specs.Prelude.{vec_len, vec_capacity};

use prima_base::NoMemory;
use std::alloc::Global;
use std::marker::Model;

/// How many bytes of text a unit of room is for.
pub(crate) const ROOM_UNIT: usize = 32;

/// Texts one after the other in one buffer: for each the place after its last byte, where the next
/// one begins.
#[derive(Drop)]
pub(crate) struct TextBuffer {
    bytes: Vec<u8>,
    ends: Vec<usize>,
}

impl Model for TextBuffer {
    ghost use Rattle.history_store_columns.specs.Texts.{Texts};

    ghost Value = { Texts };

    ghost use Rattle.history_store_columns.specs.TextFields.{texts_of, AreTexts};

    ghost view = { texts_of };

    ghost invariant = { AreTexts };
}

// The bytes and these after them.
fn append(bytes: &mut Vec<u8>, more: &[u8])
    requires { vec_len bytes.old + length more.now ≤ vec_capacity bytes.old }
    ensures items { bytes.new.items ≡ bytes.old.items ++ more.now }
    ensures len { vec_len bytes.new ≡ vec_len bytes.old + length more.now }
    ensures capacity { vec_capacity bytes.old ≤ vec_capacity bytes.new }
{
    // There is room, so nothing can fail.
    let _ = bytes.extend_from_slice(more);
}

// Where the text at this place begins: where the one before it ends.
fn start_of(ends: &[usize], at: usize) -> usize
    requires { at ≤ length ends.now }
    ensures { result ≡ slice_index (0 ∷ ends.now) at }
{
    if at == 0 {
        return 0;
    }
    ends[at - 1]
}

// The bytes from the one place to the other.
fn part(bytes: &[u8], start: usize, end: usize) -> &[u8]
    requires order { start ≤ end }
    requires within { end ≤ length bytes.now }
    ensures { result.now ≡ take (end - start) (drop start bytes.now) }
{
    &bytes[start..end]
}

impl TextBuffer {
    ghost use Rattle.std.specs.Prelude.{◌≡◌, ◌+◌, ◌<◌, ◌≤◌, [], ◌∷◌, ◌++◌, OnOk, length};
    ghost use Rattle.std.specs.Prelude.{slice_index_or};
    ghost use Rattle.prima_base.specs.Bytes.{IsTxt};

    /// No texts.
    pub(crate) fn new(alloc: Global) -> TextBuffer
        ensures { result.items ≡ [] }
    {
        TextBuffer {
            bytes: Vec::new(alloc),
            ends: Vec::new(alloc),
        }
    }

    /// Room for this many texts more, and for this many bytes of them.
    pub(crate) fn reserve(&mut self, texts: usize, bytes: usize) -> Result<(), NoMemory>
        ensures items { self.new.items ≡ self.old.items }
        ensures places { self.old.places ≤ self.new.places }
        ensures bytes { self.old.bytes ≤ self.new.bytes }
        ensures place { OnOk result (texts ≤ self.new.places) }
        ensures room { OnOk result (bytes ≤ self.new.bytes) }
    {
        self.bytes.reserve(bytes)?;
        self.ends.reserve(texts)?;
        Ok(())
    }

    /// One text more, whose bytes are copied once. It takes no memory.
    pub(crate) fn push(&mut self, text: &[u8])
        requires valid { IsTxt text.now }
        requires place { 1 ≤ self.old.places }
        requires room { length text.now ≤ self.old.bytes }
        ensures items { self.new.items ≡ self.old.items ++ text.now ∷ [] }
        ensures places { self.old.places ≤ self.new.places + 1 }
        ensures bytes { self.old.bytes ≤ self.new.bytes + length text.now }
    {
        append(&mut self.bytes, text);
        self.ends.push_reserved(self.bytes.len());
    }

    /// The text at this place, where it stands in the buffer. It takes no memory.
    pub(crate) fn text(&self, at: usize) -> &[u8]
        requires { at < length self.now.items }
        ensures text { result.now ≡ slice_index_or self.now.items at [] }
        ensures valid { IsTxt result.now }
    {
        part(&self.bytes, start_of(&self.ends, at), self.ends[at])
    }
}
