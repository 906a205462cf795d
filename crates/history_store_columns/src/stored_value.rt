//! The values of one column.

ghost use Rattle.std.specs.Prelude.{◌≡◌, ◌≤◌, length};
ghost use Rattle.prima_base.specs.Order.{bytes_of, shown};
ghost use Rattle.prima_base.specs.Columns.{IsValid};
ghost use Rattle.history_store_columns.specs.StoredValues.{text_room};

use crate::text_buffer::{ROOM_UNIT, TextBuffer};
use prima_base::{ColType, NoMemory, Val};
use std::alloc::Global;

/// How many units of room the value's text takes beside the one of its write.
pub fn text_room(value: &Val<'_>) -> usize
    requires valid { IsValid (shown value.now) }
    ensures room { result ≡ text_room (shown value.now) }
    ensures small { result ≤ 128 }
{
    bytes_of(value).len() / ROOM_UNIT
}

/// How many bytes the value's text has, none where it is a number.
pub fn text_bytes(value: &Val<'_>) -> usize
    ensures { result ≡ length (bytes_of (shown value.now)) }
{
    bytes_of(value).len()
}

// The bytes of a text, none of a number.
fn bytes_of<'v>(value: &'v Val<'_>) -> &'v [u8]
    ensures { result.now ≡ bytes_of (shown value.now) }
{
    match value {
        Val::Int(_) => &[],
        Val::Slice(bytes) => bytes,
        Val::Own(text) => text.bytes(),
    }
}

/// The values of a column of the one type or the other: 8 bytes a number, and 8 beside its bytes a
/// text.
#[derive(Drop)]
pub(crate) enum StoredValues {
    Numbers(Vec<i64>),
    Texts(TextBuffer),
}

impl StoredValues {
    ghost use Rattle.std.specs.Prelude.{◌≡◌, ◌+◌, ◌<◌, ◌≤◌, [], ◌∷◌, ◌++◌, true, OnOk, length};
    ghost use Rattle.std.specs.Prelude.{slice_index_or};
    ghost use Rattle.prima_base.specs.Order.{bytes_of, shown, IsBorrowed};
    ghost use Rattle.prima_base.specs.Columns.{has_type, IsValid};
    ghost use Rattle.prima_base.specs.declared.value.Value.{Value as OneValue};
    ghost use Rattle.history_store_columns.specs.StoredValues.{kind_of, values_in, text_room};
    ghost use Rattle.history_store_columns.specs.StoredValues.{places_in, bytes_in, spare_in};

    /// No values, for a column of this type.
    pub(crate) fn new(alloc: Global, kind: ColType) -> StoredValues
        ensures kind { kind_of result ≡ kind }
        ensures values { values_in result ≡ [] }
    {
        match kind {
            ColType::Int => StoredValues::Numbers(Vec::new(alloc)),
            ColType::Text => StoredValues::Texts(TextBuffer::new(alloc)),
        }
    }

    /// Room for this many values more, with as many units of text.
    pub(crate) fn reserve(&mut self, more: u32) -> Result<(), NoMemory>
        ensures kind { kind_of self.new ≡ kind_of self.old }
        ensures values { values_in self.new ≡ values_in self.old }
        ensures spare { spare_in self.old ≤ spare_in self.new }
        ensures room { OnOk result (more ≤ spare_in self.new) }
    {
        match self {
            StoredValues::Numbers(numbers) => {
                numbers.reserve(more as usize)?;
                Ok(())
            }
            StoredValues::Texts(texts) => texts.reserve(more as usize, more as usize * ROOM_UNIT),
        }
    }

    /// Room for so many values more, and for this many bytes of their texts.
    pub(crate) fn reserve_texts(&mut self, more: usize, bytes: usize) -> Result<(), NoMemory>
        ensures kind { kind_of self.new ≡ kind_of self.old }
        ensures values { values_in self.new ≡ values_in self.old }
        ensures spare { spare_in self.old ≤ spare_in self.new }
        ensures places { OnOk result (more ≤ places_in self.new) }
    {
        match self {
            StoredValues::Numbers(numbers) => {
                numbers.reserve(more)?;
                Ok(())
            }
            StoredValues::Texts(texts) => texts.reserve(more, bytes),
        }
    }

    /// Room for this value: one place, and the bytes of its text.
    pub(crate) fn reserve_value(&mut self, value: &Val<'_>) -> Result<(), NoMemory>
        requires typed { has_type (kind_of self.old) (shown value.now) ≡ true }
        ensures kind { kind_of self.new ≡ kind_of self.old }
        ensures values { values_in self.new ≡ values_in self.old }
        ensures place { OnOk result (1 ≤ places_in self.new) }
        ensures room { OnOk result (length (bytes_of (shown value.now)) ≤ bytes_in self.new) }
    {
        match self {
            StoredValues::Numbers(numbers) => {
                numbers.reserve(1)?;
                Ok(())
            }
            StoredValues::Texts(texts) => texts.reserve(1, bytes_of(value).len()),
        }
    }

    /// One value more, of the column's type: a text is copied once, from where it stands. It takes
    /// no memory.
    pub(crate) fn push(&mut self, value: &Val<'_>)
        requires valid { IsValid (shown value.now) }
        requires typed { has_type (kind_of self.old) (shown value.now) ≡ true }
        requires place { 1 ≤ places_in self.old }
        requires room { length (bytes_of (shown value.now)) ≤ bytes_in self.old }
        ensures kind { kind_of self.new ≡ kind_of self.old }
        ensures values { values_in self.new ≡ values_in self.old ++ shown value.now ∷ [] }
        ensures spare { spare_in self.old ≤ spare_in self.new + text_room (shown value.now) + 1 }
    {
        match self {
            StoredValues::Numbers(numbers) => {
                if let Val::Int(number) = value {
                    numbers.push_reserved(*number);
                }
            }
            StoredValues::Texts(texts) => texts.push(bytes_of(value)),
        }
    }

    /// The value at this place, a text as it stands in the buffer. It takes no memory.
    pub(crate) fn lend(&self, at: usize) -> Val<'_>
        requires { at < length (values_in self.now) }
        ensures value { (d : OneValue) → shown result ≡ slice_index_or (values_in self.now) at d }
        ensures valid { IsValid (shown result) }
        ensures borrowed { IsBorrowed result }
    {
        match self {
            StoredValues::Numbers(numbers) => Val::Int(numbers[at]),
            StoredValues::Texts(texts) => Val::Slice(texts.text(at)),
        }
    }
}
