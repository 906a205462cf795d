//! Words of a line as values.

use crate::numeral::read_number;
use prima_base::{NoMemory, Txt, TxtFault, Value};
use std::alloc::Global;

// The number that a word spells, with a `-` before it or without.
fn read_int(word: &[u8]) -> i64 {
    let mut below: i64 = 0;
    for byte in word {
        if byte.is_ascii_digit() {
            let digit = i64::from(byte.wrapping_sub(b'0'));
            below = below.wrapping_mul(10).wrapping_sub(digit);
        }
    }
    match word.first() {
        Some(b'-') => below,
        _ => below.wrapping_neg(),
    }
}

// The bytes so many times.
fn repeated(alloc: Global, bytes: &[u8], times: u64) -> Result<Vec<u8>, NoMemory> {
    let mut all = Vec::new(alloc);
    for _ in 0..times {
        all.extend_from_slice(bytes)?;
    }
    Ok(all)
}

/// The value that is this text; bytes that are no text's are the empty one.
pub fn text_value(alloc: Global, bytes: &[u8]) -> Result<Value, NoMemory> {
    match Txt::new(alloc, bytes) {
        Ok(text) => Ok(Value::Text(text)),
        Err(TxtFault::NoMemory) => Err(NoMemory),
        Err(_) => text_value_of_none(alloc),
    }
}

// The empty text.
fn text_value_of_none(alloc: Global) -> Result<Value, NoMemory> {
    match Txt::new(alloc, &[]) {
        Ok(text) => Ok(Value::Text(text)),
        Err(_) => Err(NoMemory),
    }
}

// The text of a word: before a `*` what it repeats, and after it how often.
fn read_text(alloc: Global, word: &[u8]) -> Result<Value, NoMemory> {
    for at in 0..word.len() {
        if word[at] == b'*' {
            let bytes = repeated(alloc, &word[..at], read_number(&word[at + 1..]))?;
            return text_value(alloc, &bytes);
        }
    }
    text_value(alloc, word)
}

/// The value that a word spells: a number, or a text after a `'`; `'TEXT*N` is the text N times.
pub fn read_value(alloc: Global, word: &[u8]) -> Result<Value, NoMemory> {
    match word {
        [b'\'', text @ ..] => read_text(alloc, text),
        _ => Ok(Value::Int(read_int(word))),
    }
}
