//! The lines of a case.

use cases_text::read_number;

/// What a line says.
#[derive(Clone, Copy)]
pub(crate) enum Line<'a> {
    Image,
    Bytes(&'a [u8]),
    Times(&'a [u8]),
    Stamped(&'a [u8]),
    Name(&'a [u8]),
    Cut(u64),
    Set(&'a [u8]),
    Insert(&'a [u8]),
    Remove(&'a [u8]),
    Read,
    Cuts,
    Each(u8),
    Note,
}

// Reads a line that puts or takes bytes; what is none is a note.
fn read_change(line: &[u8]) -> Line<'_> {
    match line {
        [b'c', b'u', b't', b' ', text @ ..] => Line::Cut(read_number(text)),
        [b's', b'e', b't', b' ', text @ ..] => Line::Set(text),
        [b'i', b'n', b's', b'e', b'r', b't', b' ', text @ ..] => Line::Insert(text),
        [b'r', b'e', b'm', b'o', b'v', b'e', b' ', text @ ..] => Line::Remove(text),
        _ => Line::Note,
    }
}

/// Reads a line; what is none of the lines of a case is a note.
pub(crate) fn read_line(line: &[u8]) -> Line<'_> {
    match line {
        [b'i', b'm', b'a', b'g', b'e'] => Line::Image,
        [b'b', b'y', b't', b'e', b's', b' ', hex @ ..] => Line::Bytes(hex),
        [b't', b'i', b'm', b'e', b's', b' ', text @ ..] => Line::Times(text),
        [b's', b't', b'a', b'm', b'p', b'e', b'd', b' ', text @ ..] => Line::Stamped(text),
        [b'=', b'=', b' ', name @ ..] => Line::Name(name),
        [b'r', b'e', b'a', b'd'] => Line::Read,
        [b'c', b'u', b't', b's'] => Line::Cuts,
        [b'e', b'a', b'c', b'h', b' ', text @ ..] => Line::Each((read_number(text) % 256) as u8),
        _ => read_change(line),
    }
}
