//! The lines of a case.

use cases_text::read_number;

/// What a line says.
#[derive(Clone, Copy)]
pub(crate) enum Line<'a> {
    Name(&'a [u8]),
    File(&'a [u8]),
    Limit(u64),
    Open,
    Put(&'a [u8]),
    Cuts,
    Bytes(u8),
    Fuses(&'a [u8]),
    Puts(&'a [u8]),
    Steps(&'a [u8]),
    Sure(&'a [u8]),
    Note,
}

/// Reads a line; what is none of the lines of a case is a note.
pub(crate) fn read_line(line: &[u8]) -> Line<'_> {
    match line {
        [b'=', b'=', b' ', name @ ..] => Line::Name(name),
        [b'f', b'i', b'l', b'e', b' ', hex @ ..] => Line::File(hex),
        [b'l', b'i', b'm', b'i', b't', b' ', text @ ..] => Line::Limit(read_number(text)),
        [b'o', b'p', b'e', b'n'] => Line::Open,
        [b'p', b'u', b't', b's', b' ', list @ ..] => Line::Puts(list),
        [b'p', b'u', b't', hex @ ..] => Line::Put(hex),
        [b'c', b'u', b't', b's'] => Line::Cuts,
        [b'b', b'y', b't', b'e', b's', b' ', text @ ..] => Line::Bytes(
            (read_number(text) % 256) as u8,
        ),
        [b'f', b'u', b's', b'e', b's', hex @ ..] => Line::Fuses(hex),
        [b's', b't', b'e', b'p', b's', b' ', list @ ..] => Line::Steps(list),
        [b's', b'u', b'r', b'e', b' ', list @ ..] => Line::Sure(list),
        _ => Line::Note,
    }
}
