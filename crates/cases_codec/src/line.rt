//! The lines of a case.

use cases_text::read_number;

/// What a line says.
#[derive(Clone, Copy)]
pub(crate) enum Line<'a> {
    Name(&'a [u8]),
    Bytes(&'a [u8]),
    Decode,
    Cuts,
    Set(u8),
    ReadName(u64),
    ReadValue(u64),
    ReadOperator(u64),
    Note,
}

/// Reads a line; what is none of the lines of a case is a note.
pub(crate) fn read_line(line: &[u8]) -> Line<'_> {
    match line {
        [b'=', b'=', b' ', name @ ..] => Line::Name(name),
        [b'b', b'y', b't', b'e', b's', b' ', hex @ ..] => Line::Bytes(hex),
        [b'd', b'e', b'c', b'o', b'd', b'e'] => Line::Decode,
        [b'c', b'u', b't', b's'] => Line::Cuts,
        [b's', b'e', b't', b' ', text @ ..] => Line::Set((read_number(text) % 256) as u8),
        [b'n', b'a', b'm', b'e', b' ', text @ ..] => Line::ReadName(read_number(text)),
        [b'v', b'a', b'l', b'u', b'e', b' ', text @ ..] => Line::ReadValue(read_number(text)),
        [
            b'o',
            b'p',
            b'e',
            b'r',
            b'a',
            b't',
            b'o',
            b'r',
            b' ',
            text @ ..,
        ] => { Line::ReadOperator(read_number(text)) }
        _ => Line::Note,
    }
}
