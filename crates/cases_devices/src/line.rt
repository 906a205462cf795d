//! The lines of a case.

use cases_text::read_number;

/// What a line says.
#[derive(Clone, Copy)]
pub(crate) enum Line<'a> {
    Name(&'a [u8]),
    File(&'a [u8]),
    Words(&'a [u8]),
    Script(&'a [u8]),
    Later(&'a [u8]),
    Chunk(u64),
    Run,
    Ends,
    Opens,
    Sources,
    Sinks,
    Rooms,
    Disks,
    Fuses,
    Crashes,
    Moments,
    Image,
    Note,
}

/// Reads a line; what is none of the lines of a case is a note.
pub(crate) fn read_line(line: &[u8]) -> Line<'_> {
    match line {
        [b'=', b'=', b' ', name @ ..] => Line::Name(name),
        [b'f', b'i', b'l', b'e', b' ', hex @ ..] => Line::File(hex),
        [b'w', b'o', b'r', b'd', b's', list @ ..] => Line::Words(list),
        [b's', b'c', b'r', b'i', b'p', b't', b' ', text @ ..] => Line::Script(text),
        [b'l', b'a', b't', b'e', b'r', b' ', text @ ..] => Line::Later(text),
        [b'c', b'h', b'u', b'n', b'k', b' ', text @ ..] => Line::Chunk(read_number(text)),
        [b'r', b'u', b'n'] => Line::Run,
        [b'e', b'n', b'd', b's'] => Line::Ends,
        [b'o', b'p', b'e', b'n', b's'] => Line::Opens,
        [b's', b'o', b'u', b'r', b'c', b'e', b's'] => Line::Sources,
        [b's', b'i', b'n', b'k', b's'] => Line::Sinks,
        [b'r', b'o', b'o', b'm', b's'] => Line::Rooms,
        [b'd', b'i', b's', b'k', b's'] => Line::Disks,
        [b'f', b'u', b's', b'e', b's'] => Line::Fuses,
        [b'c', b'r', b'a', b's', b'h', b'e', b's'] => Line::Crashes,
        [b'm', b'o', b'm', b'e', b'n', b't', b's'] => Line::Moments,
        [b'i', b'm', b'a', b'g', b'e'] => Line::Image,
        _ => Line::Note,
    }
}
