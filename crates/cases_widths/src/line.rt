//! The lines of a case.

/// What a line says.
#[derive(Clone, Copy)]
pub(crate) enum Line<'a> {
    Name(&'a [u8]),
    Command,
    Each,
    All,
    Note,
}

/// Reads a line; what is none of the lines of a case is a note.
pub(crate) fn read_line(line: &[u8]) -> Line<'_> {
    match line {
        [b'=', b'=', b' ', name @ ..] => Line::Name(name),
        [b'A', b'T', b' ', ..] => Line::Command,
        [b'e', b'a', b'c', b'h'] => Line::Each,
        [b'a', b'l', b'l'] => Line::All,
        _ => Line::Note,
    }
}
