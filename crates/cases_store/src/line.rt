//! The lines of a case.

use cases_text::{first_word, read_number};

/// What a line says.
#[derive(Clone, Copy)]
pub(crate) enum Line<'a> {
    Name(&'a [u8]),
    Column(&'a [u8]),
    Gain(&'a [u8]),
    Lose(&'a [u8]),
    Gains(&'a [u8]),
    Loses(&'a [u8]),
    At(u64),
    Whole(u64),
    Index(u64),
    Restore,
    Made(&'a [u8]),
    Figures,
    Note,
}

/// Reads a line; what is none of the lines of a case is a note.
pub(crate) fn read_line(line: &[u8]) -> Line<'_> {
    let (word, text) = first_word(line);
    match word {
        b"==" => Line::Name(text),
        b"column" => Line::Column(text),
        b"gain" => Line::Gain(text),
        b"lose" => Line::Lose(text),
        b"gains" => Line::Gains(text),
        b"loses" => Line::Loses(text),
        b"at" => Line::At(read_number(text)),
        b"whole" => Line::Whole(read_number(text)),
        b"index" => Line::Index(read_number(text)),
        b"restore" => Line::Restore,
        b"made" => Line::Made(text),
        b"figures" => Line::Figures,
        _ => Line::Note,
    }
}
