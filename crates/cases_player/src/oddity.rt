//! The lines that begin a case over a book with an odd rule.

/// How a rule is odd.
#[derive(Clone, Copy)]
pub(crate) enum How {
    /// It finds no memory.
    NoMemory,
    /// It answers its pieces in the opposite order.
    Opposite,
}

/// How a book is odd: how one rule is, and its place among those of the twelve kinds.
#[derive(Clone, Copy)]
pub(crate) struct Oddity {
    pub how: How,
    pub place: usize,
}

// The kinds of operators, in the order of the table of operators.
const KINDS: [&[u8]; 12] = [
    b"NOP",
    b"CREATE TABLE",
    b"DROP TABLE",
    b"RENAME TABLE",
    b"COPY TABLE",
    b"MERGE TABLE",
    b"PARTITION TABLE",
    b"DECOMPOSE TABLE",
    b"JOIN TABLE",
    b"ADD COLUMN",
    b"DROP COLUMN",
    b"RENAME COLUMN",
];

// The book whose rule of this kind is odd, if it is a kind.
fn odd_of(how: How, kind: &[u8]) -> Option<Oddity> {
    let place = KINDS.iter().position(|known| *known == kind)?;
    Some(Oddity { how, place })
}

/// What is odd of the book of the case that a line begins, if anything is.
pub(crate) fn oddity_of(line: &[u8]) -> Option<Oddity> {
    match line {
        [b'=', b'-', b' ', kind @ ..] => odd_of(How::NoMemory, kind),
        [b'=', b'~', b' ', kind @ ..] => odd_of(How::Opposite, kind),
        _ => None,
    }
}
