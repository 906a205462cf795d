//! The lines that begin a block of cases.

/// What the lines after one are.
#[derive(Clone, Copy, PartialEq, Eq)]
pub(crate) enum Block {
    /// A case that stands alone.
    Alone,
    /// A script that stands before those of the cases after it.
    Setup,
    /// A case after the setup before it.
    After,
}

/// The block that a line begins, if it begins one.
pub(crate) fn block_of(line: &[u8]) -> Option<Block> {
    match line {
        [b'=', b'=' | b'-' | b'~', b' ', ..] => Some(Block::Alone),
        [b'=', b'.', b' ', ..] => Some(Block::Setup),
        [b'=', b'+', b' ', ..] => Some(Block::After),
        _ => None,
    }
}
