//! Words of a line.

/// The first word of a text, and what stands after the blank after it.
pub fn first_word(text: &[u8]) -> (&[u8], &[u8]) {
    for at in 0..text.len() {
        if text[at] == b' ' {
            return (&text[..at], &text[at + 1..]);
        }
    }
    (text, &text[text.len()..])
}
