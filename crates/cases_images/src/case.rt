//! A case: the bytes of an image, and how they are damaged.

use crate::answer::{read_text, write_cuts, write_each};
use crate::line::{Line, read_line};
use cases_text::{LinePlayer, first_word, play_lines, read_hex, read_number};
use prima_base::NoMemory;
use std::alloc::{AllocError, Global};

// The image that the cases have, the bytes of the case that is being played, and the answers so
// far.
#[derive(Drop)]
struct Case {
    alloc: Global,
    image: Vec<u8>,
    bytes: Vec<u8>,
    answers: Vec<u8>,
}

// The bytes that a text spells.
fn encoded(alloc: Global, hex: &[u8]) -> Result<Vec<u8>, NoMemory> {
    let mut bytes = Vec::new(alloc);
    read_hex(hex, &mut bytes)?;
    Ok(bytes)
}

// The bytes with others in place of those from one place up to another.
fn replaced(
    alloc: Global,
    bytes: &[u8],
    from: usize,
    to: usize,
    others: &[u8],
) -> Result<Vec<u8>, NoMemory> {
    let mut all = Vec::from_slice(alloc, bytes.get(..from).unwrap_or(bytes))?;
    all.extend_from_slice(others)?;
    all.extend_from_slice(bytes.get(to..).unwrap_or_default())?;
    Ok(all)
}

impl Case {
    fn new(alloc: Global) -> Case {
        Case {
            alloc,
            image: Vec::new(alloc),
            bytes: Vec::new(alloc),
            answers: Vec::new(alloc),
        }
    }

    // Puts so many times bytes after those of the image.
    fn times(&mut self, text: &[u8]) -> Result<(), NoMemory> {
        let (count, hex) = first_word(text);
        let bytes = encoded(self.alloc, hex)?;
        for _ in 0..read_number(count) {
            self.image.extend_from_slice(&bytes)?;
        }
        Ok(())
    }

    // Puts each of these numbers there, and the bytes after it.
    fn stamped(&mut self, text: &[u8]) -> Result<(), NoMemory> {
        let (first, others) = first_word(text);
        let (last, hex) = first_word(others);
        let bytes = encoded(self.alloc, hex)?;
        for number in read_number(first)..=read_number(last) {
            self.image.extend_from_slice(&number.to_be_bytes())?;
            self.image.extend_from_slice(&bytes)?;
        }
        Ok(())
    }

    fn begin(&mut self, name: &[u8]) -> Result<(), NoMemory> {
        self.bytes = Vec::from_slice(self.alloc, &self.image)?;
        self.answers.extend_from_slice(b"== ")?;
        self.answers.extend_from_slice(name)?;
        self.answers.push(b'\n')?;
        Ok(())
    }

    fn cut(&mut self, len: usize) -> Result<(), NoMemory> {
        let all = self.bytes.len();
        self.bytes = replaced(self.alloc, &self.bytes, len, all, &[])?;
        Ok(())
    }

    fn set(&mut self, text: &[u8]) -> Result<(), NoMemory> {
        let (place, hex) = first_word(text);
        let from = read_number(place) as usize;
        let others = encoded(self.alloc, hex)?;
        let to = from.wrapping_add(others.len());
        self.bytes = replaced(self.alloc, &self.bytes, from, to, &others)?;
        Ok(())
    }

    fn insert(&mut self, text: &[u8]) -> Result<(), NoMemory> {
        let (place, hex) = first_word(text);
        let at = read_number(place) as usize;
        let others = encoded(self.alloc, hex)?;
        self.bytes = replaced(self.alloc, &self.bytes, at, at, &others)?;
        Ok(())
    }

    fn remove(&mut self, text: &[u8]) -> Result<(), NoMemory> {
        let (place, count) = first_word(text);
        let from = read_number(place) as usize;
        let to = from.wrapping_add(read_number(count) as usize);
        self.bytes = replaced(self.alloc, &self.bytes, from, to, &[])?;
        Ok(())
    }

    fn read(&mut self) -> Result<(), NoMemory> {
        let text = read_text(self.alloc, &self.bytes)?;
        self.answers.extend_from_slice(&text)?;
        self.answers.push(b'\n')?;
        Ok(())
    }
}

impl LinePlayer for Case {
    fn line(&mut self, line: &[u8]) -> Result<(), NoMemory> {
        match read_line(line) {
            Line::Image => {
                self.image.clear();
                Ok(())
            }
            Line::Bytes(hex) => read_hex(hex, &mut self.image),
            Line::Times(text) => self.times(text),
            Line::Stamped(text) => self.stamped(text),
            Line::Name(name) => self.begin(name),
            Line::Cut(len) => self.cut(len as usize),
            Line::Set(text) => self.set(text),
            Line::Insert(text) => self.insert(text),
            Line::Remove(text) => self.remove(text),
            Line::Read => self.read(),
            Line::Cuts => write_cuts(self.alloc, &self.bytes, &mut self.answers),
            Line::Each(byte) => write_each(self.alloc, &self.bytes, byte, &mut self.answers),
            Line::Note => Ok(()),
        }
    }
}

/// Plays the cases of a text of lines. The one error comes where memory runs out.
pub(crate) fn play(alloc: Global, cases: &[u8]) -> Result<Vec<u8>, AllocError> {
    let mut case = Case::new(alloc);
    play_lines(&mut case, cases)?;
    Ok(case.answers)
}
